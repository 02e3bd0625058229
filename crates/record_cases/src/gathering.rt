//! Lines of an audit log that are gathered to groups, and to the records of a source.

use crate::given::Given;
use audit_records::{AuditGroup, AuditId, AuditLine, FieldList, GroupBuilder};
use case_text::items_of;
use osq_value::{NoMemory, Str};
use publisher_core::gathering::{AuditRecord, Gathering};
use serde_json::Value as Json;
use std::alloc::Global;
use std::collections::VecDeque;

/// The line of an array of its serial number and its type; none of anything else.
fn line_of(alloc: Global, item: &Json) -> Result<Option<AuditLine>, NoMemory> {
    let [serial, kind] = items_of(Some(item)) else {
        return Ok(None);
    };
    let id = AuditId {
        seconds: 1_700_000_000,
        millis: 123,
        serial: serial.as_u64().unwrap_or(0),
    };
    Ok(Some(AuditLine {
        id,
        kind: Str::of(alloc, kind.as_str().unwrap_or(""))?,
        fields: FieldList::new(alloc),
    }))
}

/// Adds a sign and how many lines a group has, or a dash where there is none.
fn push_size(text: &mut String, sign: &str, group: Option<&AuditGroup>) -> Result<(), NoMemory> {
    text.push_str(sign)?;
    match group {
        Some(group) => write!(text, "{}", group.len())?,
        None => text.push_str("-")?,
    }
    Ok(())
}

/// Takes a line, and adds the group before it that it ends.
fn push_before(
    text: &mut String,
    builder: &mut GroupBuilder,
    line: AuditLine,
) -> Result<(), NoMemory> {
    let before = builder.push(line)?;
    push_size(text, " ", before.as_ref())
}

/// Adds the group of the last line where that ends it.
fn push_own(text: &mut String, builder: &mut GroupBuilder) -> Result<(), NoMemory> {
    let own = builder.finish_own();
    push_size(text, "+", own.as_ref())
}

/// Adds the group that the end of input ends.
fn push_last(text: &mut String, builder: &mut GroupBuilder) -> Result<(), NoMemory> {
    let last = builder.finish();
    push_size(text, " ", last.as_ref())
}

/// Takes the line of an item, and adds which groups it ends.
fn push_ended(
    alloc: Global,
    text: &mut String,
    builder: &mut GroupBuilder,
    item: &Json,
) -> Result<(), NoMemory> {
    if let Some(line) = line_of(alloc, item)? {
        push_before(text, builder, line)?;
        push_own(text, builder)?;
    }
    Ok(())
}

/// Adds which groups each line ends, and the groups that the end of input ends when it comes once and once more.
fn push_all(
    alloc: Global,
    text: &mut String,
    builder: &mut GroupBuilder,
    items: &[Json],
) -> Result<(), NoMemory> {
    text.push_str(" ")?;
    for item in items {
        push_ended(alloc, text, builder, item)?;
    }
    text.push_str(" end")?;
    push_last(text, builder)?;
    push_last(text, builder)?;
    Ok(text.push_str("\n")?)
}

/// Adds which groups lines end.
pub(crate) fn push_groups(
    alloc: Global,
    text: &mut String,
    given: Given<'_>,
) -> Result<(), NoMemory> {
    let mut builder = GroupBuilder::new(alloc);
    push_all(alloc, text, &mut builder, given.items("groups"))
}

/// How many lines a record has.
fn size_of(record: &AuditRecord) -> usize {
    match &record.group {
        Some(group) => group.len(),
        None => 0,
    }
}

/// Adds what records have: lines, skipped lines, and their end.
fn push_records(text: &mut String, records: &VecDeque<AuditRecord>) -> Result<(), NoMemory> {
    for record in records.iter() {
        write!(text, " {}+{}", size_of(record), record.skipped)?;
        write!(text, "@{}", record.end)?;
    }
    Ok(text.push_str("\n")?)
}

/// Gathers an item.
fn gather(
    alloc: Global,
    gathering: &mut Gathering,
    records: &mut VecDeque<AuditRecord>,
    item: &Json,
    end: u64,
) -> Result<(), NoMemory> {
    if item.as_str() == Some("finish") {
        return gathering.finish(records);
    }
    gathering.take(line_of(alloc, item)?, end, records)
}

/// Gathers an item, and adds the records that it completes.
fn push_item(
    alloc: Global,
    text: &mut String,
    gathering: &mut Gathering,
    item: &Json,
    end: u64,
) -> Result<(), NoMemory> {
    write!(text, "  {item}:")?;
    let mut records = VecDeque::new(alloc);
    gather(alloc, gathering, &mut records, item, end)?;
    push_records(text, &records)
}

/// Adds which records each item completes. The lines end at their numbers.
fn push_items(
    alloc: Global,
    text: &mut String,
    gathering: &mut Gathering,
    items: &[Json],
) -> Result<(), NoMemory> {
    let mut end = 0u64;
    for item in items {
        if item.as_str().is_none() {
            end = end.saturating_add(1);
        }
        push_item(alloc, text, gathering, item, end)?;
    }
    Ok(())
}

/// Adds which records items complete.
pub(crate) fn push_gathered(
    alloc: Global,
    text: &mut String,
    given: Given<'_>,
) -> Result<(), NoMemory> {
    let mut gathering = Gathering::new(alloc);
    push_items(alloc, text, &mut gathering, given.items("gathers"))
}
