//! Lines of an audit log, and the event of a group.

use crate::given::Given;
use crate::readings::push_maybe_event;
use audit_records::{AuditGroup, AuditLine, AuditLineError, group_event, read_line};
use osq_value::{Copied, NoMemory};
use serde_json::Value as Json;
use std::alloc::Global;

fn push_fields(text: &mut String, line: &AuditLine) -> Result<(), NoMemory> {
    for field in line.fields.as_slice() {
        let sign = if field.quoted { "~" } else { "=" };
        write!(text, " {}{sign}", field.key.as_str())?;
        text.push_str(field.text.as_str())?;
    }
    text.push_str("\n")?;
    Ok(())
}

fn push_audit_line(text: &mut String, line: &AuditLine) -> Result<(), NoMemory> {
    let id = line.id;
    write!(text, "  {}.{}:{}", id.seconds, id.millis, id.serial)?;
    write!(text, " {}", line.kind.as_str())?;
    push_fields(text, line)
}

/// Adds a copy of a line, so that copying it is tried too.
fn push_copy(alloc: Global, text: &mut String, line: &AuditLine) -> Result<(), NoMemory> {
    let copy = line.copy(alloc)?;
    push_audit_line(text, &copy)
}

/// Adds what bytes are read as.
fn push_read(alloc: Global, text: &mut String, bytes: &[u8]) -> Result<(), NoMemory> {
    match read_line(alloc, bytes) {
        Ok(line) => push_copy(alloc, text, &line),
        Err(AuditLineError::BadLine) => Ok(text.push_str("  refused\n")?),
        Err(AuditLineError::NoMemory) => Err(NoMemory),
    }
}

/// Adds what an audit line is read as.
pub(crate) fn push_audit(
    alloc: Global,
    text: &mut String,
    given: Given<'_>,
) -> Result<(), NoMemory> {
    let bytes = given.text_at(alloc, "audit")?;
    push_read(alloc, text, bytes.as_slice())
}

/// Adds the line of these bytes to a group, and answers whether they are one.
fn add_line(alloc: Global, group: &mut AuditGroup, bytes: &[u8]) -> Result<bool, NoMemory> {
    match read_line(alloc, bytes) {
        Ok(line) => group.push(line).map(|()| true),
        Err(AuditLineError::BadLine) => Ok(false),
        Err(AuditLineError::NoMemory) => Err(NoMemory),
    }
}

/// Adds the line of an item to a group, and answers whether it is one.
fn add_item(
    alloc: Global,
    group: &mut AuditGroup,
    given: Given<'_>,
    item: &Json,
) -> Result<bool, NoMemory> {
    let bytes = given.text(alloc, item)?;
    add_line(alloc, group, bytes.as_slice())
}

/// Adds the lines to a group up to one that is refused, and answers whether none is.
fn add_items(alloc: Global, group: &mut AuditGroup, given: Given<'_>) -> Result<bool, NoMemory> {
    for item in given.items("event") {
        if !add_item(alloc, group, given, item)? {
            return Ok(false);
        }
    }
    Ok(true)
}

/// Adds the event of a group.
fn push_group(alloc: Global, text: &mut String, group: &AuditGroup) -> Result<(), NoMemory> {
    let event = group_event(alloc, group)?;
    push_maybe_event(text, event.as_ref())
}

/// Adds the event of a group of these lines.
pub(crate) fn push_event(
    alloc: Global,
    text: &mut String,
    given: Given<'_>,
) -> Result<(), NoMemory> {
    let mut group = AuditGroup::new(alloc);
    if add_items(alloc, &mut group, given)? {
        push_group(alloc, text, &group)
    } else {
        Ok(text.push_str("  refused\n")?)
    }
}
