//! The line of a story.

use crate::given::push_odd;
use crate::outside::Memory;
use batch_keeper::MemoryKeeper;
use case_text::{LineKind, items_of};
use entry_model::entry::{Entry, EntryList};
use osq_outside::FailList;
use osq_value::NoMemory;
use serde_json::Value as Json;
use std::alloc::Global;

/// The line of a story.
const STORY: LineKind = ("story", &["kept"]);

fn number_of(item: &Json, key: &str) -> Option<u64> {
    item.get(key)?.as_u64()
}

/// The rules that stand beside the number of a session, 1 where none do.
fn rules_of(item: &Json) -> Option<u32> {
    match item.get("rules") {
        None => Some(1),
        Some(_) => u32::try_from(number_of(item, "rules")?).ok(),
    }
}

/// The entry of an object with one number, or of a session's with its rules.
fn entry_of(item: &Json) -> Option<Entry> {
    if let Some(session) = number_of(item, "opened") {
        let rules = rules_of(item)?;
        return Some(Entry::Opened { session, rules });
    }
    if let Some(moment) = number_of(item, "ticked") {
        return Some(Entry::Ticked { moment });
    }
    let upto = number_of(item, "acked")?;
    Some(Entry::Acked { upto })
}

/// The entries that the line of a story gives.
fn kept_of(alloc: Global, line: &Json) -> Result<EntryList, NoMemory> {
    let mut entries = EntryList::new(alloc);
    for item in items_of(line.get("kept")) {
        if let Some(entry) = entry_of(item) {
            entries.push(entry)?;
        }
    }
    Ok(entries)
}

/// Whether each item that the line gives is an entry.
fn is_kept(line: &Json) -> bool {
    items_of(line.get("kept"))
        .iter()
        .all(|item| entry_of(item).is_some())
}

/// Gives the outside the kept list that the story begins over.
pub(crate) fn give_kept(alloc: Global, outside: &mut Memory, line: &Json) -> Result<(), NoMemory> {
    let entries = kept_of(alloc, line)?;
    outside.keeper = MemoryKeeper::new(entries, FailList::new(alloc), false);
    Ok(())
}

/// Adds the head of a story, and what its line has that no story may have.
pub(crate) fn push_head(text: &mut String, name: &str, line: &Json) -> Result<(), NoMemory> {
    writeln!(text, "\n== {name}")?;
    push_odd(text, "story", line, STORY)?;
    if !is_kept(line) {
        text.push_str("no entry\n")?;
    }
    Ok(())
}
