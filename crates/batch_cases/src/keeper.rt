//! Lists in a keeper in memory.

use batch_keeper::{Keeper, KeeperError, MemoryKeeper};
use case_lists::{entries_of, push_restored};
use case_text::{fails_of, items_of};
use entry_model::entry::EntryList;
use osq_outside::FailList;
use osq_value::NoMemory;
use serde_json::Value as Json;
use std::alloc::Global;

/// What is told of an error.
fn told(error: KeeperError) -> Result<&'static str, NoMemory> {
    match error {
        KeeperError::Fault => Ok("Fault\n"),
        KeeperError::NoMemory => Err(NoMemory),
    }
}

/// Loads the list of these entries.
fn push_loaded(alloc: Global, text: &mut String, entries: EntryList) -> Result<(), NoMemory> {
    let mut keeper = MemoryKeeper::new(entries, FailList::new(alloc), false);
    match keeper.load(alloc) {
        Ok(restored) => push_restored(text, &restored),
        Err(error) => Ok(text.push_str(told(error)?)?),
    }
}

/// Tells what is loaded from the list of entries by their words.
pub(crate) fn push_load(alloc: Global, text: &mut String, words: &str) -> Result<(), NoMemory> {
    match entries_of(alloc, words)? {
        Some(entries) => push_loaded(alloc, text, entries),
        None => Ok(text.push_str("no such entry\n")?),
    }
}

/// Seals entries, and answers what is told of it.
fn sealed(
    alloc: Global,
    keeper: &mut MemoryKeeper,
    entries: &EntryList,
) -> Result<&'static str, NoMemory> {
    match keeper.seal(alloc, entries) {
        Ok(()) => Ok("sealed\n"),
        Err(error) => told(error),
    }
}

/// Seals the entries of an item, and tells the answer.
fn push_seal(
    alloc: Global,
    text: &mut String,
    keeper: &mut MemoryKeeper,
    item: &Json,
) -> Result<(), NoMemory> {
    match entries_of(alloc, item.as_str().unwrap_or(""))? {
        Some(entries) => Ok(text.push_str(sealed(alloc, keeper, &entries)?)?),
        None => Ok(text.push_str("no such entry\n")?),
    }
}

/// Seals entries one after another, and tells each answer and how many entries there are.
pub(crate) fn push_seals(alloc: Global, text: &mut String, row: &Json) -> Result<(), NoMemory> {
    let is_whole = row.get("is_whole").and_then(Json::as_bool).unwrap_or(false);
    let fails = fails_of(alloc, row.get("fails"))?;
    let mut keeper = MemoryKeeper::new(EntryList::new(alloc), fails, is_whole);
    for item in items_of(row.get("seals")) {
        push_seal(alloc, text, &mut keeper, item)?;
    }
    Ok(writeln!(text, "{} entries", keeper.entries().len())?)
}
