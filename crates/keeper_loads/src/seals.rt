//! Seals into a database in memory.

use batch_keeper::{Keeper, KeeperError};
use case_lists::{entries_behind, push_all, push_restored};
use case_text::items_of;
use entry_model::entry::{Entry, EntryList};
use entry_summary::summary::summary_of;
use keeper_sqlite::ConnectionKeeper;
use osq_value::NoMemory;
use serde_json::Value as Json;
use sqlite::{Connection, MemStore};
use std::alloc::Global;

/// The most events whose numbers are told.
const MOST: usize = 10;

type Kept = ConnectionKeeper<MemStore>;

fn push_error(text: &mut String, error: KeeperError) -> Result<(), NoMemory> {
    match error {
        KeeperError::Fault => Ok(text.push_str("Fault\n")?),
        KeeperError::NoMemory => Err(NoMemory),
    }
}

fn push_sealed(text: &mut String, answer: Result<(), KeeperError>) -> Result<(), NoMemory> {
    match answer {
        Ok(()) => Ok(text.push_str("sealed\n")?),
        Err(error) => push_error(text, error),
    }
}

/// All values of a list.
fn all_of_list(alloc: Global, entries: &[Entry]) -> Result<String, NoMemory> {
    let restored = summary_of(alloc, entries)?;
    let mut all = String::new(alloc);
    push_all(&mut all, &restored)?;
    Ok(all)
}

/// Tells what is loaded, and whether it is what the list has.
fn push_loaded(
    alloc: Global,
    text: &mut String,
    keeper: &mut Kept,
    entries: &[Entry],
) -> Result<(), NoMemory> {
    let restored = match keeper.load(alloc) {
        Ok(restored) => restored,
        Err(error) => return push_error(text, error),
    };
    let mut all = String::new(alloc);
    push_all(&mut all, &restored)?;
    if all.as_str() != all_of_list(alloc, entries)?.as_str() {
        return Ok(writeln!(text, "not what the list has:\n{all}")?);
    }
    let events = restored.live.len();
    if events > MOST {
        Ok(writeln!(text, "{events} events")?)
    } else {
        push_restored(text, &restored)
    }
}

/// Seals the entries of an item behind those before, and adds them to these.
fn push_seal(
    alloc: Global,
    text: &mut String,
    keeper: &mut Kept,
    list: &mut EntryList,
    words: &str,
) -> Result<(), NoMemory> {
    let Some(entries) = entries_behind(alloc, list.len() as u64, words)? else {
        return Ok(text.push_str("no such entry\n")?);
    };
    push_sealed(text, keeper.seal(alloc, &entries))?;
    list.append(entries)
}

fn keeper_of(alloc: Global) -> Result<Kept, NoMemory> {
    Ok(ConnectionKeeper::adopt(Connection::open_in_memory(alloc)?))
}

/// Seals the entries of a row's items one after another, and tells what is loaded then.
pub(crate) fn push_loads(alloc: Global, text: &mut String, row: &Json) -> Result<(), NoMemory> {
    let mut keeper = keeper_of(alloc)?;
    let mut list = EntryList::new(alloc);
    for item in items_of(row.get("seals")) {
        push_seal(
            alloc,
            text,
            &mut keeper,
            &mut list,
            item.as_str().unwrap_or(""),
        )?;
    }
    match row.get("then").and_then(Json::as_str) {
        Some(statements) => push_changed(alloc, text, keeper, statements),
        None => push_loaded(alloc, text, &mut keeper, list.as_slice()),
    }
}

/// Tells what is loaded behind statements that no seal makes.
fn push_changed(
    alloc: Global,
    text: &mut String,
    keeper: Kept,
    statements: &str,
) -> Result<(), NoMemory> {
    let mut conn = keeper.into_connection();
    if conn.execute_batch(statements).is_err() {
        return Ok(text.push_str("refused statements\n")?);
    }
    push_load(alloc, text, &mut ConnectionKeeper::adopt(conn))
}

/// The keeper over a database in which these statements were run; none where they are refused.
fn keeper_behind(alloc: Global, statements: &str) -> Result<Option<Kept>, NoMemory> {
    let mut conn = Connection::open_in_memory(alloc)?;
    match conn.execute_batch(statements) {
        Ok(()) => Ok(Some(ConnectionKeeper::adopt(conn))),
        Err(_) => Ok(None),
    }
}

/// Tells what a load and a seal answer behind these statements.
pub(crate) fn push_refusals(
    alloc: Global,
    text: &mut String,
    statements: &str,
) -> Result<(), NoMemory> {
    let Some(mut keeper) = keeper_behind(alloc, statements)? else {
        return Ok(text.push_str("refused statements\n")?);
    };
    push_load(alloc, text, &mut keeper)?;
    let entries = EntryList::new(alloc);
    push_sealed(text, keeper.seal(alloc, &entries))
}

fn push_load(alloc: Global, text: &mut String, keeper: &mut Kept) -> Result<(), NoMemory> {
    match keeper.load(alloc) {
        Ok(restored) => push_restored(text, &restored),
        Err(error) => push_error(text, error),
    }
}
