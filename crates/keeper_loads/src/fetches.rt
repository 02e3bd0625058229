//! Batches that are fetched from a database over disks in memory.

use batch_keeper::{Keeper, KeeperError, MemoryKeeper};
use case_lists::{entries_behind, entries_of};
use case_text::{fails_of, items_of, member_text, push_rows};
use entry_model::entry::{Batch, EntryList};
use keeper_sqlite::ConnectionKeeper;
use osq_outside::fails::FailList;
use osq_value::NoMemory;
use pack_rules::schedule::Mode;
use serde_json::Value as Json;
use sqlite::{Connection, FileStore, Files, Options};
use sqlite_disk::Memory;
use std::alloc::Global;

/// The most rows that are told.
const MOST: usize = 3;

type Disks = Files<Memory>;

type Kept = ConnectionKeeper<FileStore<Memory>>;

/// The keeper over these disks; none where they are refused.
fn open(alloc: Global, disks: Disks) -> Option<Kept> {
    if !disks.may_be_used() {
        return None;
    }
    match Connection::open_files(alloc, disks, Options::new(1)) {
        Ok(conn) => Some(ConnectionKeeper::adopt(conn)),
        Err(_) => None,
    }
}

/// The keeper over the disks of this one, which is closed, with these statements run before.
fn restarted(alloc: Global, keeper: Kept, statements: &str) -> Option<Kept> {
    let mut conn = keeper.into_connection();
    if conn.execute_batch(statements).is_err() {
        return None;
    }
    open(alloc, conn.into_store().close())
}

/// All of a batch but its rows.
fn push_head(text: &mut String, batch: &Batch) -> Result<(), NoMemory> {
    let mode = match batch.query.mode {
        Mode::Evented => "evented",
        Mode::Snapshot => "snapshot",
    };
    let (name, query) = (batch.query.name.as_str(), batch.query.text.as_str());
    write!(text, "{} of {name} {mode} {query} ", batch.number)?;
    write!(text, "lo {} hi {} ", batch.lo, batch.hi)?;
    write!(text, "cut {} at {} ", batch.cut, batch.moment)?;
    Ok(write!(text, "rows {}", batch.rows.len())?)
}

/// What is answered, with the rows of a batch where there are few of them or all are wanted.
fn text_of(
    alloc: Global,
    answer: &Result<Option<Batch>, KeeperError>,
    most: usize,
) -> Result<String, NoMemory> {
    let mut text = String::new(alloc);
    match answer {
        Ok(Some(batch)) => {
            push_head(&mut text, batch)?;
            if batch.rows.len() <= most {
                push_rows(&mut text, &batch.rows)?;
            }
        }
        Ok(None) => text.push_str("none")?,
        Err(KeeperError::Fault) => text.push_str("Fault")?,
        Err(KeeperError::NoMemory) => return Err(NoMemory),
    }
    Ok(text)
}

/// Tells what is fetched by this number, and whether it is what the list in memory has.
fn push_fetch(
    alloc: Global,
    text: &mut String,
    keeper: &mut Kept,
    memory: &mut MemoryKeeper,
    number: u64,
) -> Result<(), NoMemory> {
    let kept = keeper.fetch(alloc, number);
    let listed = memory.fetch(alloc, number);
    let all = text_of(alloc, &kept, usize::MAX)?;
    let wanted = text_of(alloc, &listed, usize::MAX)?;
    let told = text_of(alloc, &kept, MOST)?;
    if all.as_str() == wanted.as_str() {
        Ok(writeln!(text, "{number}: {told}")?)
    } else {
        Ok(writeln!(text, "{number}: {told}, which the list has not")?)
    }
}

fn push_each(
    alloc: Global,
    text: &mut String,
    keeper: &mut Kept,
    memory: &mut MemoryKeeper,
    row: &Json,
) -> Result<(), NoMemory> {
    for number in items_of(row.get("fetch")).iter().filter_map(Json::as_u64) {
        push_fetch(alloc, text, keeper, memory, number)?;
    }
    Ok(())
}

/// Seals the entries of a row's items one after another, and answers them; none where a word is none of an entry, or a seal is refused.
fn sealed(alloc: Global, keeper: &mut Kept, row: &Json) -> Result<Option<EntryList>, NoMemory> {
    let mut list = EntryList::new(alloc);
    for item in items_of(row.get("seals")) {
        let words = item.as_str().unwrap_or("");
        let Some(entries) = entries_behind(alloc, list.len() as u64, words)? else {
            return Ok(None);
        };
        if keeper.seal(alloc, &entries).is_err() {
            return Ok(None);
        }
        list.append(entries)?;
    }
    Ok(Some(list))
}

/// Tells what is fetched before a restart and behind it.
pub(crate) fn push_fetches(alloc: Global, text: &mut String, row: &Json) -> Result<(), NoMemory> {
    let disks = Files {
        log: Memory::new(alloc),
        db: Memory::new(alloc),
    };
    let Some(mut keeper) = open(alloc, disks) else {
        return Ok(text.push_str("no database\n")?);
    };
    let Some(list) = sealed(alloc, &mut keeper, row)? else {
        return Ok(text.push_str("not sealed\n")?);
    };
    let mut memory = MemoryKeeper::new(list, FailList::new(alloc), true);
    push_each(alloc, text, &mut keeper, &mut memory, row)?;
    let then = row.get("then").and_then(Json::as_str).unwrap_or("");
    let Some(mut keeper) = restarted(alloc, keeper, then) else {
        return Ok(text.push_str("refused statements\n")?);
    };
    text.push_str("restarted\n")?;
    push_each(alloc, text, &mut keeper, &mut memory, row)
}

/// Tells what a keeper in memory with failing calls answers.
pub(crate) fn push_failing(alloc: Global, text: &mut String, row: &Json) -> Result<(), NoMemory> {
    let Some(list) = entries_of(alloc, member_text(row, "memory"))? else {
        return Ok(text.push_str("no such entry\n")?);
    };
    let mut memory = MemoryKeeper::new(list, fails_of(alloc, row.get("fails"))?, true);
    for number in items_of(row.get("fetch")).iter().filter_map(Json::as_u64) {
        let answer = memory.fetch(alloc, number);
        let told = text_of(alloc, &answer, MOST)?;
        writeln!(text, "{number}: {told}")?;
    }
    Ok(())
}
