//! The batches and answers of a row.

use case_text::{bytes_of, items_of};
use entry_model::entry::{Batch, Entry, EntryList};
use osq_value::{Bytes, NoMemory, Row, RowList, Sequence, Str, Value};
use pack_rules::schedule::{Mode, QueryKey};
use serde_json::Value as Json;
use std::alloc::Global;

/// The text of a batch where none is told.
const TEXT: &str = "SELECT username FROM users";

/// One row with one value.
fn one_row(alloc: Global) -> Result<RowList, NoMemory> {
    let mut row = Row::new(alloc);
    row.push(Value::Text(Str::of(alloc, "root")?))?;
    let mut rows = RowList::new(alloc);
    rows.push(row)?;
    Ok(rows)
}

/// The batch of this number, which answers a text with one row.
fn committed(alloc: Global, number: u64, text: &str) -> Result<Entry, NoMemory> {
    let query = QueryKey::read(Str::of(alloc, "u")?, Str::of(alloc, text)?, Mode::Evented);
    let batch = Batch {
        number,
        query,
        lo: 0,
        hi: 0,
        cut: 0,
        moment: 1000,
        rows: one_row(alloc)?,
    };
    Ok(Entry::Committed { batch })
}

/// The batches of a row, and then its mark, where it has one.
pub(crate) fn entries_of(alloc: Global, row: &Json) -> Result<EntryList, NoMemory> {
    let mut entries = EntryList::new(alloc);
    let mut number = 0u64;
    for text in items_of(row.get("texts")).iter().filter_map(Json::as_str) {
        number = number.saturating_add(1);
        entries.push(committed(alloc, number, text)?)?;
    }
    for at in 0..row.get("batches").and_then(Json::as_u64).unwrap_or(0) {
        entries.push(committed(alloc, at + 1, TEXT)?)?;
    }
    if let Some(upto) = row.get("acked").and_then(Json::as_u64) {
        entries.push(Entry::Acked { upto })?;
    }
    Ok(entries)
}

/// The answers that wait.
pub(crate) fn answers_of(alloc: Global, row: &Json) -> Result<Sequence<Bytes>, NoMemory> {
    let mut answers = Sequence::new(alloc);
    for answer in items_of(row.get("answers")) {
        answers.push(bytes_of(alloc, answer)?)?;
    }
    Ok(answers)
}
