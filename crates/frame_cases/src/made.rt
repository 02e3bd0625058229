//! Frames: the first batch of the query `u`, and what a row changes of it.

use batch_frames::Frame;
use case_text::{items_of, member_text, rows_of};
use entry_model::entry::Batch;
use osq_value::{NoMemory, Row, RowList, Str, TextList, Value};
use pack_rules::schedule::{Mode, QueryKey};
use serde_json::Value as Json;
use std::alloc::Global;

/// The text of the query `u`, where a row gives no other.
const QUERY: &str = "SELECT username FROM users";

/// The name of the one column.
fn one_name(alloc: Global) -> Result<TextList, NoMemory> {
    let mut names = TextList::new(alloc);
    names.push(Str::of(alloc, "username")?)?;
    Ok(names)
}

/// The row of one value.
fn one_value(alloc: Global, text: &str) -> Result<Row, NoMemory> {
    let mut row = Row::new(alloc);
    row.push(Value::Text(Str::of(alloc, text)?))?;
    Ok(row)
}

/// One row with one value.
fn one_row(alloc: Global, text: &str) -> Result<RowList, NoMemory> {
    let mut rows = RowList::new(alloc);
    rows.push(one_value(alloc, text)?)?;
    Ok(rows)
}

/// The query `u` with a text.
fn query_of(alloc: Global, text: &str, mode: Mode) -> Result<QueryKey, NoMemory> {
    let name = Str::of(alloc, "u")?;
    Ok(QueryKey::read(name, Str::of(alloc, text)?, mode))
}

/// The frame of a host's batch of this number, with one row of one value.
pub(crate) fn frame_of(
    alloc: Global,
    host: &str,
    number: u64,
    value: &str,
) -> Result<Frame, NoMemory> {
    let host = Str::of(alloc, host)?;
    let names = one_name(alloc)?;
    let rows = one_row(alloc, value)?;
    let query = query_of(alloc, QUERY, Mode::Evented)?;
    let batch = Batch {
        number,
        query,
        lo: 0,
        hi: 2,
        cut: 4,
        moment: 1000,
        rows,
    };
    Ok(Frame { host, batch, names })
}

/// Gives a number of a frame the value of the row's member, if it has one.
fn set_number(number: &mut u64, row: &Json, name: &str) {
    if let Some(given) = row.get(name).and_then(Json::as_u64) {
        *number = given;
    }
}

fn set_numbers(batch: &mut Batch, row: &Json) {
    set_number(&mut batch.number, row, "number");
    set_number(&mut batch.lo, row, "lo");
    set_number(&mut batch.hi, row, "hi");
    set_number(&mut batch.cut, row, "cut");
    set_number(&mut batch.moment, row, "moment");
}

/// The mode that a row names.
fn mode_of(row: &Json) -> Mode {
    match member_text(row, "mode") {
        "snapshot" => Mode::Snapshot,
        _ => Mode::Evented,
    }
}

fn set_query(alloc: Global, query: &mut QueryKey, row: &Json) -> Result<(), NoMemory> {
    let text = row.get("text").and_then(Json::as_str).unwrap_or(QUERY);
    *query = query_of(alloc, text, mode_of(row))?;
    Ok(())
}

fn set_rows(alloc: Global, rows: &mut RowList, row: &Json) -> Result<(), NoMemory> {
    if let Some(given) = row.get("rows") {
        *rows = rows_of(alloc, items_of(Some(given)))?;
    }
    Ok(())
}

/// The names of an array.
fn names_of(alloc: Global, items: &[Json]) -> Result<TextList, NoMemory> {
    let mut names = TextList::new(alloc);
    for name in items.iter().filter_map(Json::as_str) {
        names.push(Str::of(alloc, name)?)?;
    }
    Ok(names)
}

fn set_names(alloc: Global, names: &mut TextList, row: &Json) -> Result<(), NoMemory> {
    if let Some(given) = row.get("names") {
        *names = names_of(alloc, items_of(Some(given)))?;
    }
    Ok(())
}

/// Gives a frame what the row has of it beside the host.
pub(crate) fn set_members(alloc: Global, frame: &mut Frame, row: &Json) -> Result<(), NoMemory> {
    set_numbers(&mut frame.batch, row);
    set_query(alloc, &mut frame.batch.query, row)?;
    set_rows(alloc, &mut frame.batch.rows, row)?;
    set_names(alloc, &mut frame.names, row)
}
