//! The rows of the tables of a host's frames.

ghost use Rattle.std.specs.Prelude.{◌≡◌, ◌++◌, IfOk, OnOk, flat_map, map, pos};
ghost use Rattle.osq_value.specs.declared.value.Value.TheVariants.{Int};
ghost use Rattle.result_batches.specs.Frames.{mode_text};
ghost use Rattle.fleet_query.specs.Tables.{batch_row, cell, cells, cells_of, is_like, numbered, number, query_rows, rows_at, shown_lasts};

use batch_frames::Frame;
use osq_value::{Copied, NoMemory, Row, RowList, Str, Value};
use pack_rules::schedule::Mode;
use std::alloc::Global;

/// The rows of the table at a place among a host's tables, from 0, where these are the last frames of the queries that have a table.
#[tactic(auto, unfolding(crate::specs::Tables::rows_at))]
pub(crate) fn rows_at(
    alloc: Global,
    frames: &[Frame],
    lasts: &[&Frame],
    place: usize,
) -> Result<RowList, NoMemory>
    requires { map (λ last. last.now) lasts.now ≡ shown_lasts frames.now }
    ensures { IfOk result (λ rows. rows ≡ rows_at frames.now place) }
{
    match place {
        0 => batch_rows(alloc, frames),
        1 => cell_rows(alloc, frames),
        _ => match lasts.get(place - 2) {
            Some(last) => query_rows(alloc, frames, last),
            None => Ok(RowList::new(alloc)),
        },
    }
}

/// A row for each frame.
fn batch_rows(alloc: Global, frames: &[Frame]) -> Result<RowList, NoMemory>
    ensures { IfOk result (λ rows. rows ≡ map batch_row frames.now) }
{
    let mut rows = RowList::with_capacity(alloc, frames.len())?;
    for frame in frames {
        rows.push(batch_row(alloc, frame)?)?;
    }
    Ok(rows)
}

fn batch_row(alloc: Global, frame: &Frame) -> Result<Row, NoMemory>
    ensures { IfOk result (λ row. row ≡ batch_row frame.now) }
{
    let batch = &frame.batch;
    let mut row = Row::with_capacity(alloc, 7)?;
    row.push(number(batch.number)?)?;
    row.push(Value::Text(batch.query.name.copy(alloc)?))?;
    row.push(Value::Text(Str::of(alloc, mode_text(batch.query.mode))?))?;
    row.push(number(batch.lo)?)?;
    row.push(number(batch.hi)?)?;
    row.push(number(batch.moment)?)?;
    row.push(number(batch.rows.len() as u64)?)?;
    Ok(row)
}

fn mode_text(mode: Mode) -> &'static str
    ensures { result.now ≡ mode_text mode }
{
    match mode {
        Mode::Evented => "evented",
        Mode::Snapshot => "snapshot",
    }
}

/// A number as a value. Those of a valid frame are below 2^63; a greater one is want of memory.
fn number(number: u64) -> Result<Value, NoMemory>
    ensures { IfOk result (λ value. value ≡ Int (pos number)) }
{
    match i64::try_from(number) {
        Ok(number) => Ok(Value::Int(number)),
        Err(_) => Err(NoMemory),
    }
}

/// A row for each value of each frame.
fn cell_rows(alloc: Global, frames: &[Frame]) -> Result<RowList, NoMemory>
    ensures { IfOk result (λ rows. rows ≡ flat_map cells_of frames.now) }
{
    let mut rows = RowList::new(alloc);
    for frame in frames {
        rows.append(cells_of(alloc, frame)?)?;
    }
    Ok(rows)
}

/// A row for each value of a frame.
fn cells_of(alloc: Global, frame: &Frame) -> Result<RowList, NoMemory>
    ensures { IfOk result (λ rows. rows ≡ cells_of frame.now) }
{
    let mut rows = RowList::new(alloc);
    let held = frame.batch.rows.as_slice();
    for (place, row) in held.iter().enumerate() {
        push_cells(alloc, &mut rows, frame, place as u64, row)?;
    }
    Ok(rows)
}

/// Adds a row for each value of a frame's row of that number.
fn push_cells(
    alloc: Global,
    rows: &mut RowList,
    frame: &Frame,
    place: u64,
    row: &Row,
) -> Result<(), NoMemory>
    ensures { OnOk result (rows.new ≡ rows.old ++ cells frame.now place row.now) }
{
    let names = frame.names.as_slice();
    let values = row.as_slice();
    for at in 0..names.len().min(values.len()) {
        rows.push(cell(alloc, frame, place, &names[at], &values[at])?)?;
    }
    Ok(())
}

/// The row of a value.
fn cell(
    alloc: Global,
    frame: &Frame,
    place: u64,
    name: &Str,
    value: &Value,
) -> Result<Row, NoMemory>
    ensures { IfOk result (λ row. row ≡ cell frame.now place (name.now, value.now)) }
{
    let mut row = Row::with_capacity(alloc, 5)?;
    row.push(number(frame.batch.number)?)?;
    row.push(Value::Text(frame.batch.query.name.copy(alloc)?))?;
    row.push(number(place)?)?;
    row.push(Value::Text(name.copy(alloc)?))?;
    row.push(value.copy(alloc)?)?;
    Ok(row)
}

/// The rows of a query's table, by the query's last frame.
fn query_rows(alloc: Global, frames: &[Frame], last: &Frame) -> Result<RowList, NoMemory>
    ensures { IfOk result (λ rows. rows ≡ query_rows frames.now last.now) }
{
    let mut rows = RowList::new(alloc);
    for frame in frames {
        if is_like(last, frame) {
            push_numbered(alloc, &mut rows, frame)?;
        }
    }
    Ok(rows)
}

/// Whether a frame is one of the last one's query, with exactly its names. An earlier text of the query may have had others.
fn is_like(last: &Frame, frame: &Frame) -> bool
    ensures { result ≡ is_like last.now frame.now }
{
    frame.batch.query.name.is(&last.batch.query.name) && frame.names == last.names
}

/// Adds the rows of a frame, each behind the frame's number and moment.
fn push_numbered(alloc: Global, rows: &mut RowList, frame: &Frame) -> Result<(), NoMemory>
    ensures { OnOk result (rows.new ≡ rows.old ++ map (numbered frame.now) frame.now.batch.rows) }
{
    let held = frame.batch.rows.as_slice();
    for row in held {
        rows.push(numbered(alloc, frame, row)?)?;
    }
    Ok(())
}

fn numbered(alloc: Global, frame: &Frame, row: &Row) -> Result<Row, NoMemory>
    ensures { IfOk result (λ made. made ≡ numbered frame.now row.now) }
{
    let mut made = Row::with_capacity(alloc, row.len().saturating_add(2))?;
    made.push(number(frame.batch.number)?)?;
    made.push(number(frame.batch.moment)?)?;
    push_values(alloc, &mut made, row.as_slice())?;
    Ok(made)
}

fn push_values(alloc: Global, row: &mut Row, values: &[Value]) -> Result<(), NoMemory>
    ensures { OnOk result (row.new ≡ row.old ++ values.now) }
{
    for value in values {
        row.push(value.copy(alloc)?)?;
    }
    Ok(())
}
