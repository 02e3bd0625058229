//! The JSON objects of rows.

ghost use Rattle.std.specs.Prelude.{◌≡◌, ◌++◌, flat_map, IfOk, OnOk};
ghost use Rattle.result_batches.specs.Json.{array, escaped, joined};
ghost use Rattle.result_batches.specs.Labels.{cell, cells, labelled, labelled_rows};
ghost use Rattle.result_batches.specs.Lines.{object, value_text};

use crate::escape::push_inside;
use crate::labels::{Labels, labels_of};
use itoa::Buffer;
use osq_value::{Bytes, NoMemory, Row, TextList, Value};
use std::alloc::Global;

/// Adds a value's text as it stands inside a JSON string.
fn push_value(line: &mut Bytes, value: &Value) -> Result<(), NoMemory>
    ensures { OnOk result (line.new ≡ line.old ++ flat_map escaped (value_text value.now)) }
{
    match value {
        Value::Null => Ok(()),
        Value::Int(number) => {
            let mut buffer = Buffer::new();
            push_inside(line, buffer.format(*number).as_bytes())
        }
        Value::Text(text) => push_inside(line, text.as_str().as_bytes()),
    }
}

/// Adds a column of a row, where it has a label.
fn push_cell(line: &mut Bytes, label: &Bytes, value: &Value) -> Result<(), NoMemory>
    ensures { OnOk result (line.new ≡ line.old ++ cell label.now value.now) }
{
    if label.as_slice().is_empty() {
        return Ok(());
    }
    line.extend(label.as_slice())?;
    push_value(line, value)?;
    line.extend(b"\"")
}

fn push_cells(line: &mut Bytes, labels: &Labels, row: &Row) -> Result<(), NoMemory>
    ensures { OnOk result (line.new ≡ line.old ++ cells labels.now row.now) }
{
    let count = labels.len().min(row.len());
    for at in 0..count {
        push_cell(line, &labels.as_slice()[at], &row.as_slice()[at])?;
    }
    Ok(())
}

/// Adds the object of a row.
pub fn push_object(line: &mut Bytes, labels: &Labels, row: &Row) -> Result<(), NoMemory>
    ensures { OnOk result (line.new ≡ line.old ++ labelled labels.now row.now) }
{
    line.extend(b"{")?;
    push_cells(line, labels, row)?;
    line.extend(b"}")
}

/// The object of one row: its columns in order, each value as a string and Null as the empty one. Of equal names the last
/// alone is written. The row is as wide as the names: a name or a value that has no partner isn't written.
pub fn row_object(alloc: Global, names: &TextList, row: &Row) -> Result<Bytes, NoMemory>
    ensures { IfOk result (λ text. text ≡ object names.now row.now) }
{
    let labels = labels_of(alloc, names)?;
    let mut text = Bytes::new(alloc);
    push_object(&mut text, &labels, row)?;
    Ok(text)
}

/// Adds the objects of rows, with a comma between any two.
fn push_objects(line: &mut Bytes, labels: &Labels, rows: &[Row]) -> Result<(), NoMemory>
    ensures { OnOk result (line.new ≡ line.old ++ joined (labelled_rows labels.now rows.now)) }
{
    let [first, rest @ ..] = rows else {
        return Ok(());
    };
    push_object(line, labels, first)?;
    for row in rest {
        line.extend(b",")?;
        push_object(line, labels, row)?;
    }
    Ok(())
}

/// Adds the array of the objects of rows.
pub fn push_array(line: &mut Bytes, labels: &Labels, rows: &[Row]) -> Result<(), NoMemory>
    ensures { OnOk result (line.new ≡ line.old ++ array (labelled_rows labels.now rows.now)) }
{
    line.extend(b"[")?;
    push_objects(line, labels, rows)?;
    line.extend(b"]")
}
