ghost use Rattle.std.specs.Prelude.{◌≡◌, IfOk, Some, codes, map, option_and_then, option_map};
ghost use Rattle.serde_json.specs.Find.{as_integer, as_number, get};
ghost use Rattle.serde_json.specs.View.{view};
ghost use Rattle.osq_value.specs.Catalogue.{columns_of};
ghost use Rattle.std.specs.Fmt.{signed_decimal};
ghost use Rattle.change_records.specs.Changes.{text_at};
ghost use Rattle.change_records.specs.Reads.{Reads, ReadsLine};
ghost use Rattle.change_records.specs.Rows.{all_there, cell_of, integer_cell, recorded_named, row_of, rows_of, spelled_cell, table_of, text_cell};

use crate::error::JsonLineError;
use crate::field::text_at;
use osq_value::catalogue::columns;
use osq_value::{
    Affinity, ColumnDesc, NoMemory, Reading, Row, RowList, Str, TableId, TableKind, Value,
    int_spelling, table_of,
};
use serde_json::Value as Json;
use std::alloc::Global;

/// Reads a table line: one JSON object with `table`, the name of a recorded table, and `rows`, an array of objects. Each row has the
/// table's columns; a column that its object lacks is Null, and a key that is no column is ignored. In a column of whole numbers a text
/// that spells one is that number, the empty text is Null, and any other text stays; in a column of texts a whole number is its decimal
/// text. BadLine exactly where the text isn't in this form. `taken` is 0.
pub fn read_table(alloc: Global, text: &[u8]) -> Result<Reading, JsonLineError>
    ensures { ReadsLine table_of text.now result }
{
    let line = Json::from_slice(alloc, text)?;
    reading(alloc, &line)
}

#[tactic(auto, unfolding(crate::specs::Rows::table_of))]
fn reading(alloc: Global, line: &Json) -> Result<Reading, JsonLineError>
    ensures { Reads (table_of (view line.now)) result }
{
    let table = named(line).ok_or(JsonLineError::BadLine)?;
    let rows = rows(alloc, table, line)?;
    Ok(Reading::Table {
        taken: 0,
        table,
        rows,
    })
}

/// The recorded table that a line names.
fn named(line: &Json) -> Option<TableId>
    ensures { option_map (λ table. table.0) result ≡ option_and_then recorded_named (text_at (codes "table") (view line.now)) }
{
    recorded(text_at(line, "table")?)
}

fn recorded(name: &str) -> Option<TableId>
    ensures { option_map (λ table. table.0) result ≡ recorded_named name.now }
{
    let found = table_of(name)?;
    if found.name == name && found.kind == TableKind::Recorded {
        Some(found.id)
    } else {
        None
    }
}

fn rows(alloc: Global, table: TableId, line: &Json) -> Result<RowList, JsonLineError>
    ensures { Reads (rows_of (columns_of table.0) (view line.now)) result }
{
    let items = line
        .get("rows")
        .ok_or(JsonLineError::BadLine)?
        .as_array()
        .ok_or(JsonLineError::BadLine)?;
    all_rows(alloc, table, items.as_slice())
}

fn all_rows(alloc: Global, table: TableId, items: &[Json]) -> Result<RowList, JsonLineError>
    ensures { Reads (all_there (map (λ item. row_of (columns_of table.0) (view item)) items.now)) result }
{
    let mut rows = RowList::new(alloc);
    for item in items {
        rows.push(row(alloc, table, item)?)?;
    }
    Ok(rows)
}

fn row(alloc: Global, table: TableId, item: &Json) -> Result<Row, JsonLineError>
    ensures { Reads (row_of (columns_of table.0) (view item.now)) result }
{
    if item.is_object() {
        cells(alloc, columns(table), item)
    } else {
        Err(JsonLineError::BadLine)
    }
}

fn cells(alloc: Global, columns: &[ColumnDesc], item: &Json) -> Result<Row, JsonLineError>
    ensures { Reads (all_there (map (λ desc. cell_of desc.affinity (get desc.name.now (view item.now))) columns.now)) result }
{
    let mut cells = Row::new(alloc);
    for column in columns {
        cells.push(cell(alloc, column, item)?)?;
    }
    Ok(cells.shared(alloc)?)
}

fn cell(alloc: Global, column: &ColumnDesc, item: &Json) -> Result<Value, JsonLineError>
    ensures { Reads (cell_of column.now.affinity (get column.now.name.now (view item.now))) result }
{
    match item.get(column.name) {
        None => Ok(Value::Null),
        Some(value) => match column.affinity {
            Affinity::Integer => integer_cell(alloc, value),
            Affinity::Text => text_cell(alloc, value),
        },
    }
}

fn integer_cell(alloc: Global, value: &Json) -> Result<Value, JsonLineError>
    ensures { Reads (integer_cell (Some (view value.now))) result }
{
    if value.is_null() {
        return Ok(Value::Null);
    }
    match value.as_str() {
        Some(text) => Ok(spelled(alloc, text)?),
        None => value.as_i64().map(Value::Int).ok_or(JsonLineError::BadLine),
    }
}

/// A text in a column of whole numbers.
fn spelled(alloc: Global, text: &str) -> Result<Value, NoMemory>
    ensures { IfOk result (λ value. value ≡ spelled_cell text.now) }
{
    if text.is_empty() {
        return Ok(Value::Null);
    }
    match int_spelling(text.as_bytes()) {
        Some(number) => Ok(Value::Int(number)),
        None => Ok(Value::Text(Str::of(alloc, text)?)),
    }
}

fn text_cell(alloc: Global, value: &Json) -> Result<Value, JsonLineError>
    ensures { Reads (text_cell (Some (view value.now))) result }
{
    if value.is_null() {
        return Ok(Value::Null);
    }
    match value.as_str() {
        Some(text) => Ok(Value::Text(Str::of(alloc, text)?)),
        None => Ok(Value::Text(decimal(alloc, value)?)),
    }
}

/// The decimal text of a whole number.
fn decimal(alloc: Global, value: &Json) -> Result<Str, JsonLineError>
    ensures { Reads (option_map signed_decimal (option_and_then as_integer (as_number (view value.now)))) result }
{
    if let Some(number) = value.as_u64() {
        return Ok(Str::from_string(number.to_string(alloc)?));
    }
    let number = value.as_i64().ok_or(JsonLineError::BadLine)?;
    Ok(Str::from_string(number.to_string(alloc)?))
}
