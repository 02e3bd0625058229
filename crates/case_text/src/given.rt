//! Values and rows that a line of JSON gives.

use osq_value::{NoMemory, Row, RowList, Str, Value};
use serde_json::Value as Json;
use std::alloc::Global;

/// The items of an array, and none of anything else.
pub fn items_of(value: Option<&Json>) -> &[Json] {
    match value.and_then(Json::as_array) {
        Some(items) => items.as_slice(),
        None => &[],
    }
}

/// The text of the member of this name; the empty text where it has none.
pub fn member_text<'a>(item: &'a Json, name: &str) -> &'a str {
    match item.get(name).and_then(Json::as_str) {
        Some(text) => text,
        None => "",
    }
}

/// A whole number of 64 bits as Int, a text as Text, and anything else as Null.
pub fn value_of(alloc: Global, item: &Json) -> Result<Value, NoMemory> {
    if let Some(number) = item.as_i64() {
        return Ok(Value::Int(number));
    }
    match item.as_str() {
        Some(text) => Ok(Value::Text(Str::of(alloc, text)?)),
        None => Ok(Value::Null),
    }
}

/// The values of an array.
pub fn values_of(alloc: Global, item: &Json) -> Result<Vec<Value>, NoMemory> {
    let mut values = Vec::new(alloc);
    for value in items_of(Some(item)) {
        values.push(value_of(alloc, value)?)?;
    }
    Ok(values)
}

/// The row of an array of values.
pub fn row_of(alloc: Global, item: &Json) -> Result<Row, NoMemory> {
    Ok(Row::from_vec(values_of(alloc, item)?))
}

/// The rows of arrays of values.
pub fn rows_of(alloc: Global, items: &[Json]) -> Result<RowList, NoMemory> {
    let mut rows = RowList::new(alloc);
    for item in items {
        rows.push(row_of(alloc, item)?)?;
    }
    Ok(rows)
}
