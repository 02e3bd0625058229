//! Values and rows as text.

use osq_value::{NoMemory, Row, RowList, Value};

/// Adds a blank and the value: a dash for Null, a number, or a text in single quotes.
pub fn push_value(text: &mut String, value: &Value) -> Result<(), NoMemory> {
    match value {
        Value::Null => text.push_str(" -")?,
        Value::Int(number) => write!(text, " {number}")?,
        Value::Text(part) => write!(text, " '{part}'")?,
    }
    Ok(())
}

/// Adds values in brackets.
pub fn push_values(text: &mut String, values: &[Value]) -> Result<(), NoMemory> {
    text.push_str("[")?;
    for value in values {
        push_value(text, value)?;
    }
    text.push_str(" ]")?;
    Ok(())
}

/// Adds the values of a row in brackets.
pub fn push_row(text: &mut String, row: &Row) -> Result<(), NoMemory> {
    push_values(text, row.as_slice())
}

/// Adds a blank and a row in brackets for each row.
pub fn push_rows(text: &mut String, rows: &RowList) -> Result<(), NoMemory> {
    for row in rows.as_slice() {
        text.push_str(" ")?;
        push_row(text, row)?;
    }
    Ok(())
}
