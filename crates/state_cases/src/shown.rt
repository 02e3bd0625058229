//! Answers as text.

use crate::line::table_of;
use case_text::{push_row, push_rows};
use osq_value::catalogue::table_desc;
use osq_value::{NoMemory, RowList, TableId, Tables};
use serde_json::Value as Json;

/// Adds a blank and these words.
pub(crate) fn tell(text: &mut String, words: &str) -> Result<(), NoMemory> {
    text.push_str(" ")?;
    Ok(text.push_str(words)?)
}

/// Adds these words and a number behind them. Numbers are shown here alone, since each place that shows one is proved anew.
pub(crate) fn push_number(text: &mut String, words: &str, number: u64) -> Result<(), NoMemory> {
    text.push_str(words)?;
    Ok(write!(text, "{number}")?)
}

pub(crate) fn yes_or_no(holds: bool) -> &'static str {
    if holds { "yes" } else { "no" }
}

/// Adds a number, or that there is none.
pub(crate) fn push_number_or_none(text: &mut String, number: Option<u64>) -> Result<(), NoMemory> {
    match number {
        Some(number) => push_number(text, " ", number),
        None => tell(text, "none"),
    }
}

/// Adds the numbers of the last event before and after.
pub(crate) fn push_numbers(text: &mut String, before: u64, after: u64) -> Result<(), NoMemory> {
    push_number(text, " ", before)?;
    push_number(text, " to ", after)
}

pub(crate) fn table_name(table: TableId) -> &'static str {
    match table_desc(table) {
        Some(found) => found.name,
        None => "no table",
    }
}

/// Adds the rows, or that there are none.
pub(crate) fn push_rows_or_none(text: &mut String, rows: &RowList) -> Result<(), NoMemory> {
    if rows.len() == 0 {
        tell(text, "no rows")
    } else {
        push_rows(text, rows)
    }
}

/// Adds the name of a table, how many rows it has, and these.
fn push_table<V: Tables>(text: &mut String, view: &V, table: TableId) -> Result<(), NoMemory> {
    tell(text, table_name(table))?;
    push_number(text, " ", view.count(table) as u64)?;
    for at in 0..view.count(table) {
        if let Some(row) = view.row(table, at) {
            push_row(text, row)?;
        }
    }
    Ok(())
}

/// Adds these tables with their rows.
pub(crate) fn push_tables<V: Tables>(
    text: &mut String,
    view: &V,
    tables: &[Json],
) -> Result<(), NoMemory> {
    for table in tables {
        push_table(text, view, table_of(Some(table)))?;
    }
    Ok(())
}
