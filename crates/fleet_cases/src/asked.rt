//! What rows ask of a host.

use batch_frames::Frame;
use case_text::{member_text, push_rows};
use fleet_query::{Fleet, derived_of, rows_of_fleet};
use osq_value::{Affinity, NoMemory, RowList};
use serde_json::Value as Json;
use sql_query::derived::Derived;
use sql_query::query::{Query, SourceColumn};
use sql_texts::text::{TextError, query_with};
use std::alloc::Global;

/// Adds rows, a line each.
fn push_lines(text: &mut String, rows: &RowList) -> Result<(), NoMemory> {
    push_rows(text, rows)?;
    Ok(text.push_str("\n")?)
}

/// Adds the rows of a query over a host's frames.
fn push_found(
    alloc: Global,
    text: &mut String,
    frames: &[Frame],
    query: &Query,
) -> Result<(), NoMemory> {
    let rows = rows_of_fleet(alloc, frames, query)?;
    push_lines(text, &rows)
}

/// Adds why a text has no query.
fn push_fault(text: &mut String, error: TextError) -> Result<(), NoMemory> {
    match error {
        TextError::NoMemory => Err(NoMemory),
        _ => Ok(writeln!(text, "place {} {}", error.place(), error.name())?),
    }
}

/// Adds the rows of a text over a host's frames, or why it has no query.
fn push_meant(
    alloc: Global,
    text: &mut String,
    frames: &[Frame],
    asked: &str,
) -> Result<(), NoMemory> {
    let derived = derived_of(alloc, frames)?;
    match query_with(alloc, asked, derived.as_slice()) {
        Ok(query) => push_found(alloc, text, frames, &query),
        Err(error) => push_fault(text, error),
    }
}

/// Adds the name of a column and its affinity.
fn push_column(text: &mut String, column: &SourceColumn) -> Result<(), NoMemory> {
    let affinity = match column.affinity {
        None => "any",
        Some(Affinity::Integer) => "integer",
        Some(Affinity::Text) => "text",
    };
    Ok(write!(text, " {}:{affinity}", column.name)?)
}

fn push_columns(text: &mut String, table: &Derived) -> Result<(), NoMemory> {
    for column in table.columns.as_slice() {
        push_column(text, column)?;
    }
    Ok(text.push_str("\n")?)
}

/// Adds the columns of the tables of this name.
fn push_table(text: &mut String, derived: &[Derived], name: &str) -> Result<(), NoMemory> {
    for table in derived {
        if table.name.as_str() == name {
            push_columns(text, table)?;
        }
    }
    Ok(())
}

/// Adds the names of tables, with the number of their columns.
fn push_tables(text: &mut String, derived: &[Derived]) -> Result<(), NoMemory> {
    for table in derived {
        let (name, width) = (table.name.as_str(), table.columns.len());
        write!(text, " '{name}':{width}")?;
    }
    Ok(text.push_str("\n")?)
}

/// Adds what a row asks of the derived tables of a host.
fn push_shown(
    alloc: Global,
    text: &mut String,
    frames: &[Frame],
    row: &Json,
) -> Result<(), NoMemory> {
    let derived = derived_of(alloc, frames)?;
    if row.get("table").is_some() {
        push_table(text, derived.as_slice(), member_text(row, "table"))
    } else {
        push_tables(text, derived.as_slice())
    }
}

/// Adds what a row asks of a host.
pub(crate) fn push_answer(
    alloc: Global,
    text: &mut String,
    fleet: &Fleet,
    row: &Json,
) -> Result<(), NoMemory> {
    let frames = fleet.frames(member_text(row, "host"));
    if row.get("text").is_some() {
        push_meant(alloc, text, frames, member_text(row, "text"))
    } else {
        push_shown(alloc, text, frames, row)
    }
}
