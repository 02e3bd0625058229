//! Lines of changes and of tables, and patterns of paths.

use crate::given::Given;
use crate::readings::push_maybe_event;
use case_text::{member_text, push_rows, push_value, push_values};
use change_records::{Change, JsonLineError, change_event, path_matches, read_change, read_table};
use json::Scratch;
use osq_value::{CategoryList, NoMemory, Reading, RowList, TableId};
use serde_json::Value as Json;
use std::alloc::Global;

/// Says that a line is refused, or that memory is wanting.
fn push_refused(text: &mut String, error: JsonLineError) -> Result<(), NoMemory> {
    match error {
        JsonLineError::BadLine => Ok(text.push_str("  refused\n")?),
        JsonLineError::NoMemory => Err(NoMemory),
    }
}

/// Adds a blank, and a text in single quotes.
fn push_quoted(text: &mut String, part: &str) -> Result<(), NoMemory> {
    text.push_str(" '")?;
    text.push_str(part)?;
    Ok(text.push_str("'")?)
}

/// Adds the numbers of a change, its mode and its time.
fn push_numbers(text: &mut String, change: &Change) -> Result<(), NoMemory> {
    push_values(text, &change.numbers)?;
    push_value(text, &change.mode)?;
    push_value(text, &change.time)
}

/// Adds a change: its path and action, its numbers, its mode and its time.
fn push_whole(text: &mut String, change: &Change) -> Result<(), NoMemory> {
    text.push_str(" ")?;
    push_quoted(text, change.path.as_str())?;
    push_quoted(text, change.action.as_str())?;
    text.push_str(" ")?;
    push_numbers(text, change)?;
    Ok(text.push_str("\n")?)
}

/// Adds the event of a change under these categories.
fn push_event(
    alloc: Global,
    text: &mut String,
    change: Change,
    categories: &CategoryList,
) -> Result<(), NoMemory> {
    let event = change_event(alloc, change, categories)?;
    push_maybe_event(text, event.as_ref())
}

/// Adds a change, and its event under the categories that the line gives.
fn push_both(
    alloc: Global,
    text: &mut String,
    change: Change,
    given: Given<'_>,
) -> Result<(), NoMemory> {
    push_whole(text, &change)?;
    let categories = given.categories(alloc)?;
    push_event(alloc, text, change, &categories)
}

/// Adds what bytes are read as, and the event.
fn push_read(
    alloc: Global,
    text: &mut String,
    bytes: &[u8],
    given: Given<'_>,
) -> Result<(), NoMemory> {
    let mut scratch = Scratch::new(alloc);
    match read_change(alloc, &mut scratch, bytes) {
        Ok(change) => push_both(alloc, text, change, given),
        Err(error) => push_refused(text, error),
    }
}

/// Adds what a line of a change is read as, and its event.
pub(crate) fn push_change(
    alloc: Global,
    text: &mut String,
    given: Given<'_>,
) -> Result<(), NoMemory> {
    let bytes = given.text_at(alloc, "change")?;
    push_read(alloc, text, bytes.as_slice(), given)
}

/// Adds a path, and whether the pattern matches it.
fn push_match(text: &mut String, pattern: &str, path: &str) -> Result<(), NoMemory> {
    let answer = if path_matches(pattern, path) {
        " yes\n"
    } else {
        " no\n"
    };
    text.push_str("  ")?;
    text.push_str(path)?;
    Ok(text.push_str(answer)?)
}

/// Adds for each path whether the pattern matches it.
pub(crate) fn push_matches(text: &mut String, given: Given<'_>) -> Result<(), NoMemory> {
    let pattern = member_text(given.line, "pattern");
    for path in given.items("paths").iter().filter_map(Json::as_str) {
        push_match(text, pattern, path)?;
    }
    Ok(())
}

/// Adds the rows of a table, with the offset behind its line.
fn push_rows_of(
    text: &mut String,
    taken: u64,
    table: TableId,
    rows: &RowList,
) -> Result<(), NoMemory> {
    write!(text, "  {taken}:{}", table.0)?;
    write!(text, "x{}", rows.len())?;
    push_rows(text, rows)?;
    Ok(text.push_str("\n")?)
}

fn push_reading(text: &mut String, reading: &Reading) -> Result<(), NoMemory> {
    match reading {
        Reading::Table { taken, table, rows } => push_rows_of(text, *taken, *table, rows),
        Reading::Events { .. } => Ok(text.push_str("  no table\n")?),
    }
}

/// Adds what bytes are read as.
fn push_read_table(alloc: Global, text: &mut String, bytes: &[u8]) -> Result<(), NoMemory> {
    match read_table(alloc, bytes) {
        Ok(reading) => push_reading(text, &reading),
        Err(error) => push_refused(text, error),
    }
}

/// Adds what a line of a table is read as.
pub(crate) fn push_table(
    alloc: Global,
    text: &mut String,
    given: Given<'_>,
) -> Result<(), NoMemory> {
    let bytes = given.text_at(alloc, "table")?;
    push_read_table(alloc, text, bytes.as_slice())
}
