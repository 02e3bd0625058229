//! The catalogue.

use case_text::items_of;
use osq_value::{
    Affinity, ColumnDesc, NoMemory, TableDesc, TableId, TableKind, column_of, table_desc, table_of,
};
use serde_json::Value as Json;

fn kind_name(kind: TableKind) -> &'static str {
    match kind {
        TableKind::Evented => "evented",
        TableKind::Recorded => "recorded",
        TableKind::Computed => "computed",
    }
}

/// Adds a column's name, and a star where it holds whole numbers.
fn push_described(text: &mut String, column: ColumnDesc) -> Result<(), NoMemory> {
    text.push_str(column.name)?;
    match column.affinity {
        Affinity::Integer => text.push_str("*")?,
        Affinity::Text => {}
    }
    Ok(())
}

/// Adds the columns of a table up to the first place that has none.
fn push_columns(text: &mut String, table: TableId) -> Result<(), NoMemory> {
    for at in 0..u32::MAX {
        let Some(column) = column_of(table, at) else {
            break;
        };
        text.push_str(if at == 0 { ": " } else { ", " })?;
        push_described(text, column)?;
    }
    text.push_str("\n")?;
    Ok(())
}

fn push_found(text: &mut String, found: Option<TableDesc>) -> Result<(), NoMemory> {
    let Some(table) = found else {
        return Ok(text.push_str(": none\n")?);
    };
    let kind = kind_name(table.kind);
    write!(text, ": {} {} ", table.id.0, table.name)?;
    write!(text, "{kind} {}", table.width)?;
    push_columns(text, table.id)
}

/// A table's number. No table has the greatest one.
fn id_of(number: Option<&Json>) -> TableId {
    let number = number.and_then(Json::as_u64).unwrap_or(u64::MAX);
    TableId(u8::try_from(number).unwrap_or(TableId::NONE.0))
}

/// Adds the table of a name.
pub(crate) fn push_table(text: &mut String, given: &Json) -> Result<(), NoMemory> {
    push_found(text, table_of(given.as_str().unwrap_or("")))
}

/// Adds the table of a number.
pub(crate) fn push_number(text: &mut String, given: &Json) -> Result<(), NoMemory> {
    push_found(text, table_desc(id_of(Some(given))))
}

/// Adds the column of a table at a place.
pub(crate) fn push_column(text: &mut String, given: &Json) -> Result<(), NoMemory> {
    let items = items_of(Some(given));
    let at = items.get(1).and_then(Json::as_u64).unwrap_or(u64::MAX);
    let place = u32::try_from(at).unwrap_or(u32::MAX);
    text.push_str(": ")?;
    match column_of(id_of(items.first()), place) {
        Some(column) => push_described(text, column)?,
        None => text.push_str("none")?,
    }
    text.push_str("\n")?;
    Ok(())
}
