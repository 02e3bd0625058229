//! The recorded tables that parts of them make.

ghost use Rattle.std.specs.Prelude.{◌≡◌, ◌++◌, ◌==◌, flat_map, option_map, IfOk, OnOk};
ghost use Rattle.std.specs.List.{list_any};
ghost use Rattle.std.specs.Option.{option_to_list};
ghost use Rattle.entry_model.specs.Summary.{set_table};
ghost use Rattle.kept_tables.specs.Loads.{recorded_at, rows_from, rows_in, tables_in};

use crate::error::TableError;
use crate::shown::Shown;
use crate::values::{byte_at, list_at};
use entry_model::restored::{SetTable, SetTableList};
use osq_value::{Copied, NoMemory, Row, RowList, Sequence, TableId};
use std::alloc::Global;

/// A row has some rows of a table.
impl Shown for SetTable {
    ghost use Rattle.kept_tables.specs.Rows.{set_row, IsSetPart};

    ghost shown = { set_row };

    ghost is_held = { IsSetPart };

    fn of_row(alloc: Global, row: &Row) -> Result<Self, TableError> {
        let Some(table) = recorded_at(row) else {
            return Err(TableError::Unreadable);
        };
        let rows = list_at(alloc, row, 1)?;
        Ok(SetTable { table, rows })
    }
}

/// The recorded table whose number stands first.
fn recorded_at(row: &Row) -> Option<TableId>
    ensures { option_map (λ table. table.0) result ≡ recorded_at row.now }
{
    let number = byte_at(row, 0)?;
    if number >= TableId::USERS.0 && number <= TableId::LOGGED_IN_USERS.0 {
        Some(TableId(number))
    } else {
        None
    }
}

/// The tables that these parts make: each has the rows of its parts, one part behind another. The recorded tables lie behind one another in
/// the catalogue, before the computed ones.
pub(crate) fn tables_of(alloc: Global, parts: &SetTableList) -> Result<SetTableList, NoMemory>
    ensures { IfOk result (λ tables. tables ≡ tables_in parts.now) }
{
    let mut tables = Sequence::new(alloc);
    for table in TableId::USERS.0..TableId::TIME.0 {
        add_set(alloc, &mut tables, table, parts.as_slice())?;
    }
    Ok(tables)
}

/// Adds a table, if it has a part.
fn add_set(
    alloc: Global,
    made: &mut SetTableList,
    table: u8,
    parts: &[SetTable],
) -> Result<(), NoMemory>
    ensures { OnOk result (made.new ≡ made.old ++ option_to_list (set_table table (rows_in table parts.now))) }
{
    if !is_set(table, parts) {
        return Ok(());
    }
    let rows = rows_of(alloc, table, parts)?;
    made.push(SetTable {
        table: TableId(table),
        rows,
    })
}

/// A part is one of this table.
fn is_set(table: u8, parts: &[SetTable]) -> bool
    ensures { result ≡ list_any (λ part. part.table.0 == table) parts.now }
{
    parts.iter().any(|part| part.table.0 == table)
}

fn rows_of(alloc: Global, table: u8, parts: &[SetTable]) -> Result<RowList, NoMemory>
    ensures { IfOk result (λ rows. rows ≡ flat_map (rows_from table) parts.now) }
{
    let mut rows = Sequence::new(alloc);
    for part in parts {
        add_rows(alloc, &mut rows, table, part)?;
    }
    Ok(rows)
}

/// Adds the rows of a part, if it is one of this table.
fn add_rows(alloc: Global, rows: &mut RowList, table: u8, part: &SetTable) -> Result<(), NoMemory>
    ensures { OnOk result (rows.new ≡ rows.old ++ rows_from table part.now) }
{
    if part.table.0 == table {
        rows.append(part.rows.copy(alloc)?)
    } else {
        Ok(())
    }
}
