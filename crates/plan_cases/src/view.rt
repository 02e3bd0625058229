//! The tables that queries are over.

use crate::sql::FIRST_DERIVED;
use case_text::{items_of, rows_of};
use osq_value::{NoMemory, Row, RowList, TableId, Tables, Value};
use serde_json::Value as Json;
use std::alloc::Global;

/// A view with rows of `users`, of `groups`, of `user_groups` and of the derived table `parts`.
#[derive(Drop)]
pub(crate) struct GivenTables {
    users: RowList,
    groups: RowList,
    user_groups: RowList,
    parts: RowList,
}

impl Tables for GivenTables {
    ghost use Rattle.std.specs.Prelude.{◌==◌, if◌then◌else◌, []};
    ghost use Rattle.std.proofs.Common.{arith};
    ghost use Rattle.osq_value.specs.declared.value.TheConstants.TableId.{USERS, GROUPS, USER_GROUPS};
    ghost use Rattle.sql_query.specs.Tables.{FIRST_DERIVED};

    ghost rows_of = { λ s table. if table == USERS.0 then s.users else (if table == GROUPS.0 then s.groups else (if table == USER_GROUPS.0 then s.user_groups else (if table == FIRST_DERIVED then s.parts else []))) };

    fn count(&self, table: TableId) -> usize {
        if table.0 == TableId::USERS.0 {
            self.users.len()
        } else if table.0 == TableId::GROUPS.0 {
            self.groups.len()
        } else if table.0 == TableId::USER_GROUPS.0 {
            self.user_groups.len()
        } else if table.0 == FIRST_DERIVED {
            self.parts.len()
        } else {
            0
        }
    }

    fn row(&self, table: TableId, at: usize) -> Option<&Row> {
        if table.0 == TableId::USERS.0 {
            self.users.get(at)
        } else if table.0 == TableId::GROUPS.0 {
            self.groups.get(at)
        } else if table.0 == TableId::USER_GROUPS.0 {
            self.user_groups.get(at)
        } else if table.0 == FIRST_DERIVED {
            self.parts.get(at)
        } else {
            None
        }
    }

    ghost outside = { λ s table past named. Prim.grind (arith) };
}

impl GivenTables {
    /// The view without rows.
    pub(crate) fn empty(alloc: Global) -> GivenTables {
        GivenTables {
            users: RowList::new(alloc),
            groups: RowList::new(alloc),
            user_groups: RowList::new(alloc),
            parts: RowList::new(alloc),
        }
    }

    /// The view with the rows of these members.
    pub(crate) fn of(alloc: Global, tables: &Json) -> Result<GivenTables, NoMemory> {
        Ok(GivenTables {
            users: table_rows(alloc, tables.get("users"))?,
            groups: table_rows(alloc, tables.get("groups"))?,
            user_groups: table_rows(alloc, tables.get("user_groups"))?,
            parts: table_rows(alloc, tables.get("parts"))?,
        })
    }
}

/// The rows of arrays, or as many rows as a member `numbered` says, of its `width`.
fn table_rows(alloc: Global, rows: Option<&Json>) -> Result<RowList, NoMemory> {
    match number_of(rows) {
        Some(count) => numbered_rows(alloc, count, width_of(rows).unwrap_or(2)),
        None => rows_of(alloc, items_of(rows)),
    }
}

fn number_of(rows: Option<&Json>) -> Option<i64> {
    rows?.get("numbered")?.as_i64()
}

fn width_of(rows: Option<&Json>) -> Option<u64> {
    rows?.get("width")?.as_u64()
}

/// Rows with the same number in their first two columns, from 0, and Nulls behind it up to the width.
fn numbered_rows(alloc: Global, count: i64, width: u64) -> Result<RowList, NoMemory> {
    let mut rows = RowList::new(alloc);
    for number in 0..count {
        rows.push(numbered_row(alloc, number, width)?)?;
    }
    Ok(rows)
}

fn numbered_row(alloc: Global, number: i64, width: u64) -> Result<Row, NoMemory> {
    let mut row = Row::new(alloc);
    for at in 0..width {
        row.push(if at < 2 {
            Value::Int(number)
        } else {
            Value::Null
        })?;
    }
    Ok(row)
}
