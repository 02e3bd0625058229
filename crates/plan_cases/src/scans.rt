//! Lines with constraints of a table.

use crate::sql::{Constraint, ConstraintList, ConstraintOp, scan};
use crate::view::GivenTables;
use case_text::{items_of, member_text, push_row, value_of};
use osq_value::{NoMemory, Row, TableId, table_of};
use serde_json::Value as Json;
use std::alloc::Global;

/// The comparison that a sign stands for.
fn sign_of(sign: &str) -> Option<ConstraintOp> {
    match sign {
        "=" => Some(ConstraintOp::Eq),
        "<" => Some(ConstraintOp::Lt),
        "<=" => Some(ConstraintOp::Le),
        ">" => Some(ConstraintOp::Gt),
        ">=" => Some(ConstraintOp::Ge),
        _ => None,
    }
}

fn place_of(item: &Json) -> Option<u32> {
    u32::try_from(item.as_u64()?).ok()
}

/// The column and the comparison of a constraint, and its literal.
fn compared(item: &Json) -> Option<(u32, ConstraintOp, &Json)> {
    match items_of(Some(item)) {
        [column, sign, literal] => Some((place_of(column)?, sign_of(sign.as_str()?)?, literal)),
        _ => None,
    }
}

/// The constraints that the items give: nothing where one of them is none.
fn constraints_of(alloc: Global, items: &[Json]) -> Result<Option<ConstraintList>, NoMemory> {
    let mut list = ConstraintList::new(alloc);
    for item in items {
        let Some((column, op, literal)) = compared(item) else {
            return Ok(None);
        };
        list.push(Constraint {
            column,
            op,
            value: value_of(alloc, literal)?,
        })?;
    }
    Ok(Some(list))
}

fn push_lent(shown: &mut String, rows: &[&Row]) -> Result<(), NoMemory> {
    for row in rows {
        shown.push_str(" ")?;
        push_row(shown, *row)?;
    }
    Ok(shown.push_str(if rows.is_empty() { " no rows" } else { "" })?)
}

fn push_met(
    alloc: Global,
    shown: &mut String,
    view: &GivenTables,
    table: TableId,
    constraints: &ConstraintList,
) -> Result<(), NoMemory> {
    let met = scan(alloc, view, table, constraints)?;
    push_lent(shown, met.as_slice())
}

fn push_found(
    alloc: Global,
    shown: &mut String,
    view: &GivenTables,
    name: &str,
    constraints: Option<&ConstraintList>,
) -> Result<(), NoMemory> {
    match (table_of(name), constraints) {
        (Some(table), Some(list)) => push_met(alloc, shown, view, table.id, list),
        _ => Ok(shown.push_str(" no table, or a constraint that is none")?),
    }
}

/// Adds the rows of a table that meet constraints.
pub(crate) fn push_scan(
    alloc: Global,
    shown: &mut String,
    line: &Json,
    view: &GivenTables,
) -> Result<(), NoMemory> {
    let constraints = constraints_of(alloc, items_of(line.get("where")))?;
    let name = member_text(line, "scan");
    push_found(alloc, shown, view, name, constraints.as_ref())
}
