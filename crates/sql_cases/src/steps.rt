//! Lines with the steps of a query behind FROM and WHERE.

use crate::signs::fold_of;
use crate::sql::{
    Fold, ResultRow, ResultRowList, Worth, count_rows, cut, firsts, fold_values, order,
};
use crate::values::given_values;
use case_text::{items_of, member_text, push_rows, push_value, rows_of, values_of};
use osq_value::{NoMemory, Sequence, Value};
use serde_json::Value as Json;
use std::alloc::Global;

fn is_set(line: &Json, name: &str) -> bool {
    line.get(name).and_then(Json::as_bool).unwrap_or(false)
}

fn number(line: &Json, name: &str) -> Option<i64> {
    line.get(name)?.as_i64()
}

/// A number that is no less than 0, and else 0.
fn count(line: &Json, name: &str) -> usize {
    usize::try_from(number(line, name).unwrap_or(0)).unwrap_or(0)
}

/// What an aggregate makes of the values of a line, or of so many rows.
fn folded(alloc: Global, fold: Fold, line: &Json) -> Result<Value, NoMemory> {
    if line.get("rows").is_some() {
        return count_rows(fold, count(line, "rows"));
    }
    fold_values(
        alloc,
        fold,
        is_set(line, "is_distinct"),
        Sequence::from_vec(given_values(alloc, line)?),
    )
}

/// Adds what an aggregate gives.
pub(crate) fn push_fold(alloc: Global, shown: &mut String, line: &Json) -> Result<(), NoMemory> {
    match fold_of(member_text(line, "fold")) {
        None => Ok(shown.push_str(" no aggregate")?),
        Some(fold) => push_value(shown, &folded(alloc, fold, line)?),
    }
}

/// A row of a result, whose values were made.
fn made_row(alloc: Global, item: &Json) -> Result<ResultRow<'static>, NoMemory> {
    let mut worths = ResultRow::new(alloc);
    for value in values_of(alloc, item)? {
        worths.push(Worth::Made { value })?;
    }
    Ok(worths)
}

fn made_rows(alloc: Global, items: &[Json]) -> Result<ResultRowList<'static>, NoMemory> {
    let mut made = ResultRowList::new(alloc);
    for item in items {
        made.push(made_row(alloc, item)?)?;
    }
    Ok(made)
}

fn push_made(shown: &mut String, row: &ResultRow<'_>) -> Result<(), NoMemory> {
    shown.push_str(" [")?;
    for worth in row.as_slice() {
        match worth {
            Worth::Held { value } => push_value(shown, value)?,
            Worth::Made { value } => push_value(shown, value)?,
        }
    }
    Ok(shown.push_str(" ]")?)
}

fn push_made_rows(shown: &mut String, rows: &ResultRowList<'_>) -> Result<(), NoMemory> {
    for row in rows.as_slice() {
        push_made(shown, row)?;
    }
    Ok(())
}

/// Adds the first of the rows with equal values at their first places.
pub(crate) fn push_firsts(alloc: Global, shown: &mut String, line: &Json) -> Result<(), NoMemory> {
    let made = made_rows(alloc, items_of(line.get("firsts")))?;
    push_made_rows(shown, &firsts(alloc, made, count(line, "width"))?)
}

/// Of each value that rows are sorted by, whether the greatest stands first.
fn descending_of(alloc: Global, line: &Json) -> Result<Vec<bool>, NoMemory> {
    let mut descending = Vec::new(alloc);
    for item in items_of(line.get("descending")) {
        descending.push(item.as_bool().unwrap_or(false))?;
    }
    Ok(descending)
}

fn push_sorted(
    alloc: Global,
    shown: &mut String,
    line: &Json,
    descending: &[bool],
) -> Result<(), NoMemory> {
    let made = made_rows(alloc, items_of(line.get("ordered")))?;
    push_made_rows(shown, &order(made, count(line, "width"), descending)?)
}

/// Adds the rows in the order of the values behind their first places.
pub(crate) fn push_ordered(alloc: Global, shown: &mut String, line: &Json) -> Result<(), NoMemory> {
    let descending = descending_of(alloc, line)?;
    push_sorted(alloc, shown, line, descending.as_slice())
}

/// Adds the rows that LIMIT and OFFSET leave.
pub(crate) fn push_cut(alloc: Global, shown: &mut String, line: &Json) -> Result<(), NoMemory> {
    let rows = rows_of(alloc, items_of(line.get("cut")))?;
    push_rows(
        shown,
        &cut(rows, number(line, "limit"), number(line, "offset")),
    )
}
