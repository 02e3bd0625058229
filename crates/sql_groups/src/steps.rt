//! The rows of a query, of the rows that its FROM gives.
ghost use Rattle.std.specs.Prelude.{◌≡◌, ◌<◌, ◌∷◌, [], IfOk, IfSome, List, false, length, map, true};
ghost use Rattle.osq_value.specs.declared.value.Value.{Value};
ghost use Rattle.sql_query.specs.Resolved.{query_of, result_of};
ghost use Rattle.sql_query.specs.View.{expr_of};
ghost use Rattle.sql_meaning.specs.Expressions.{alone, value_at, value_of};
ghost use Rattle.sql_meaning.specs.Lent.{values_in};
ghost use Rattle.sql_meaning.specs.Steps.{asked_by, behind_from};
ghost use Rattle.sql_groups.specs.Folding.{lists_by};
ghost use Rattle.sql_groups.specs.Grouping.{IsFolded};
ghost use Rattle.sql_groups.specs.Having.{IsGrouping};
ghost use Rattle.sql_groups.specs.Keys.{row_values};
ghost use Rattle.sql_groups.specs.Wanted.{IsCut};

use crate::columns::{only_column, only_key};
use crate::different::{different, different_by};
use crate::grouped::{GroupSoFar, groups_by_column, groups_by_keys};
use crate::having::{Grouping, grouping_of, kept_rows};
use crate::items::GroupItem;
use crate::keys::{item_exprs, key_exprs};
use crate::leading::leading;
use crate::sorted::sorted_rows;
use crate::totals::Totals;
use crate::wanted::wanted;
use osq_value::{NoMemory, RowList};
use sql_meaning::{Joined, finished, rows_where};
use sql_query::query::{Condition, Query};
use sql_query::tree::Expr;
use std::alloc::Global;

/// The rows of a query whose FROM gives these rows: those of `rows_where`. Where LIMIT looks at no more than half of the rows, only those
/// are evaluated behind ORDER BY; where DISTINCT is there without groups, only the first row for each value of its columns; and groups
/// are folded as the rows come.
pub fn rows_behind(alloc: Global, query: &Query, rows: &[Joined]) -> Result<RowList, NoMemory>
    ensures { IfOk result (λ made. made ≡ behind_from (query_of query.now) (map values_in rows.now)) }
{
    rows_behind_where(alloc, query, &query.filter, rows)
}

/// The same with another condition in the place of WHERE: with the empty one, where all of the rows are such that WHERE keeps.
pub fn rows_behind_where(
    alloc: Global,
    query: &Query,
    condition: &Condition,
    rows: &[Joined],
) -> Result<RowList, NoMemory>
    ensures { IfOk result (λ made. made ≡ behind_from (asked_by (map expr_of condition.now.parts) (query_of query.now)) (map values_in rows.now)) }
{
    if query.is_grouped {
        grouped_rows(alloc, query, condition, rows)
    } else if query.is_distinct {
        different_rows(alloc, query, condition, rows)
    } else {
        cut_rows(alloc, query, condition, rows)
    }
}

/// The rows of a query with groups.
fn grouped_rows(
    alloc: Global,
    query: &Query,
    condition: &Condition,
    rows: &[Joined],
) -> Result<RowList, NoMemory>
    requires { query.now.is_grouped ≡ true }
    ensures { IfOk result (λ made. made ≡ behind_from (asked_by (map expr_of condition.now.parts) (query_of query.now)) (map values_in rows.now)) }
{
    if query.keys.len() == 0 {
        return row_of_all(alloc, query, condition, rows);
    }
    match grouping_of(alloc, query)? {
        None => rows_where(alloc, query, condition, rows),
        Some(grouping) => folded_rows(alloc, query, condition, rows, &grouping),
    }
}

/// The same without GROUP BY: all rows are one group.
fn row_of_all(
    alloc: Global,
    query: &Query,
    condition: &Condition,
    rows: &[Joined],
) -> Result<RowList, NoMemory>
    ensures { IfOk result (λ made. made ≡ behind_from (asked_by (map expr_of condition.now.parts) (query_of query.now)) (map values_in rows.now)) }
{
    let Some(mut totals) = Totals::begun(alloc, query)? else {
        return rows_where(alloc, query, condition, rows);
    };
    if !totals.add(alloc, condition, rows)? {
        return rows_where(alloc, query, condition, rows);
    }
    match totals.rows(alloc, query)? {
        None => rows_where(alloc, query, condition, rows),
        Some(made) => Ok(made),
    }
}

/// The same with GROUP BY, where the columns of the result and the sides of HAVING can be folded.
fn folded_rows(
    alloc: Global,
    query: &Query,
    condition: &Condition,
    rows: &[Joined],
    grouping: &Grouping,
) -> Result<RowList, NoMemory>
    requires grouped { query.now.is_grouped ≡ true }
    requires keyed { 0 < length query.now.keys }
    requires grouping { IsGrouping (query_of query.now) grouping.now }
    ensures { IfOk result (λ made. made ≡ behind_from (asked_by (map expr_of condition.now.parts) (query_of query.now)) (map values_in rows.now)) }
{
    let items = grouping.items.as_slice();
    let Some(groups) = folded_groups(alloc, query.keys.as_slice(), condition, rows, items)? else {
        return rows_where(alloc, query, condition, rows);
    };
    let tests = grouping.tests.as_slice();
    match kept_rows(alloc, groups.as_slice(), grouping.count, tests)? {
        None => rows_where(alloc, query, condition, rows),
        Some(made) => finished(alloc, query, made),
    }
}

/// The groups of the rows for which the condition holds, folded as the rows come: by a column where it stands, or by the values of
/// expressions.
fn folded_groups<'a>(
    alloc: Global,
    keys: &'a [Expr],
    condition: &Condition,
    rows: &[Joined<'a>],
    items: &[GroupItem<'a>],
) -> Result<Option<Vec<GroupSoFar<'a>>>, NoMemory>
    ensures { IfOk result (λ found. IfSome found (λ groups. IsFolded items.now (lists_by (row_values (map expr_of keys.entry.now)) (map expr_of condition.now.parts) rows.now) groups.items)) }
{
    match only_key(keys) {
        Some(place) => groups_by_column(alloc, place, items, condition, rows),
        None => groups_by_all(alloc, keys, condition, rows, items),
    }
}

/// The same by the values of all expressions of GROUP BY.
fn groups_by_all<'a>(
    alloc: Global,
    keys: &'a [Expr],
    condition: &Condition,
    rows: &[Joined<'a>],
    items: &[GroupItem<'a>],
) -> Result<Option<Vec<GroupSoFar<'a>>>, NoMemory>
    ensures { IfOk result (λ found. IfSome found (λ groups. IsFolded items.now (lists_by (row_values (map expr_of keys.entry.now)) (map expr_of condition.now.parts) rows.now) groups.items)) }
{
    let exprs = key_exprs(alloc, keys)?;
    groups_by_keys(alloc, exprs.as_slice(), items, condition, rows)
}

/// The rows of a query with DISTINCT and without groups.
fn different_rows(
    alloc: Global,
    query: &Query,
    condition: &Condition,
    rows: &[Joined],
) -> Result<RowList, NoMemory>
    requires ungrouped { query.now.is_grouped ≡ false }
    requires distinct { query.now.is_distinct ≡ true }
    ensures { IfOk result (λ made. made ≡ behind_from (asked_by (map expr_of condition.now.parts) (query_of query.now)) (map values_in rows.now)) }
{
    match only_column(query.items.as_slice()) {
        None => rows_by_items(alloc, query, condition, rows),
        Some(place) => rows_by_column(alloc, query, condition, rows, place),
    }
}

/// The same, whatever the columns of the result are.
fn rows_by_items(
    alloc: Global,
    query: &Query,
    condition: &Condition,
    rows: &[Joined],
) -> Result<RowList, NoMemory>
    requires ungrouped { query.now.is_grouped ≡ false }
    requires distinct { query.now.is_distinct ≡ true }
    ensures { IfOk result (λ made. made ≡ behind_from (asked_by (map expr_of condition.now.parts) (query_of query.now)) (map values_in rows.now)) }
{
    let exprs = item_exprs(alloc, query.items.as_slice())?;
    match different_by(alloc, exprs.as_slice(), condition, rows)? {
        None => rows_where(alloc, query, condition, rows),
        Some(kept) => rows_where(alloc, query, condition, kept.as_slice()),
    }
}

/// The same, where the only column of the result is the one at a place of the rows.
fn rows_by_column(
    alloc: Global,
    query: &Query,
    condition: &Condition,
    rows: &[Joined],
    place: u32,
) -> Result<RowList, NoMemory>
    requires ungrouped { query.now.is_grouped ≡ false }
    requires distinct { query.now.is_distinct ≡ true }
    requires only { (row : List Value) → map (λ item. value_of (alone row) item.expr) (map result_of query.now.items) ≡ value_at row place ∷ [] }
    ensures { IfOk result (λ made. made ≡ behind_from (asked_by (map expr_of condition.now.parts) (query_of query.now)) (map values_in rows.now)) }
{
    match different(alloc, place, condition, rows)? {
        None => rows_where(alloc, query, condition, rows),
        Some(kept) => rows_where(alloc, query, condition, kept.as_slice()),
    }
}

/// The rows of a query without DISTINCT and without groups.
fn cut_rows(
    alloc: Global,
    query: &Query,
    condition: &Condition,
    rows: &[Joined],
) -> Result<RowList, NoMemory>
    requires ungrouped { query.now.is_grouped ≡ false }
    requires all { query.now.is_distinct ≡ false }
    ensures { IfOk result (λ made. made ≡ behind_from (asked_by (map expr_of condition.now.parts) (query_of query.now)) (map values_in rows.now)) }
{
    match wanted(query.limit, query.skip, rows.len()) {
        None => ordered_rows(alloc, query, condition, rows),
        Some(count) => leading_rows(alloc, query, condition, rows, count),
    }
}

/// The same, where LIMIT and OFFSET look at the first `count` rows alone.
fn leading_rows(
    alloc: Global,
    query: &Query,
    condition: &Condition,
    rows: &[Joined],
    count: usize,
) -> Result<RowList, NoMemory>
    requires ungrouped { query.now.is_grouped ≡ false }
    requires all { query.now.is_distinct ≡ false }
    requires cut { IsCut query.now.limit query.now.skip count }
    ensures { IfOk result (λ made. made ≡ behind_from (asked_by (map expr_of condition.now.parts) (query_of query.now)) (map values_in rows.now)) }
{
    let first = leading(alloc, query.terms.as_slice(), condition, rows, count)?;
    rows_where(alloc, query, condition, first.as_slice())
}

/// The same, where all rows are put in order: where ORDER BY is there, by keys that are made once beside the rows of the result.
fn ordered_rows(
    alloc: Global,
    query: &Query,
    condition: &Condition,
    rows: &[Joined],
) -> Result<RowList, NoMemory>
    requires ungrouped { query.now.is_grouped ≡ false }
    requires all { query.now.is_distinct ≡ false }
    ensures { IfOk result (λ made. made ≡ behind_from (asked_by (map expr_of condition.now.parts) (query_of query.now)) (map values_in rows.now)) }
{
    if query.terms.as_slice().is_empty() {
        rows_where(alloc, query, condition, rows)
    } else {
        sorted_rows(alloc, query, condition, rows)
    }
}
