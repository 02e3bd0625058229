//! Queries of one table, whose rows are those of FROM.
ghost use Rattle.std.specs.Prelude.{◌≡◌, [], ◌++◌, IfOk, IfSome, List, OnOk, false, filter, map, take, true};
ghost use Rattle.std.specs.List.{list_all};
ghost use Rattle.std.specs.Option.{option_copied, option_to_list};
ghost use Rattle.osq_value.specs.declared.value.Value.{Value};
ghost use Rattle.sql_query.specs.Resolved.{query_of, source_of};
ghost use Rattle.sql_query.specs.View.{expr_of};
ghost use Rattle.sql_meaning.specs.Expressions.{alone, holds, value_at, value_of};
ghost use Rattle.sql_meaning.specs.Joins.{View, product as product_of};
ghost use Rattle.sql_meaning.specs.Lent.{values_in};
ghost use Rattle.sql_meaning.specs.Steps.{behind_from};
ghost use Rattle.sql_planner.specs.Early.{IsEarly};
ghost use Rattle.sql_planner.specs.RowTests.{passes, passes_some};

use crate::row_tests::{RowTest, TestList, ValueTest, passes, passes_all};
use crate::testing::tests_of;
use osq_value::{NoMemory, Row, RowList, TableId, Tables, Value as Cell};
use sql_groups::rows_behind_where;
use sql_meaning::{Joined, JoinedList};
use sql_query::query::{Condition, Query, QuerySource};
use sql_query::tree::Expr;
use std::alloc::Global;

/// The only table of FROM, where it is an inner one without a condition. The rows of FROM are then the rows of this table.
pub(crate) fn only_table(sources: &[QuerySource]) -> Option<&QuerySource>
    ensures { IfSome result (λ source. (view : View) → product_of view (map source_of sources.now) ≡ view source.now.table.0) }
{
    let [source] = sources else {
        return None;
    };
    if is_plain(source) { Some(source) } else { None }
}

/// Whether a table is an inner one without a condition.
fn is_plain(source: &QuerySource) -> bool
    ensures inner { result ≡ true → source.now.is_outer ≡ false }
    ensures bare { result ≡ true → source.now.on.parts ≡ [] }
{
    match source.on.parts.as_slice() {
        [] => !source.is_outer,
        _ => false,
    }
}

/// How many rows of a table are read first, where LIMIT may end a query early.
const FIRST_ROWS: usize = 64;

/// How many times as many are read each time that these aren't enough.
const TIMES_MORE: usize = 16;

/// The rows of a query whose FROM gives the rows of one table. WHERE is asked by tests that are made once, where the table is read. LIMIT ends the
/// reading where neither groups nor ORDER BY look at all rows.
pub(crate) fn table_rows<V: Tables>(
    alloc: Global,
    query: &Query,
    source: &QuerySource,
    view: &V,
) -> Result<RowList, NoMemory>
    ensures { IfOk result (λ rows. rows ≡ behind_from (query_of query.now) (V.rows_of view.now source.now.table.0)) }
{
    let tests = tests_of(alloc, query.filter.parts.as_slice())?;
    match most_rows(query) {
        None => all_rows(alloc, query, tests.as_slice(), source.table, view),
        Some(most) => early_rows(alloc, query, tests.as_slice(), source.table, view, most),
    }
}

/// How many rows the result has at most, where they are those that come first.
fn most_rows(query: &Query) -> Option<usize>
    ensures { IfSome result (IsEarly (query_of query.now)) }
{
    if query.is_grouped {
        return None;
    }
    let Some(limit) = query.limit else {
        return None;
    };
    if query.terms.len() > 0 {
        return None;
    }
    match usize::try_from(limit) {
        Ok(most) => Some(most),
        Err(_) => None,
    }
}

/// The rows of the result, of all rows of the table.
fn all_rows<V: Tables>(
    alloc: Global,
    query: &Query,
    tests: &[TestList],
    table: TableId,
    view: &V,
) -> Result<RowList, NoMemory>
    requires { (row : List Value) → list_all (passes_some row) tests.now ≡ holds (alone row) (map expr_of query.now.filter.parts) }
    ensures { IfOk result (λ rows. rows ≡ behind_from (query_of query.now) (V.rows_of view.now table.0)) }
{
    rows_of_first(alloc, query, tests, table, view, view.count(table))
}

/// The same, where these are as many as are wanted before all rows of the table are read: of its first rows, and then of many more.
fn early_rows<V: Tables>(
    alloc: Global,
    query: &Query,
    tests: &[TestList],
    table: TableId,
    view: &V,
    wanted: usize,
) -> Result<RowList, NoMemory>
    requires asked { (row : List Value) → list_all (passes_some row) tests.now ≡ holds (alone row) (map expr_of query.now.filter.parts) }
    requires early { IsEarly (query_of query.now) wanted }
    ensures { IfOk result (λ rows. rows ≡ behind_from (query_of query.now) (V.rows_of view.now table.0)) }
{
    let count = view.count(table);
    let mut read = wanted.max(FIRST_ROWS);
    for _ in 0..4 {
        if read < count {
            let rows = rows_of_first(alloc, query, tests, table, view, read)?;
            if rows.len() >= wanted {
                return Ok(rows);
            }
            read = read.saturating_mul(TIMES_MORE);
        }
    }
    all_rows(alloc, query, tests, table, view)
}

/// The rows of the result, of the first so many rows of the table.
fn rows_of_first<V: Tables>(
    alloc: Global,
    query: &Query,
    tests: &[TestList],
    table: TableId,
    view: &V,
    read: usize,
) -> Result<RowList, NoMemory>
    requires { (row : List Value) → list_all (passes_some row) tests.now ≡ holds (alone row) (map expr_of query.now.filter.parts) }
    ensures { IfOk result (λ rows. rows ≡ behind_from (query_of query.now) (take read (V.rows_of view.now table.0))) }
{
    let kept = passing(alloc, tests, table, view, read)?;
    rows_behind_where(
        alloc,
        query,
        &Condition::of(Vec::new(alloc)),
        kept.as_slice(),
    )
}

/// Of the first so many rows of a table those that pass a test of each list. They are lent by the view. Where there is one test, of a
/// column, it is found once for all rows.
fn passing<'a, V: Tables>(
    alloc: Global,
    tests: &[TestList],
    table: TableId,
    view: &'a V,
    read: usize,
) -> Result<JoinedList<'a>, NoMemory>
    ensures { IfOk result (λ rows. map values_in rows ≡ filter (λ row. list_all (passes_some row) tests.now) (take read (V.rows_of view.entry.now table.0))) }
{
    match only_test(tests) {
        None => passing_all(alloc, tests, table, view, read),
        Some((test, column)) => passing_one(alloc, test, column, table, view, read),
    }
}

/// The same by all tests.
fn passing_all<'a, V: Tables>(
    alloc: Global,
    tests: &[TestList],
    table: TableId,
    view: &'a V,
    read: usize,
) -> Result<JoinedList<'a>, NoMemory>
    ensures { IfOk result (λ rows. map values_in rows ≡ filter (λ row. list_all (passes_some row) tests.now) (take read (V.rows_of view.entry.now table.0))) }
{
    let mut rows = JoinedList::new(alloc);
    for at in 0..read.min(view.count(table)) {
        push_passing(alloc, &mut rows, view.row(table, at), tests)?;
    }
    Ok(rows)
}

/// The only test, with the column that it is of, where there is no other and it is of a column.
fn only_test<'a>(tests: &'a [TestList]) -> Option<(&'a ValueTest, u32)>
    ensures { IfSome result (λ found. (row : List Value) → list_all (passes_some row) tests.entry.now ≡ passes found.0.now (value_at row found.1)) }
{
    let [list] = tests else {
        return None;
    };
    only_of(list.as_slice())
}

/// The same of the tests of which one is to be passed.
fn only_of<'a>(tests: &'a [RowTest]) -> Option<(&'a ValueTest, u32)>
    ensures { IfSome result (λ found. (row : List Value) → passes_some row tests.entry.now ≡ passes found.0.now (value_at row found.1)) }
{
    let [only] = tests else {
        return None;
    };
    match column_of(only.left) {
        None => None,
        Some(column) => Some((&only.test, column)),
    }
}

/// The place of a column, if an expression is one.
fn column_of(expr: &Expr) -> Option<u32>
    ensures { IfSome result (λ column. (row : List Value) → value_of (alone row) (expr_of expr.now) ≡ value_at row column) }
{
    match expr {
        Expr::Column { at, .. } => Some(*at),
        _ => None,
    }
}

/// Of the first so many rows of a table those whose value of a column passes a test.
fn passing_one<'a, V: Tables>(
    alloc: Global,
    test: &ValueTest,
    column: u32,
    table: TableId,
    view: &'a V,
    read: usize,
) -> Result<JoinedList<'a>, NoMemory>
    ensures { IfOk result (λ rows. map values_in rows ≡ filter (λ row. passes test.now (value_at row column)) (take read (V.rows_of view.entry.now table.0))) }
{
    let mut rows = JoinedList::new(alloc);
    for at in 0..read.min(view.count(table)) {
        push_one(alloc, &mut rows, view.row(table, at), test, column)?;
    }
    Ok(rows)
}

/// Adds a row if its value of a column passes a test.
fn push_one<'a>(
    alloc: Global,
    rows: &mut JoinedList<'a>,
    row: Option<&'a Row>,
    test: &ValueTest,
    column: u32,
) -> Result<(), NoMemory>
    ensures { OnOk result (map values_in rows.new ≡ map values_in rows.old ++ filter (λ row. passes test.now (value_at row column)) (option_to_list (option_copied row.entry))) }
{
    let Some(row) = row else {
        return Ok(());
    };
    if passes_in(alloc, test, column, row)? {
        rows.push(Joined {
            rows: &[],
            last: Some(row),
        })?;
    }
    Ok(())
}

/// Whether the value of a column of a row passes a test.
fn passes_in(alloc: Global, test: &ValueTest, column: u32, row: &Row) -> Result<bool, NoMemory>
    ensures { IfOk result (λ answer. answer ≡ passes test.now (value_at row.now column)) }
{
    match row.get(column as usize) {
        Some(value) => passes(alloc, test, value),
        None => passes(alloc, test, &Cell::Null),
    }
}

/// Adds a row if it passes a test of each list.
fn push_passing<'a>(
    alloc: Global,
    rows: &mut JoinedList<'a>,
    row: Option<&'a Row>,
    tests: &[TestList],
) -> Result<(), NoMemory>
    ensures { OnOk result (map values_in rows.new ≡ map values_in rows.old ++ filter (λ row. list_all (passes_some row) tests.now) (option_to_list (option_copied row.entry))) }
{
    let Some(row) = row else {
        return Ok(());
    };
    let joined = Joined {
        rows: &[],
        last: Some(row),
    };
    if passes_all(alloc, tests, joined)? {
        rows.push(joined)?;
    }
    Ok(())
}
