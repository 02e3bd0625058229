//! All rows of a result in the order of ORDER BY.
ghost use Rattle.std.specs.Prelude.{◌≡◌, ◌++◌, ◌∷◌, [], IfOk, OnOk, drop, false, filter, map};
ghost use Rattle.sql_query.specs.Resolved.{order_of as term_of, query_of, result_of};
ghost use Rattle.sql_query.specs.View.{expr_of};
ghost use Rattle.sql_meaning.specs.Cut.{cut_by};
ghost use Rattle.sql_meaning.specs.Expressions.{alone, value_of};
ghost use Rattle.sql_meaning.specs.Lent.{values_in};
ghost use Rattle.sql_meaning.specs.Order.{first_key, order_by, ordered_by};
ghost use Rattle.sql_meaning.specs.Steps.{asked_by, behind_from};
ghost use Rattle.sql_meaning.specs.Worths.{worths};
ghost use Rattle.sql_groups.specs.FirstKeys.{first_value};
ghost use Rattle.sql_groups.specs.Kept.{is_kept};
ghost use Rattle.sql_groups.specs.Leading.{directions as directions_of, sort_keys};
ghost use Rattle.sql_groups.specs.Sorted.{columns, key_values, keyed_row, pair_of};

use crate::first_key::{FirstKey, compare_firsts, first_in, first_of};
use crate::kept::is_kept;
use crate::leading::{directions, keys_of};
use crate::order::{behind_first, compare_keys, directed};
use crate::worth_in::worth_in;
use osq_value::{Copied, NoMemory, Row, RowList, Sequence, Value};
use sql_meaning::Joined;
use sql_meaning::cut::cut;
use sql_meaning::worth::{ResultRow, Worth};
use sql_query::query::{Condition, Order, Query, QueryItem};
use std::alloc::Global;
use std::cmp::Ordering;

/// What a row is sorted by.
#[derive(Drop)]
pub(crate) enum SortKeys<'a> {
    /// The first key, where it is found at once, and the others.
    Known {
        first: FirstKey<'a>,
        others: ResultRow<'a>,
    },
    /// All of them.
    Made {
        keys: ResultRow<'a>,
    },
}

/// A row of the result, and what it is sorted by.
#[derive(Drop)]
pub(crate) struct KeyedRow<'a> {
    /// What it is sorted by.
    pub keys: SortKeys<'a>,
    /// The columns of the result.
    pub row: Row,
}

/// Such rows.
type KeyedRowList<'a> = Sequence<KeyedRow<'a>>;

/// The rows of a query with neither groups nor DISTINCT. The keys of each row are made once, and the row of the result beside them, which is
/// then moved and neither copied nor sought.
pub(crate) fn sorted_rows(
    alloc: Global,
    query: &Query,
    condition: &Condition,
    rows: &[Joined],
) -> Result<RowList, NoMemory>
    requires ungrouped { query.now.is_grouped ≡ false }
    requires all { query.now.is_distinct ≡ false }
    ensures { IfOk result (λ made. made ≡ behind_from (asked_by (map expr_of condition.now.parts) (query_of query.now)) (map values_in rows.now)) }
{
    let made = keyed_rows_of(
        alloc,
        query.terms.as_slice(),
        query.items.as_slice(),
        condition,
        rows,
    )?;
    in_order(alloc, query, made)
}

/// The rows of the result in the order of their keys, of which LIMIT and OFFSET leave some.
fn in_order<'a>(alloc: Global, query: &Query, made: KeyedRowList<'a>) -> Result<RowList, NoMemory>
    ensures { IfOk result (λ rows. rows ≡ map (λ row. row.row) (cut_by query.now.limit query.now.skip (ordered_by (λ row. key_values row.keys) (directions_of (map term_of query.now.terms)) made.entry))) }
{
    let ways = directions(alloc, query.terms.as_slice())?;
    let sorted = sorted(made, ways.as_slice())?;
    results(alloc, cut(sorted, query.limit, query.skip))
}

/// A row of the result for each row for which the condition holds, with what it is sorted by.
fn keyed_rows_of<'a>(
    alloc: Global,
    terms: &'a [Order],
    items: &[QueryItem],
    condition: &Condition,
    rows: &[Joined<'a>],
) -> Result<KeyedRowList<'a>, NoMemory>
    ensures { IfOk result (λ made. map pair_of made ≡ map (keyed_row (map term_of terms.entry.now) (map result_of items.now)) (filter (is_kept (map expr_of condition.now.parts)) rows.now)) }
{
    let mut made = KeyedRowList::new(alloc);
    for row in rows {
        push_kept(alloc, &mut made, terms, items, condition, *row)?;
    }
    Ok(made)
}

/// Adds the row of the result, where the condition holds.
fn push_kept<'a>(
    alloc: Global,
    made: &mut KeyedRowList<'a>,
    terms: &'a [Order],
    items: &[QueryItem],
    condition: &Condition,
    row: Joined<'a>,
) -> Result<(), NoMemory>
    ensures { OnOk result (map pair_of made.new ≡ map pair_of made.old ++ map (keyed_row (map term_of terms.entry.now) (map result_of items.now)) (filter (is_kept (map expr_of condition.now.parts)) (row.entry ∷ []))) }
{
    if is_kept(alloc, condition, row)? {
        made.push(keyed(alloc, terms, items, row)?)?;
    }
    Ok(())
}

fn keyed<'a>(
    alloc: Global,
    terms: &'a [Order],
    items: &[QueryItem],
    row: Joined<'a>,
) -> Result<KeyedRow<'a>, NoMemory>
    ensures { IfOk result (λ made. pair_of made ≡ keyed_row (map term_of terms.entry.now) (map result_of items.now) row.entry) }
{
    Ok(KeyedRow {
        keys: sort_keys_of(alloc, terms, row)?,
        row: result_row(alloc, items, row)?,
    })
}

/// What a row is sorted by. Where that is one column it takes no memory.
fn sort_keys_of<'a>(
    alloc: Global,
    terms: &'a [Order],
    row: Joined<'a>,
) -> Result<SortKeys<'a>, NoMemory>
    ensures { IfOk result (λ keys. key_values keys ≡ sort_keys (map term_of terms.entry.now) (values_in row.entry)) }
{
    let [term, others @ ..] = terms else {
        return Ok(SortKeys::Made {
            keys: ResultRow::new(alloc),
        });
    };
    match first_in(row, &term.expr) {
        Some(first) => Ok(SortKeys::Known {
            first,
            others: keys_of(alloc, others, row)?,
        }),
        None => Ok(SortKeys::Made {
            keys: keys_of(alloc, terms, row)?,
        }),
    }
}

/// The columns of the result of a row.
fn result_row(alloc: Global, items: &[QueryItem], row: Joined) -> Result<Row, NoMemory>
    ensures { IfOk result (λ made. made ≡ columns (map result_of items.now) row.entry) }
{
    let mut made = Row::with_capacity(alloc, items.len())?;
    for item in items {
        made.push(value_over(alloc, row, item)?)?;
    }
    made.shared(alloc)
}

/// The value of a column of the result.
fn value_over(alloc: Global, row: Joined, item: &QueryItem) -> Result<Value, NoMemory>
    ensures { IfOk result (λ value. value ≡ value_of (alone (values_in row.entry)) (result_of item.now).expr) }
{
    match worth_in(alloc, row, &item.expr)? {
        Worth::Held { value } => value.copy(alloc),
        Worth::Made { value } => Ok(value),
    }
}

/// The rows in the order of their keys. Rows that tie keep their order.
fn sorted<'a>(made: KeyedRowList<'a>, ways: &[bool]) -> Result<KeyedRowList<'a>, NoMemory>
    ensures { IfOk result (λ rows. rows ≡ ordered_by (λ row. key_values row.keys) ways.now made.entry) }
{
    let mut rows = made.into_vec();
    rows.sort_by(|left, right| compare_rows(left, right, ways))?;
    Ok(KeyedRowList::from_vec(rows))
}

/// The order of two rows by one key after another. Those behind the first are looked at where the first ones tie.
fn compare_rows(left: &KeyedRow, right: &KeyedRow, ways: &[bool]) -> Ordering
    ensures { result ≡ order_by ways.now (key_values left.now.keys) (key_values right.now.keys) }
{
    let [is_descending, others @ ..] = ways else {
        return Ordering::Equal;
    };
    let order = compare_firsts(first_key_of(&left.keys), first_key_of(&right.keys));
    let order = directed(*is_descending, order);
    if order.is_ne() {
        return order;
    }
    compare_keys(other_keys(&left.keys), other_keys(&right.keys), others)
}

/// The first of these keys, Null where there is none.
fn first_key_of<'a, 'b>(keys: &'b SortKeys<'a>) -> FirstKey<'b>
    ensures { first_value result ≡ first_key (key_values keys.entry.now) }
{
    match keys {
        SortKeys::Known { first, .. } => *first,
        SortKeys::Made { keys } => first_of(keys.as_slice()),
    }
}

/// The keys behind the first.
fn other_keys<'a, 'b>(keys: &'b SortKeys<'a>) -> &'b [Worth<'a>]
    ensures { worths result.now ≡ drop 1 (key_values keys.now) }
{
    match keys {
        SortKeys::Known { others, .. } => others.as_slice(),
        SortKeys::Made { keys } => behind_first(keys.as_slice()),
    }
}

/// The rows of the result, which are moved.
fn results<'a>(alloc: Global, made: KeyedRowList<'a>) -> Result<RowList, NoMemory>
    ensures { IfOk result (λ rows. rows ≡ map (λ row. row.row) made.entry) }
{
    let mut rows = RowList::with_capacity(alloc, made.len())?;
    for keyed in made.into_vec() {
        rows.push(keyed.row)?;
    }
    Ok(rows)
}
