//! Queries with groups that are folded row by row: the columns of the result, and what HAVING asks of them.
ghost use Rattle.std.specs.Prelude.{◌≡◌, ◌++◌, ◌∷◌, [], IfOk, IfSome, List, OnOk, drop, filter, map, take, true};
ghost use Rattle.osq_value.specs.declared.value.Value.{Value};
ghost use Rattle.sql_query.specs.Resolved.{query_of};
ghost use Rattle.sql_query.specs.View.{expr_of};
ghost use Rattle.sql_meaning.specs.Worths.{worths};
ghost use Rattle.sql_groups.specs.declared.items.GroupItem.{GroupItem as GroupItemOf};
ghost use Rattle.sql_groups.specs.Folding.{item_over};
ghost use Rattle.sql_groups.specs.Grouping.{IsFolded};
ghost use Rattle.sql_groups.specs.Having.{AddsTest, HasSides, IsGrouping, compared, tests_hold};

use crate::grouped::{GroupSoFar, result_row};
use crate::items::{GroupItemList, group_items, push_item};
use osq_value::{Affinity, NoMemory};
use sql_meaning::worth::{ResultRow, ResultRowList, Worth};
use sql_meaning::{affinity_of, is_true};
use sql_query::query::Query;
use sql_query::tree::{Expr, ExprStep};
use sql_scalar::apply;
use sql_tree::tree::Operator;
use std::alloc::Global;

/// A conjunct of HAVING, whose sides stand behind the columns of the result.
#[derive(Clone, Copy, Drop)]
pub(crate) enum GroupTest {
    /// The next of them.
    Plain,
    /// What an operator gives for the next two, each with its affinity.
    Applied {
        op: Operator,
        first: Option<Affinity>,
        second: Option<Affinity>,
    },
}

/// What is folded for each group.
#[derive(Drop)]
pub(crate) struct Grouping<'a> {
    /// The columns of the result and what a row is sorted by, and behind them the sides of HAVING.
    pub items: GroupItemList<'a>,
    /// How many stand before the sides of HAVING.
    pub count: usize,
    /// The conjuncts of HAVING.
    pub tests: Vec<GroupTest>,
}

/// What is folded for each group of a query, where all of it can be.
pub(crate) fn grouping_of<'a>(
    alloc: Global,
    query: &'a Query,
) -> Result<Option<Grouping<'a>>, NoMemory>
    ensures { IfOk result (λ found. IfSome found (IsGrouping (query_of query.entry.now))) }
{
    let Some(mut items) = group_items(alloc, query)? else {
        return Ok(None);
    };
    let count = items.len();
    let mut tests = Vec::new(alloc);
    if push_sides(&mut items, &mut tests, query.having.parts.as_slice())? {
        Ok(Some(Grouping {
            items,
            count,
            tests,
        }))
    } else {
        Ok(None)
    }
}

/// Adds the conjuncts of HAVING and their sides. The answer is false where a side can't be folded.
fn push_sides<'a>(
    items: &mut GroupItemList<'a>,
    tests: &mut Vec<GroupTest>,
    parts: &'a [Expr],
) -> Result<bool, NoMemory>
    ensures { IfOk result (λ is_pushed. is_pushed ≡ true → (rows : List (List Value)) → HasSides (map expr_of parts.entry.now) rows items.old tests.old.items items.new tests.new.items) }
{
    let [part, others @ ..] = parts else {
        return Ok(true);
    };
    if push_test(items, tests, part)? {
        push_sides(items, tests, others)
    } else {
        Ok(false)
    }
}

/// Adds a conjunct of HAVING and its sides.
fn push_test<'a>(
    items: &mut GroupItemList<'a>,
    tests: &mut Vec<GroupTest>,
    part: &'a Expr,
) -> Result<bool, NoMemory>
    ensures { IfOk result (λ is_pushed. is_pushed ≡ true → (rows : List (List Value)) → AddsTest (expr_of part.entry.now) rows items.old tests.old.items items.new tests.new.items) }
{
    match part {
        Expr::Chain { first, steps } => match steps.as_slice() {
            [ExprStep::Binary { op, right }] => push_applied(items, tests, first, *op, right),
            _ => push_plain(items, tests, part),
        },
        _ => push_plain(items, tests, part),
    }
}

fn push_plain<'a>(
    items: &mut GroupItemList<'a>,
    tests: &mut Vec<GroupTest>,
    part: &'a Expr,
) -> Result<bool, NoMemory>
    ensures { IfOk result (λ is_pushed. is_pushed ≡ true → (rows : List (List Value)) → AddsTest (expr_of part.entry.now) rows items.old tests.old.items items.new tests.new.items) }
{
    if !push_item(items, part)? {
        return Ok(false);
    }
    tests.push(GroupTest::Plain)?;
    Ok(true)
}

fn push_applied<'a>(
    items: &mut GroupItemList<'a>,
    tests: &mut Vec<GroupTest>,
    first: &'a Expr,
    op: Operator,
    right: &'a Expr,
) -> Result<bool, NoMemory>
    ensures { IfOk result (λ is_pushed. is_pushed ≡ true → (rows : List (List Value)) → AddsTest (compared (expr_of first.entry.now) op (expr_of right.entry.now)) rows items.old tests.old.items items.new tests.new.items) }
{
    if !push_item(items, first)? {
        return Ok(false);
    }
    if !push_item(items, right)? {
        return Ok(false);
    }
    tests.push(GroupTest::Applied {
        op,
        first: affinity_of(first),
        second: affinity_of(right),
    })?;
    Ok(true)
}

/// A row of the result for each group that HAVING keeps, with what it is sorted by. None where a count leaves 64 bits.
pub(crate) fn kept_rows<'a>(
    alloc: Global,
    groups: &[GroupSoFar<'a>],
    count: usize,
    tests: &[GroupTest],
) -> Result<Option<ResultRowList<'a>>, NoMemory>
    ensures { IfOk result (λ made. IfSome made (λ rows. (items : List GroupItemOf) (lists : List (List (List Value))) → IsFolded items lists groups.now → map worths rows ≡ map (take count) (filter (λ values. tests_hold tests.now (drop count values)) (map (λ rows. map (λ item. item_over item rows) items) lists)))) }
{
    let mut rows = ResultRowList::new(alloc);
    for group in groups {
        let Some(row) = result_row(alloc, group.as_slice())? else {
            return Ok(None);
        };
        push_tested(alloc, &mut rows, row, count, tests)?;
    }
    Ok(Some(rows))
}

/// Adds the first values of a row, where the tests hold of the others.
fn push_tested<'a>(
    alloc: Global,
    rows: &mut ResultRowList<'a>,
    row: ResultRow<'a>,
    count: usize,
    tests: &[GroupTest],
) -> Result<(), NoMemory>
    ensures { OnOk result (map worths rows.new ≡ map worths rows.old ++ map (take count) (filter (λ values. tests_hold tests.now (drop count values)) (worths row.entry ∷ []))) }
{
    if do_tests_hold(alloc, tests, behind(&row, count))? {
        rows.push(front(row, count))?;
    }
    Ok(())
}

/// The values behind the first so many.
fn behind<'a, 'b>(row: &'b ResultRow<'a>, count: usize) -> &'b [Worth<'a>]
    ensures { worths result.now ≡ drop count (worths row.now) }
{
    let values = row.as_slice();
    values.split_at(count.min(values.len())).1
}

/// The first so many values.
fn front<'a>(row: ResultRow<'a>, count: usize) -> ResultRow<'a>
    ensures { worths result ≡ take count (worths row.entry) }
{
    let mut kept = row.into_vec();
    kept.truncate(count);
    ResultRow::from_vec(kept)
}

/// Whether each test holds of these sides.
fn do_tests_hold(alloc: Global, tests: &[GroupTest], sides: &[Worth]) -> Result<bool, NoMemory>
    ensures { IfOk result (λ truth. truth ≡ tests_hold tests.now (worths sides.now)) }
{
    let [test, others @ ..] = tests else {
        return Ok(true);
    };
    match (*test, sides) {
        (GroupTest::Plain, [side, more @ ..]) => {
            if is_true(side.as_value()) {
                do_tests_hold(alloc, others, more)
            } else {
                Ok(false)
            }
        }
        (GroupTest::Plain, []) => Ok(false),
        (GroupTest::Applied { op, first, second }, [left, right, more @ ..]) => {
            let value = apply(
                alloc,
                op,
                left.as_value(),
                right.as_value(),
                (first, second),
            )?;
            if is_true(&value) {
                do_tests_hold(alloc, others, more)
            } else {
                Ok(false)
            }
        }
        (GroupTest::Applied { .. }, [_]) => Ok(false),
        (GroupTest::Applied { .. }, []) => Ok(false),
    }
}
