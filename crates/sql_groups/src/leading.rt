//! The first rows of those that a condition keeps, in an order.
ghost use Rattle.std.specs.Prelude.{◌≡◌, ◌++◌, ◌∷◌, [], IfOk, List, OnOk, map, true};
ghost use Rattle.osq_value.specs.declared.value.Value.{Value as ValueOf};
ghost use Rattle.osq_value.specs.Order.{order_of};
ghost use Rattle.sql_query.specs.Resolved.{order_of as term_of};
ghost use Rattle.sql_query.specs.View.{expr_of};
ghost use Rattle.sql_meaning.specs.declared.joined.Joined.{Joined as JoinedOf};
ghost use Rattle.sql_meaning.specs.Expressions.{alone, value_of};
ghost use Rattle.sql_meaning.specs.Lent.{values_in};
ghost use Rattle.sql_meaning.specs.Order.{directed, first_key, order_by};
ghost use Rattle.sql_meaning.specs.Worths.{worths};
ghost use Rattle.sql_groups.specs.Leading.{IsBehind, Leads, all_of, directions, firsts_of, kept_pairs, leading, members_of, sort_keys, sorted_row};

use crate::first_key::{compare_firsts, first_in, first_of};
use crate::kept::is_kept;
use crate::order::{behind_first, compare_keys, compare_to, directed};
use crate::worth_in::worth_in;
use osq_value::NoMemory;
use sql_meaning::groups::Keyed;
use sql_meaning::worth::{ResultRow, Worth};
use sql_meaning::{Joined, JoinedList};
use sql_query::query::{Condition, Order};
use std::alloc::Global;
use std::cmp::Ordering;

/// The fewest rows that are gathered before they are sorted.
const FEWEST: usize = 32;

/// Rows of which the first in an order are to be found, each beside what it is sorted by.
#[derive(Drop)]
pub(crate) struct Leaders<'a> {
    /// The first of those that were looked at before, in the order.
    pub best: Vec<Keyed<'a>>,
    /// Those that came behind them and may belong to the first.
    pub more: Vec<Keyed<'a>>,
}

/// The first `count` in the order of the terms, of the rows for which the condition holds. Rows that tie keep their order. About twice
/// as many are kept at a time, and most rows are compared with the last of the first ones alone.
pub(crate) fn leading<'a>(
    alloc: Global,
    terms: &'a [Order],
    condition: &Condition,
    rows: &[Joined<'a>],
    count: usize,
) -> Result<JoinedList<'a>, NoMemory>
    ensures { IfOk result (λ made. made ≡ leading (map term_of terms.entry.now) (map expr_of condition.now.parts) count rows.now) }
{
    let ways = directions(alloc, terms)?;
    let mut leaders = Leaders {
        best: Vec::new(alloc),
        more: Vec::new(alloc),
    };
    for row in rows {
        look_at(
            alloc,
            terms,
            ways.as_slice(),
            condition,
            &mut leaders,
            *row,
            count,
        )?;
    }
    gather(&mut leaders, ways.as_slice(), count)?;
    rows_of(alloc, leaders.best.as_slice())
}

/// Which of the terms are descending.
pub(crate) fn directions(alloc: Global, terms: &[Order]) -> Result<Vec<bool>, NoMemory>
    ensures { IfOk result (λ made. made.items ≡ directions (map term_of terms.now)) }
{
    let mut made = Vec::with_capacity(alloc, terms.len())?;
    for term in terms {
        made.push(term.is_descending)?;
    }
    Ok(made)
}

/// Takes a row in, where the condition holds for it.
fn look_at<'a>(
    alloc: Global,
    terms: &'a [Order],
    ways: &[bool],
    condition: &Condition,
    leaders: &mut Leaders<'a>,
    row: Joined<'a>,
    count: usize,
) -> Result<(), NoMemory>
    requires { ways.now ≡ directions (map term_of terms.now) }
    ensures { OnOk result ((rows : List JoinedOf) → Leads ways.now count (kept_pairs (map term_of terms.entry.now) (map expr_of condition.now.parts) rows) leaders.old → Leads ways.now count (kept_pairs (map term_of terms.entry.now) (map expr_of condition.now.parts) (rows ++ row.entry ∷ [])) leaders.new) }
{
    if is_kept(alloc, condition, row)? {
        take_in(alloc, terms, ways, leaders, row, count)
    } else {
        Ok(())
    }
}

/// Takes a row in, where it may belong to the first.
fn take_in<'a>(
    alloc: Global,
    terms: &'a [Order],
    ways: &[bool],
    leaders: &mut Leaders<'a>,
    row: Joined<'a>,
    count: usize,
) -> Result<(), NoMemory>
    requires { ways.now ≡ directions (map term_of terms.now) }
    ensures { OnOk result ((pairs : List (List ValueOf × JoinedOf)) → Leads ways.now count pairs leaders.old → Leads ways.now count (pairs ++ sorted_row (map term_of terms.entry.now) row.entry ∷ []) leaders.new) }
{
    if is_behind(alloc, terms, leaders.best.as_slice(), row, count)? {
        return Ok(());
    }
    make_room(leaders, ways, count)?;
    let key = keys_of(alloc, terms, row)?;
    push(leaders, Keyed { key, row })
}

/// Whether the first `count` stand before a row.
fn is_behind<'a>(
    alloc: Global,
    terms: &[Order],
    best: &[Keyed<'a>],
    row: Joined<'a>,
    count: usize,
) -> Result<bool, NoMemory>
    ensures { IfOk result (λ answer. answer ≡ true → IsBehind (directions (map term_of terms.now)) count (members_of best.now) (sorted_row (map term_of terms.now) row.entry)) }
{
    if best.len() < count {
        return Ok(false);
    }
    match best.last() {
        None => Ok(true),
        Some(last) => {
            let order = order_to(alloc, terms, row, last.key.as_slice())?;
            Ok(!order.is_lt())
        }
    }
}

/// The order of a row and of keys. No more is made of the row than it takes.
fn order_to(
    alloc: Global,
    terms: &[Order],
    row: Joined,
    keys: &[Worth],
) -> Result<Ordering, NoMemory>
    ensures { IfOk result (λ order. order ≡ order_by (directions (map term_of terms.now)) (sort_keys (map term_of terms.now) (values_in row.entry)) (worths keys.now)) }
{
    let mut rest = terms;
    let mut others = keys;
    while let [term, more @ ..] = rest {
        let order = term_order(alloc, term, row, others)?;
        if order.is_ne() {
            return Ok(order);
        }
        rest = more;
        others = behind_first(others);
    }
    Ok(Ordering::Equal)
}

/// The order by one term, of a row and of keys that begin with the one of that term.
fn term_order(
    alloc: Global,
    term: &Order,
    row: Joined,
    keys: &[Worth],
) -> Result<Ordering, NoMemory>
    ensures { IfOk result (λ order. order ≡ directed term.now.is_descending (order_of (value_of (alone (values_in row.entry)) (expr_of term.now.expr)) (first_key (worths keys.now)))) }
{
    let order = match first_in(row, &term.expr) {
        Some(first) => compare_firsts(first, first_of(keys)),
        None => compare_to(worth_in(alloc, row, &term.expr)?.as_value(), keys),
    };
    Ok(directed(term.is_descending, order))
}

/// What a row is sorted by.
pub(crate) fn keys_of<'a>(
    alloc: Global,
    terms: &'a [Order],
    row: Joined<'a>,
) -> Result<ResultRow<'a>, NoMemory>
    ensures { IfOk result (λ keys. worths keys ≡ sort_keys (map term_of terms.entry.now) (values_in row.entry)) }
{
    let mut keys = ResultRow::with_capacity(alloc, terms.len())?;
    for term in terms {
        keys.push(worth_in(alloc, row, &term.expr)?)?;
    }
    Ok(keys)
}

/// Gathers the first, where about as many have come behind them.
fn make_room(leaders: &mut Leaders, ways: &[bool], count: usize) -> Result<(), NoMemory>
    ensures { OnOk result ((pairs : List (List ValueOf × JoinedOf)) → Leads ways.now count pairs leaders.old → Leads ways.now count pairs leaders.new) }
{
    if leaders.more.len() >= count.max(FEWEST) {
        gather(leaders, ways, count)
    } else {
        Ok(())
    }
}

/// Adds a row behind those that came.
fn push<'a>(leaders: &mut Leaders<'a>, member: Keyed<'a>) -> Result<(), NoMemory>
    ensures { OnOk result ((leaders.new.best ≡ leaders.old.best) × (all_of leaders.new ≡ all_of leaders.old ++ members_of (member.entry ∷ []))) }
{
    leaders.more.push(member)?;
    Ok(())
}

/// Sorts the rows that came with the first, and keeps the first of these.
fn gather(leaders: &mut Leaders, ways: &[bool], count: usize) -> Result<(), NoMemory>
    ensures { OnOk result ((members_of leaders.new.best.items ≡ firsts_of ways.now count (all_of leaders.old)) × (leaders.new.more.items ≡ [])) }
{
    leaders.best.append(&mut leaders.more)?;
    leaders.best.sort_by(|left, right| {
        compare_keys(left.key.as_slice(), right.key.as_slice(), ways)
    })?;
    leaders.best.truncate(count);
    Ok(())
}

fn rows_of<'a>(alloc: Global, members: &[Keyed<'a>]) -> Result<JoinedList<'a>, NoMemory>
    ensures { IfOk result (λ rows. rows ≡ map (λ member. member.row) members.now) }
{
    let mut rows = JoinedList::with_capacity(alloc, members.len())?;
    for member in members {
        rows.push(member.row)?;
    }
    Ok(rows)
}
