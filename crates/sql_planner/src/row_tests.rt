//! Tests of rows, which are made once for all rows of a table.
ghost use Rattle.std.specs.Prelude.{◌≡◌, IfOk, IfSome, None};
ghost use Rattle.std.specs.List.{list_all};
ghost use Rattle.osq_value.specs.Order.{order_of};
ghost use Rattle.sql_meaning.specs.Expressions.{is_true, negated, value_at};
ghost use Rattle.sql_meaning.specs.Lent.{values_in};
ghost use Rattle.sql_scalar.specs.Comparison.{between_of, unless_null};
ghost use Rattle.sql_scalar.specs.Operators.{apply_of};
ghost use Rattle.sql_scalar.specs.Truth.{both, from_truth};
ghost use Rattle.sql_planner.specs.RowTests.{passes, passes_one, passes_some};

use crate::item_set::{ItemSet, found_in};
use osq_value::{NoMemory, Sequence, Value, compare};
use sql_meaning::{Joined, Over, evaluate_over, is_true, value_in};
use sql_query::tree::Expr;
use sql_scalar::apply;
use sql_tree::tree::Operator;
use std::alloc::Global;
use std::cmp::Ordering;

/// What is asked of a value. The constants are turned by the affinity that the value has, so that no affinity is looked at any more.
#[derive(Drop)]
pub(crate) enum ValueTest {
    /// It is true.
    IsTrue,
    /// The operator gives what is true, with the constant at its right.
    Applied {
        op: Operator,
        constant: Value,
    },
    /// It lies between two constants, or doesn't.
    Between {
        is_negated: bool,
        low: Value,
        high: Value,
    },
    /// It is one of the items, or isn't.
    Among {
        is_negated: bool,
        items: ItemSet,
    },
}

/// What is asked of a row: a test of what an expression is worth over it.
#[derive(Drop)]
pub(crate) struct RowTest<'a> {
    /// The expression.
    pub left: &'a Expr,
    /// The test of its value.
    pub test: ValueTest,
}

/// Tests of which a row is to pass one, as the sides of an OR.
pub(crate) type TestList<'a> = Sequence<RowTest<'a>>;

/// Lists of tests, of each of which a row is to pass one.
pub(crate) type TestLists<'a> = Sequence<TestList<'a>>;

/// Whether a row passes a test of each list. It is asked no further than to the first list of which it passes none.
pub(crate) fn passes_all(alloc: Global, lists: &[TestList], row: Joined) -> Result<bool, NoMemory>
    ensures { IfOk result (λ answer. answer ≡ list_all (passes_some (values_in row.entry)) lists.now) }
{
    let mut rest = lists;
    while let [tests, others @ ..] = rest {
        if !passes_some(alloc, tests.as_slice(), row)? {
            return Ok(false);
        }
        rest = others;
    }
    Ok(true)
}

/// Whether a row passes one of the tests. It is asked no further than to the first that it passes.
fn passes_some(alloc: Global, tests: &[RowTest], row: Joined) -> Result<bool, NoMemory>
    ensures { IfOk result (λ answer. answer ≡ passes_some (values_in row.entry) tests.now) }
{
    let mut rest = tests;
    while let [test, others @ ..] = rest {
        if passes_one(alloc, test, row)? {
            return Ok(true);
        }
        rest = others;
    }
    Ok(false)
}

fn passes_one(alloc: Global, test: &RowTest, row: Joined) -> Result<bool, NoMemory>
    ensures { IfOk result (λ answer. answer ≡ passes_one (values_in row.entry) test.now) }
{
    match test.left {
        Expr::Column { at, .. } => passes_column(alloc, &test.test, row, *at),
        left => {
            let worth = evaluate_over(alloc, Over::Lent { row }, left)?;
            passes(alloc, &test.test, worth.as_value())
        }
    }
}

/// Whether the value at a place of a row passes the test.
fn passes_column(alloc: Global, test: &ValueTest, row: Joined, at: u32) -> Result<bool, NoMemory>
    ensures { IfOk result (λ answer. answer ≡ passes test.now (value_at (values_in row.entry) at)) }
{
    match value_in(row, at) {
        Some(value) => passes(alloc, test, value),
        None => passes(alloc, test, &Value::Null),
    }
}

pub(crate) fn passes(alloc: Global, test: &ValueTest, value: &Value) -> Result<bool, NoMemory>
    ensures { IfOk result (λ answer. answer ≡ passes test.now value.now) }
{
    match test {
        ValueTest::IsTrue => Ok(is_true(value)),
        ValueTest::Applied { op, constant } => is_so(alloc, *op, value, constant),
        ValueTest::Between {
            is_negated,
            low,
            high,
        } => Ok(is_between(*is_negated, value, low, high)),
        ValueTest::Among { is_negated, items } => {
            Ok(is_wanted(*is_negated, found_in(items, value)))
        }
    }
}

/// Whether an operator gives what is true. Comparisons make no value of it.
fn is_so(alloc: Global, op: Operator, left: &Value, right: &Value) -> Result<bool, NoMemory>
    ensures { IfOk result (λ answer. answer ≡ is_true (apply_of op None None left.now right.now)) }
{
    match outcome(op, left, right) {
        Some(answer) => Ok(is_wanted(false, known(left, right, answer))),
        None => {
            let value = apply(alloc, op, left, right, (None, None))?;
            Ok(is_true(&value))
        }
    }
}

/// What a comparison says of two values by their order, whether or not one of them is Null. None for any other operator.
fn outcome(op: Operator, left: &Value, right: &Value) -> Option<bool>
    ensures { IfSome result (λ answer. apply_of op None None left.now right.now ≡ from_truth (unless_null left.now right.now answer)) }
{
    match op {
        Operator::Equal => Some(order(left, right).is_eq()),
        Operator::NotEqual => Some(order(left, right).is_ne()),
        Operator::Less => Some(order(left, right).is_lt()),
        Operator::LessEqual => Some(order(left, right).is_le()),
        Operator::Greater => Some(order(left, right).is_gt()),
        Operator::GreaterEqual => Some(order(left, right).is_ge()),
        _ => None,
    }
}

/// The order of two values. That of two numbers is found here, since most tests are of them.
fn order(left: &Value, right: &Value) -> Ordering
    ensures { result ≡ order_of left.now right.now }
{
    match (left, right) {
        (Value::Int(one), Value::Int(other)) => one.cmp(other),
        _ => compare(left, right),
    }
}

/// The answer, which is unknown where a side is Null.
fn known(left: &Value, right: &Value, answer: bool) -> Option<bool>
    ensures { result ≡ unless_null left.now right.now answer }
{
    match (left, right) {
        (Value::Null, _) | (_, Value::Null) => None,
        _ => Some(answer),
    }
}

/// Whether a value lies between two others, or doesn't; neither where that is unknown.
fn is_between(is_negated: bool, value: &Value, low: &Value, high: &Value) -> bool
    ensures { result ≡ is_true (negated is_negated (between_of None None None value.now low.now high.now)) }
{
    let above = known(value, low, order(value, low).is_ge());
    let below = known(value, high, order(value, high).is_le());
    are_wanted(is_negated, above, below)
}

/// Whether both are true, or one of them is false.
fn are_wanted(is_negated: bool, above: Option<bool>, below: Option<bool>) -> bool
    ensures { result ≡ is_true (negated is_negated (from_truth (both above below))) }
{
    match (above, below) {
        (Some(false), _) | (_, Some(false)) => is_negated,
        (None, _) | (_, None) => false,
        (Some(true), Some(true)) => !is_negated,
    }
}

/// Whether a truth, or its negation, is that it is so.
fn is_wanted(is_negated: bool, truth: Option<bool>) -> bool
    ensures { result ≡ is_true (negated is_negated (from_truth truth)) }
{
    match truth {
        None => false,
        Some(truth) => { if is_negated { !truth } else { truth } }
    }
}
