//! The tests that a condition comes to.
ghost use Rattle.std.specs.Prelude.{◌≡◌, IfOk, IfSome, List, None, map};
ghost use Rattle.std.specs.List.{list_all};
ghost use Rattle.osq_value.specs.declared.value.Value.{Value as ValueOf};
ghost use Rattle.sql_meaning.specs.Expressions.{alone, holds, is_true, negated, value_after, value_by, value_of};
ghost use Rattle.sql_query.specs.Exprs.{among, between, binary, chain};
ghost use Rattle.sql_query.specs.View.{expr_of, exprs_of, step_of, steps_of};
ghost use Rattle.sql_scalar.specs.Operators.{apply_of};
ghost use Rattle.sql_tree.specs.declared.tree.Operator.TheVariants as operator;
ghost use Rattle.sql_planner.specs.RowTests.{passes, passes_one, passes_some, turned_by};

use crate::constants::constant;
use crate::item_set::item_set;
use crate::row_tests::{RowTest, TestList, TestLists, ValueTest};
use osq_value::{Affinity, NoMemory, Value};
use sql_meaning::affinity_of;
use sql_query::tree::{Expr, ExprStep};
use sql_tree::tree::Operator;
use std::alloc::Global;
use virtual_tables::turn;

/// The tests of a condition, a list for each part of it. A row passes one of each list just where the condition holds.
pub(crate) fn tests_of<'a>(alloc: Global, parts: &'a [Expr]) -> Result<TestLists<'a>, NoMemory>
    ensures { IfOk result (λ lists. (row : List ValueOf) → list_all (passes_some row) lists ≡ holds (alone row) (map expr_of parts.entry.now)) }
{
    let mut lists = TestLists::with_capacity(alloc, parts.len())?;
    for part in parts {
        lists.push(tests_for(alloc, part)?)?;
    }
    Ok(lists)
}

/// The tests of a part of a condition, one for each side of an OR.
fn tests_for<'a>(alloc: Global, part: &'a Expr) -> Result<TestList<'a>, NoMemory>
    ensures { IfOk result (λ tests. (row : List ValueOf) → passes_some row tests ≡ is_true (value_of (alone row) (expr_of part.entry.now))) }
{
    if let Expr::Chain { first, steps } = part {
        if let Some(tests) = tests_of_or(alloc, first, steps.as_slice())? {
            return Ok(tests);
        }
    }
    one_test(alloc, part)
}

/// The tests of the sides of an OR, where the steps are its.
fn tests_of_or<'a>(
    alloc: Global,
    first: &'a Expr,
    steps: &'a [ExprStep],
) -> Result<Option<TestList<'a>>, NoMemory>
    ensures { IfOk result (λ found. IfSome found (λ tests. (row : List ValueOf) → passes_some row tests ≡ is_true (value_of (alone row) (chain (expr_of first.entry.now) (steps_of steps.entry.now))))) }
{
    let mut tests = one_test(alloc, first)?;
    for step in steps {
        let Some(side) = side_of_or(step) else {
            return Ok(None);
        };
        tests.push(test_for(alloc, side)?)?;
    }
    Ok(Some(tests))
}

/// What stands at the right of an OR.
fn side_of_or(step: &ExprStep) -> Option<&Expr>
    ensures { IfSome result (λ side. step_of step.now ≡ binary operator.Or (expr_of side.now)) }
{
    match step {
        ExprStep::Binary {
            op: Operator::Or,
            right,
        } => Some(right),
        _ => None,
    }
}

fn one_test<'a>(alloc: Global, expr: &'a Expr) -> Result<TestList<'a>, NoMemory>
    ensures { IfOk result (λ tests. (row : List ValueOf) → passes_some row tests ≡ is_true (value_of (alone row) (expr_of expr.entry.now))) }
{
    let mut tests = TestList::with_capacity(alloc, 1)?;
    tests.push(test_for(alloc, expr)?)?;
    Ok(tests)
}

/// The test that an expression is: of its first operand, where one step with constants is behind that, else of its own value.
fn test_for<'a>(alloc: Global, expr: &'a Expr) -> Result<RowTest<'a>, NoMemory>
    ensures { IfOk result (λ test. (row : List ValueOf) → passes_one row test ≡ is_true (value_of (alone row) (expr_of expr.entry.now))) }
{
    if let Expr::Chain { first, steps } = expr {
        if let Some(test) = steps_test(alloc, affinity_of(first), steps.as_slice())? {
            return Ok(RowTest { left: first, test });
        }
    }
    Ok(RowTest {
        left: expr,
        test: ValueTest::IsTrue,
    })
}

/// The test of the first operand that the steps are, where there is one with constants.
fn steps_test(
    alloc: Global,
    affinity: Option<Affinity>,
    steps: &[ExprStep],
) -> Result<Option<ValueTest>, NoMemory>
    ensures { IfOk result (λ found. IfSome found (λ test. (row : List ValueOf) (value : ValueOf) → passes test value ≡ is_true (value_after (alone row) affinity value (steps_of steps.now)))) }
{
    let [step, others @ ..] = steps else {
        return Ok(None);
    };
    if others.is_empty() {
        step_test(alloc, affinity, step)
    } else {
        Ok(None)
    }
}

fn step_test(
    alloc: Global,
    affinity: Option<Affinity>,
    step: &ExprStep,
) -> Result<Option<ValueTest>, NoMemory>
    ensures { IfOk result (λ found. IfSome found (λ test. (row : List ValueOf) (value : ValueOf) → passes test value ≡ is_true (value_by (alone row) affinity value (step_of step.now)))) }
{
    match step {
        ExprStep::Binary { op, right } => applied(alloc, affinity, *op, right),
        ExprStep::In { is_negated, items } => chosen(
            alloc,
            affinity,
            *is_negated,
            items.as_slice(),
        ),
        ExprStep::Between {
            is_negated,
            low,
            high,
        } => bounded(alloc, affinity, *is_negated, low, high),
    }
}

/// The test by an operator with a constant at its right.
fn applied(
    alloc: Global,
    affinity: Option<Affinity>,
    op: Operator,
    right: &Expr,
) -> Result<Option<ValueTest>, NoMemory>
    ensures { IfOk result (λ found. IfSome found (λ test. (row : List ValueOf) (value : ValueOf) → passes test value ≡ is_true (value_by (alone row) affinity value (binary op (expr_of right.now))))) }
{
    let Some(value) = constant(alloc, right)? else {
        return Ok(None);
    };
    let constant = turned_by(alloc, op, affinity, value)?;
    Ok(Some(ValueTest::Applied { op, constant }))
}

/// A constant at the right of an operator: comparisons alone look at affinities.
fn turned_by(
    alloc: Global,
    op: Operator,
    affinity: Option<Affinity>,
    value: Value,
) -> Result<Value, NoMemory>
    ensures { IfOk result (λ made. made ≡ turned_by op affinity value) }
{
    match op {
        Operator::Equal
        | Operator::NotEqual
        | Operator::Less
        | Operator::LessEqual
        | Operator::Greater
        | Operator::GreaterEqual
        | Operator::Is
        | Operator::IsNot => turn(alloc, affinity, &value),
        _ => Ok(value),
    }
}

/// The test by IN, whose items are looked up.
fn chosen(
    alloc: Global,
    affinity: Option<Affinity>,
    is_negated: bool,
    items: &[Expr],
) -> Result<Option<ValueTest>, NoMemory>
    ensures { IfOk result (λ found. IfSome found (λ test. (row : List ValueOf) (value : ValueOf) → passes test value ≡ is_true (value_by (alone row) affinity value (among is_negated (exprs_of items.now))))) }
{
    match item_set(alloc, affinity, items)? {
        None => Ok(None),
        Some(items) => Ok(Some(ValueTest::Among { is_negated, items })),
    }
}

/// The test by BETWEEN.
fn bounded(
    alloc: Global,
    affinity: Option<Affinity>,
    is_negated: bool,
    low: &Expr,
    high: &Expr,
) -> Result<Option<ValueTest>, NoMemory>
    ensures { IfOk result (λ found. IfSome found (λ test. (row : List ValueOf) (value : ValueOf) → passes test value ≡ is_true (value_by (alone row) affinity value (between is_negated (expr_of low.now) (expr_of high.now))))) }
{
    let Some(least) = constant(alloc, low)? else {
        return Ok(None);
    };
    let Some(most) = constant(alloc, high)? else {
        return Ok(None);
    };
    let low = turn(alloc, affinity, &least)?;
    let high = turn(alloc, affinity, &most)?;
    Ok(Some(ValueTest::Between {
        is_negated,
        low,
        high,
    }))
}
