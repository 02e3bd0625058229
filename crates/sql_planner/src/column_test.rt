//! Conjuncts that test a column with a literal behind it.
ghost use Rattle.std.specs.Prelude.{◌≡◌, IfSome};
ghost use Rattle.sql_query.specs.Exprs.{binary, chain, literal, no_steps, then};
ghost use Rattle.sql_query.specs.View.{expr_of, step_of, steps_of};
ghost use Rattle.sql_planner.specs.Pushed.{IsColumnTest};

use crate::comparison::column_in;
use osq_value::{Affinity, Value};
use sql_query::tree::{Expr, ExprStep};
use sql_tree::tree::Operator;

/// A column, by its place and affinity, and a literal behind it, with the operator between them.
#[derive(Clone, Copy)]
pub(crate) struct ColumnTest<'a> {
    /// The column's place in a joined row, from 0.
    pub at: u32,
    /// The column's affinity; none where no table gives it one.
    pub affinity: Option<Affinity>,
    /// The operator, with the column on its left side.
    pub op: Operator,
    /// The literal on its right side.
    pub value: &'a Value,
}

/// The test of a column that an expression is.
pub(crate) fn column_test(part: &Expr) -> Option<ColumnTest>
    ensures { IfSome result (IsColumnTest (expr_of part.now)) }
{
    match part {
        Expr::Chain { first, steps } => test_by_steps(first, steps.as_slice()),
        _ => None,
    }
}

fn test_by_steps<'a>(first: &Expr, steps: &'a [ExprStep]) -> Option<ColumnTest<'a>>
    ensures { IfSome result (IsColumnTest (chain (expr_of first.now) (steps_of steps.entry.now))) }
{
    if steps.len() == 1 {
        test_by_step(first, &steps[0])
    } else {
        None
    }
}

fn test_by_step<'a>(first: &Expr, step: &'a ExprStep) -> Option<ColumnTest<'a>>
    ensures { IfSome result (IsColumnTest (chain (expr_of first.now) (then no_steps (step_of step.entry.now)))) }
{
    let Some(place) = column_in(first) else {
        return None;
    };
    let Some((op, right)) = binary(step) else {
        return None;
    };
    let Some(value) = literal(right) else {
        return None;
    };
    Some(ColumnTest {
        at: place.at,
        affinity: place.affinity,
        op,
        value,
    })
}

/// An operator with its right side, if the step is one.
fn binary(step: &ExprStep) -> Option<(Operator, &Expr)>
    ensures { IfSome result (λ found. step_of step.now ≡ binary found.0 (expr_of found.1.now)) }
{
    match step {
        ExprStep::Binary { op, right } => Some((*op, right)),
        _ => None,
    }
}

fn literal(expr: &Expr) -> Option<&Value>
    ensures { IfSome result (λ value. expr_of expr.now ≡ literal value.now) }
{
    match expr {
        Expr::Literal { value } => Some(value),
        _ => None,
    }
}
