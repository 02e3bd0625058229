//! Expressions that look at the first values of a row alone.
ghost use Rattle.std.specs.Prelude.{◌≡◌, true};
ghost use Rattle.sql_query.specs.View.{expr_of, exprs_of, step_of, steps_of};
ghost use Rattle.sql_planner.specs.Within.{AreStepsWithin, AreWithin, IsStepWithin, IsWithin};

use sql_query::tree::{Expr, ExprStep};

/// Whether an expression looks at the first `width` values of a row alone. An aggregate is never said to.
#[cycle(within)]
pub(crate) fn is_within(expr: &Expr, width: usize) -> bool
    ensures { result ≡ true → IsWithin width (expr_of expr.now) }
{
    match expr {
        Expr::Literal { .. } => true,
        Expr::Column { at, .. } => (*at as usize) < width,
        Expr::Chain { first, steps } => is_within(first, width) && are_steps_within(steps, width),
        Expr::Negation { inner } => is_within(inner, width),
        Expr::Minus { inner } => is_within(inner, width),
        Expr::Plus { inner } => is_within(inner, width),
        Expr::Cast { inner, .. } => is_within(inner, width),
        Expr::Call { arguments, .. } => are_within(arguments, width),
        Expr::Folded { .. } => false,
    }
}

/// Whether each of these expressions does.
#[cycle(within)]
fn are_within(exprs: &[Expr], width: usize) -> bool
    ensures { result ≡ true → AreWithin width (exprs_of exprs.now) }
{
    for at in 0..exprs.len() {
        if !is_within(&exprs[at], width) {
            return false;
        }
    }
    true
}

/// Whether the operands of these steps do.
#[cycle(within)]
fn are_steps_within(steps: &[ExprStep], width: usize) -> bool
    ensures { result ≡ true → AreStepsWithin width (steps_of steps.now) }
{
    for at in 0..steps.len() {
        if !is_step_within(&steps[at], width) {
            return false;
        }
    }
    true
}

/// Whether the operands of a step do.
#[cycle(within)]
fn is_step_within(step: &ExprStep, width: usize) -> bool
    ensures { result ≡ true → IsStepWithin width (step_of step.now) }
{
    match step {
        ExprStep::Binary { right, .. } => is_within(right, width),
        ExprStep::In { items, .. } => are_within(items, width),
        ExprStep::Between { low, high, .. } => is_within(low, width) && is_within(high, width),
    }
}
