//! Expressions without an aggregate.
ghost use Rattle.std.specs.Prelude.{◌≡◌, true};
ghost use Rattle.sql_query.specs.View.{expr_of, exprs_of, step_of, steps_of};
ghost use Rattle.sql_groups.specs.Alone.{AreAlone, AreStepsAlone, IsAlone, IsStepAlone};

use sql_query::tree::{Expr, ExprStep};

/// Whether an expression has no aggregate, so that over a group it is worth what it is worth over the first row.
#[cycle(alone)]
pub(crate) fn is_alone(expr: &Expr) -> bool
    ensures { result ≡ true → IsAlone (expr_of expr.now) }
{
    match expr {
        Expr::Literal { .. } => true,
        Expr::Column { .. } => true,
        Expr::Chain { first, steps } => is_alone(first) && are_steps_alone(steps),
        Expr::Negation { inner } => is_alone(inner),
        Expr::Minus { inner } => is_alone(inner),
        Expr::Plus { inner } => is_alone(inner),
        Expr::Cast { inner, .. } => is_alone(inner),
        Expr::Call { arguments, .. } => are_alone(arguments),
        Expr::Folded { .. } => false,
    }
}

/// Whether none of these expressions has one.
#[cycle(alone)]
fn are_alone(exprs: &[Expr]) -> bool
    ensures { result ≡ true → AreAlone (exprs_of exprs.now) }
{
    for at in 0..exprs.len() {
        if !is_alone(&exprs[at]) {
            return false;
        }
    }
    true
}

/// Whether the operands of these steps have none.
#[cycle(alone)]
fn are_steps_alone(steps: &[ExprStep]) -> bool
    ensures { result ≡ true → AreStepsAlone (steps_of steps.now) }
{
    for at in 0..steps.len() {
        if !is_step_alone(&steps[at]) {
            return false;
        }
    }
    true
}

/// Whether the operands of a step have none.
#[cycle(alone)]
fn is_step_alone(step: &ExprStep) -> bool
    ensures { result ≡ true → IsStepAlone (step_of step.now) }
{
    match step {
        ExprStep::Binary { right, .. } => is_alone(right),
        ExprStep::In { items, .. } => are_alone(items),
        ExprStep::Between { low, high, .. } => is_alone(low) && is_alone(high),
    }
}
