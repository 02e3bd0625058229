//! When two resolved expressions are one tree.

ghost use Rattle.std.specs.Prelude.{◌≡◌, Decides};
ghost use Rattle.sql_query.specs.View.{expr_of, step_of, steps_of, exprs_of, aggregate_of};

use crate::tree::{Aggregate, Expr, ExprStep};

/// Whether two expressions are one tree.
#[cycle(same)]
pub fn is_one_expr(expr: &Expr, other: &Expr) -> bool
    ensures { Decides result (expr_of expr.now ≡ expr_of other.now) }
{
    match (expr, other) {
        (Expr::Literal { value }, Expr::Literal { value: second }) => *value == *second,
        (
            Expr::Column {
                source,
                column,
                at,
                affinity,
            },
            Expr::Column {
                source: second_source,
                column: second_column,
                at: second_at,
                affinity: second_affinity,
            },
        ) => {
            *source == *second_source
                && *column == *second_column
                && *at == *second_at
                && *affinity == *second_affinity
        }
        (
            Expr::Chain { first, steps },
            Expr::Chain {
                first: second,
                steps: second_steps,
            },
        ) => is_one_expr(first, second) && are_one_chain(steps, second_steps),
        (Expr::Negation { inner }, Expr::Negation { inner: second })
        | (Expr::Minus { inner }, Expr::Minus { inner: second })
        | (Expr::Plus { inner }, Expr::Plus { inner: second }) => is_one_expr(inner, second),
        (
            Expr::Cast { inner, affinity },
            Expr::Cast {
                inner: second,
                affinity: second_affinity,
            },
        ) => *affinity == *second_affinity && is_one_expr(inner, second),
        (
            Expr::Call {
                function,
                arguments,
            },
            Expr::Call {
                function: second_function,
                arguments: second,
            },
        ) => *function == *second_function && are_one_list(arguments, second),
        (Expr::Folded { aggregate }, Expr::Folded { aggregate: second }) => {
            is_one_aggregate(aggregate, second)
        }
        _ => false,
    }
}

#[cycle(same)]
fn is_one_aggregate(aggregate: &Aggregate, other: &Aggregate) -> bool
    ensures { Decides result (aggregate_of aggregate.now ≡ aggregate_of other.now) }
{
    if aggregate.fold != other.fold {
        return false;
    }
    if aggregate.is_distinct != other.is_distinct {
        return false;
    }
    match &aggregate.argument {
        None => other.argument.is_none(),
        Some(argument) => match &other.argument {
            None => false,
            Some(second) => is_one_expr(argument, second),
        },
    }
}

#[cycle(same)]
fn is_one_step(step: &ExprStep, other: &ExprStep) -> bool
    ensures { Decides result (step_of step.now ≡ step_of other.now) }
{
    match step {
        ExprStep::Binary { op, right } => match other {
            ExprStep::Binary {
                op: second_op,
                right: second,
            } => *op == *second_op && is_one_expr(right, second),
            _ => false,
        },
        ExprStep::In { is_negated, items } => match other {
            ExprStep::In {
                is_negated: second_flag,
                items: second,
            } => *is_negated == *second_flag && are_one_list(items, second),
            _ => false,
        },
        ExprStep::Between {
            is_negated,
            low,
            high,
        } => match other {
            ExprStep::Between {
                is_negated: second_flag,
                low: second_low,
                high: second_high,
            } => {
                *is_negated == *second_flag
                    && is_one_expr(low, second_low)
                    && is_one_expr(high, second_high)
            }
            _ => false,
        },
    }
}

#[cycle(same)]
fn are_one_list(exprs: &[Expr], others: &[Expr]) -> bool
    ensures { Decides result (exprs_of exprs.now ≡ exprs_of others.now) }
{
    if exprs.len() != others.len() {
        return false;
    }
    for at in 0..exprs.len() {
        if !is_one_expr(&exprs[at], &others[at]) {
            return false;
        }
    }
    true
}

#[cycle(same)]
fn are_one_chain(steps: &[ExprStep], others: &[ExprStep]) -> bool
    ensures { Decides result (steps_of steps.now ≡ steps_of others.now) }
{
    if steps.len() != others.len() {
        return false;
    }
    for at in 0..steps.len() {
        if !is_one_step(&steps[at], &others[at]) {
            return false;
        }
    }
    true
}
