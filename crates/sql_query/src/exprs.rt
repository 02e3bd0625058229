//! Expressions over the ones below them.

ghost use Rattle.std.specs.Prelude.{◌≡◌, IfOk};
ghost use Rattle.sql_query.specs.Exprs.{cast as cast_tree, chain as chain_tree, minus as minus_tree, negation as negation_tree, plus as plus_tree};
ghost use Rattle.sql_query.specs.View.{expr_of, steps_of};

use crate::tree::{Expr, ExprStep};
use osq_value::{Affinity, NoMemory};
use std::alloc::Global;

/// An operand with its steps, of which there may be none.
pub fn chain(alloc: Global, first: Expr, steps: Vec<ExprStep>) -> Result<Expr, NoMemory>
    ensures { IfOk result (λ e. expr_of e ≡ chain_tree (expr_of first) (steps_of steps.items)) }
{
    Ok(Expr::Chain {
        first: Box::new(alloc, first)?,
        steps,
    })
}

/// NOT of an expression.
pub fn negation(alloc: Global, inner: Expr) -> Result<Expr, NoMemory>
    ensures { IfOk result (λ e. expr_of e ≡ negation_tree (expr_of inner)) }
{
    Ok(Expr::Negation {
        inner: Box::new(alloc, inner)?,
    })
}

/// An expression behind the sign `-`.
pub fn minus(alloc: Global, inner: Expr) -> Result<Expr, NoMemory>
    ensures { IfOk result (λ e. expr_of e ≡ minus_tree (expr_of inner)) }
{
    Ok(Expr::Minus {
        inner: Box::new(alloc, inner)?,
    })
}

/// An expression behind the sign `+`.
pub fn plus(alloc: Global, inner: Expr) -> Result<Expr, NoMemory>
    ensures { IfOk result (λ e. expr_of e ≡ plus_tree (expr_of inner)) }
{
    Ok(Expr::Plus {
        inner: Box::new(alloc, inner)?,
    })
}

/// CAST of an expression to this affinity.
pub fn cast(alloc: Global, inner: Expr, affinity: Affinity) -> Result<Expr, NoMemory>
    ensures { IfOk result (λ e. expr_of e ≡ cast_tree (expr_of inner) affinity) }
{
    Ok(Expr::Cast {
        inner: Box::new(alloc, inner)?,
        affinity,
    })
}
