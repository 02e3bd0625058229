//! Expressions that are worth the same over every row.
ghost use Rattle.std.specs.Prelude.{◌≡◌, IfOk, IfSome, List, None};
ghost use Rattle.osq_value.specs.declared.value.Value.{Value as ValueOf};
ghost use Rattle.sql_meaning.specs.Expressions.{affinity_of, alone, value_of};
ghost use Rattle.sql_scalar.specs.Arithmetic.{minus_of};
ghost use Rattle.sql_query.specs.View.{expr_of};

use osq_value::{Copied, NoMemory, Value};
use sql_query::tree::Expr;
use sql_scalar::minus;
use std::alloc::Global;

/// The value of an expression that is a literal, or one with the sign `-`. It has no affinity.
pub(crate) fn constant(alloc: Global, expr: &Expr) -> Result<Option<Value>, NoMemory>
    ensures worth { IfOk result (λ found. IfSome found (λ value. (row : List ValueOf) → value_of (alone row) (expr_of expr.now) ≡ value)) }
    ensures bare { IfOk result (λ found. IfSome found (λ value. affinity_of (expr_of expr.now) ≡ None)) }
{
    match expr {
        Expr::Literal { value } => Ok(Some(value.copy(alloc)?)),
        Expr::Minus { inner } => Ok(opposite(inner)),
        _ => Ok(None),
    }
}

/// The value of a literal with the sign `-`.
fn opposite(inner: &Expr) -> Option<Value>
    ensures { IfSome result (λ value. (row : List ValueOf) → minus_of (value_of (alone row) (expr_of inner.now)) ≡ value) }
{
    match inner {
        Expr::Literal { value } => Some(minus(value)),
        _ => None,
    }
}
