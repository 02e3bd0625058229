//! Expressions that are columns.
ghost use Rattle.std.specs.Prelude.{◌≡◌, ◌∷◌, [], IfSome, List, map};
ghost use Rattle.osq_value.specs.declared.value.Value.{Value};
ghost use Rattle.sql_query.specs.Resolved.{result_of};
ghost use Rattle.sql_query.specs.View.{expr_of};
ghost use Rattle.sql_meaning.specs.Expressions.{alone, value_at, value_of};

use sql_query::query::QueryItem;
use sql_query::tree::Expr;

/// The place of the only item of the result, where that is a column.
pub(crate) fn only_column(items: &[QueryItem]) -> Option<u32>
    ensures { IfSome result (λ place. (row : List Value) → map (λ item. value_of (alone row) item.expr) (map result_of items.now) ≡ value_at row place ∷ []) }
{
    match items {
        [item] => place_of(&item.expr),
        _ => None,
    }
}

/// The place of the only expression, where that is a column.
pub(crate) fn only_key(keys: &[Expr]) -> Option<u32>
    ensures { IfSome result (λ place. (row : List Value) → map (value_of (alone row)) (map expr_of keys.now) ≡ value_at row place ∷ []) }
{
    match keys {
        [key] => place_of(key),
        _ => None,
    }
}

/// The place of a column in a row.
pub(crate) fn place_of(expr: &Expr) -> Option<u32>
    ensures { IfSome result (λ place. (row : List Value) → value_of (alone row) (expr_of expr.now) ≡ value_at row place) }
{
    match expr {
        Expr::Column { at, .. } => Some(*at),
        _ => None,
    }
}
