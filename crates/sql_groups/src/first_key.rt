//! The first of what a row is sorted by.
ghost use Rattle.std.specs.Prelude.{◌≡◌, IfSome, None};
ghost use Rattle.osq_value.specs.Order.{order_of};
ghost use Rattle.sql_query.specs.View.{expr_of};
ghost use Rattle.sql_meaning.specs.Expressions.{alone, value_at, value_of};
ghost use Rattle.sql_meaning.specs.Lent.{values_in};
ghost use Rattle.sql_meaning.specs.Order.{first_key};
ghost use Rattle.sql_meaning.specs.Worths.{worths};
ghost use Rattle.sql_scalar.specs.Operators.{apply_of};
ghost use Rattle.sql_groups.specs.FirstKeys.{first_value};

use crate::worth_in::{Applied, applied_by, number_by};
use osq_value::{Str, Value};
use sql_meaning::worth::Worth;
use sql_meaning::{Joined, value_in};
use sql_query::tree::Expr;
use std::cmp::Ordering;

/// The first of a row's keys. Numbers lie in it, so that they are compared without a look at the row.
#[derive(Clone, Copy, Drop)]
pub(crate) enum FirstKey<'a> {
    Null,
    Number { number: i64 },
    Text { text: &'a Str },
}

/// The first key of a row, where an expression is a column, or arithmetic of a number in a column and a number behind it.
pub(crate) fn first_in<'a>(row: Joined<'a>, expr: &Expr) -> Option<FirstKey<'a>>
    ensures { IfSome result (λ first. first_value first ≡ value_of (alone (values_in row.entry)) (expr_of expr.now)) }
{
    match expr {
        Expr::Column { at, .. } => Some(first_at(row, *at)),
        Expr::Chain { first, steps } => match applied_by(first, steps) {
            None => None,
            Some(applied) => number_key(row, applied),
        },
        _ => None,
    }
}

fn first_at<'a>(row: Joined<'a>, place: u32) -> FirstKey<'a>
    ensures { first_value result ≡ value_at (values_in row.entry) place }
{
    match value_in(row, place) {
        None => FirstKey::Null,
        Some(value) => key_of(value),
    }
}

fn number_key<'a>(row: Joined<'a>, applied: Applied) -> Option<FirstKey<'a>>
    ensures { IfSome result (λ first. first_value first ≡ apply_of applied.entry.op applied.entry.affinity None (value_at (values_in row.entry) applied.entry.place) applied.entry.right.now) }
{
    match number_by(row, applied) {
        None => None,
        Some(None) => Some(FirstKey::Null),
        Some(Some(number)) => Some(FirstKey::Number { number }),
    }
}

pub(crate) fn key_of(value: &Value) -> FirstKey
    ensures { first_value result ≡ value.entry.now }
{
    match value {
        Value::Null => FirstKey::Null,
        Value::Int(number) => FirstKey::Number { number: *number },
        Value::Text(text) => FirstKey::Text { text },
    }
}

/// The first of these keys, Null where there is none.
pub(crate) fn first_of<'a, 'b>(keys: &'b [Worth<'a>]) -> FirstKey<'b>
    ensures { first_value result ≡ first_key (worths keys.entry.now) }
{
    match keys {
        [] => FirstKey::Null,
        [key, ..] => key_of(key.as_value()),
    }
}

/// Null stands before numbers, and these before texts, which go by their bytes.
pub(crate) fn compare_firsts(left: FirstKey, right: FirstKey) -> Ordering
    ensures { result ≡ order_of (first_value left.entry) (first_value right.entry) }
{
    match (left, right) {
        (FirstKey::Null, FirstKey::Null) => Ordering::Equal,
        (FirstKey::Null, _) => Ordering::Less,
        (_, FirstKey::Null) => Ordering::Greater,
        (FirstKey::Number { number: left }, FirstKey::Number { number: right }) => {
            left.cmp(&right)
        }
        (FirstKey::Number { .. }, FirstKey::Text { .. }) => Ordering::Less,
        (FirstKey::Text { .. }, FirstKey::Number { .. }) => Ordering::Greater,
        (FirstKey::Text { text: left }, FirstKey::Text { text: right }) => {
            left.as_str().as_bytes().cmp(right.as_str().as_bytes())
        }
    }
}
