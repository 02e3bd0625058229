//! Arithmetic on the whole numbers of values.
ghost use Rattle.std.specs.Prelude.{◌≡◌, ℤ};
ghost use Rattle.sql_scalar.specs.Arithmetic.{difference_of, minus_of, product_of, quotient_of, remainder_of, sum_of, whole};
ghost use Rattle.std.specs.Option.{option_map_or};
ghost use Rattle.osq_value.specs.declared.value.Value.TheVariants.{Int, Null};

use osq_value::{Value, cast_int};

/// The sign `-`: Null for Null and for the least number, which has no opposite of 64 bits.
pub fn minus(value: &Value) -> Value
    ensures { result ≡ minus_of value.now }
{
    match whole(value) {
        Some(number) => or_null(number.checked_neg()),
        None => Value::Null,
    }
}

pub(crate) fn sum(left: &Value, right: &Value) -> Value
    ensures { result ≡ sum_of left.now right.now }
{
    match (whole(left), whole(right)) {
        (Some(first), Some(second)) => or_null(first.checked_add(second)),
        _ => Value::Null,
    }
}

pub(crate) fn difference(left: &Value, right: &Value) -> Value
    ensures { result ≡ difference_of left.now right.now }
{
    match (whole(left), whole(right)) {
        (Some(first), Some(second)) => or_null(first.checked_sub(second)),
        _ => Value::Null,
    }
}

pub(crate) fn product(left: &Value, right: &Value) -> Value
    ensures { result ≡ product_of left.now right.now }
{
    match (whole(left), whole(right)) {
        (Some(first), Some(second)) => or_null(first.checked_mul(second)),
        _ => Value::Null,
    }
}

pub(crate) fn quotient(left: &Value, right: &Value) -> Value
    ensures { result ≡ quotient_of left.now right.now }
{
    match (whole(left), whole(right)) {
        (Some(first), Some(second)) => or_null(first.checked_div(second)),
        _ => Value::Null,
    }
}

pub(crate) fn remainder(left: &Value, right: &Value) -> Value
    ensures { result ≡ remainder_of left.now right.now }
{
    match (whole(left), whole(right)) {
        (Some(_), Some(0)) => Value::Null,
        (Some(first), Some(second)) => Value::Int(first.wrapping_rem(second)),
        _ => Value::Null,
    }
}

/// The whole number of a value, none for Null.
pub fn whole(value: &Value) -> Option<i64>
    ensures { result ≡ whole value.now }
{
    match cast_int(value) {
        Value::Int(number) => Some(number),
        Value::Null | Value::Text(_) => None,
    }
}

/// The number, or Null where it lies outside 64 bits.
pub(crate) fn or_null(number: Option<i64>) -> Value
    ensures { result ≡ option_map_or Int number Null }
{
    match number {
        Some(number) => Value::Int(number),
        None => Value::Null,
    }
}
