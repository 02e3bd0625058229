//! The order of keys.
ghost use Rattle.std.specs.Prelude.{◌≡◌, drop};
ghost use Rattle.osq_value.specs.Order.{order_of};
ghost use Rattle.sql_meaning.specs.Order.{directed, first_key, order_by};
ghost use Rattle.sql_meaning.specs.Worths.{worths};

use osq_value::{Value, compare};
use sql_meaning::worth::Worth;
use std::cmp::Ordering;

/// The order by one key after another. A key that isn't there is Null.
pub(crate) fn compare_keys(lefts: &[Worth], rights: &[Worth], ways: &[bool]) -> Ordering
    ensures { result ≡ order_by ways.now (worths lefts.now) (worths rights.now) }
{
    let mut left = lefts;
    let mut right = rights;
    let mut rest = ways;
    while let [is_descending, others @ ..] = rest {
        let order = directed(*is_descending, compare_firsts(left, right));
        if order.is_ne() {
            return order;
        }
        left = behind_first(left);
        right = behind_first(right);
        rest = others;
    }
    Ordering::Equal
}

fn compare_firsts(lefts: &[Worth], rights: &[Worth]) -> Ordering
    ensures { result ≡ order_of (first_key (worths lefts.now)) (first_key (worths rights.now)) }
{
    match lefts {
        [] => compare_to(&Value::Null, rights),
        [left, ..] => compare_to(left.as_value(), rights),
    }
}

/// The order of a value and of the first key.
pub(crate) fn compare_to(value: &Value, keys: &[Worth]) -> Ordering
    ensures { result ≡ order_of value.now (first_key (worths keys.now)) }
{
    match keys {
        [] => compare(value, &Value::Null),
        [key, ..] => order_of(value, key.as_value()),
    }
}

/// The keys behind the first.
pub(crate) fn behind_first<'a, 'b>(keys: &'b [Worth<'a>]) -> &'b [Worth<'a>]
    ensures { worths result.now ≡ drop 1 (worths keys.now) }
{
    match keys {
        [] => keys,
        [_, others @ ..] => others,
    }
}

/// Turned round where it is descending.
pub(crate) fn directed(is_descending: bool, order: Ordering) -> Ordering
    ensures { result ≡ directed is_descending order }
{
    if is_descending {
        order.reverse()
    } else {
        order
    }
}

/// The order of two values: that of `compare`, which two numbers don't wait for.
pub(crate) fn order_of(left: &Value, right: &Value) -> Ordering
    ensures { result ≡ order_of left.now right.now }
{
    match (left, right) {
        (Value::Int(first), Value::Int(second)) => first.cmp(second),
        _ => compare(left, right),
    }
}
