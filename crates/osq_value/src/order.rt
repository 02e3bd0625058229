//! The order of values.
ghost use Rattle.std.specs.Prelude.{◌≡◌};
ghost use Rattle.osq_value.specs.Order.{order_of};

use crate::value::Value;
use std::cmp::Ordering;

/// The order of two values, which is total: Null before whole numbers before texts, numbers by size and texts by their bytes.
/// It is `Equal` exactly where the values are equal, so no number equals a text. It takes no memory.
pub fn compare(left: &Value, right: &Value) -> Ordering
    ensures { result ≡ order_of left.now right.now }
{
    match (left, right) {
        (Value::Null, Value::Null) => Ordering::Equal,
        (Value::Null, _) => Ordering::Less,
        (_, Value::Null) => Ordering::Greater,
        (Value::Int(first), Value::Int(second)) => first.cmp(second),
        (Value::Int(_), Value::Text(_)) => Ordering::Less,
        (Value::Text(_), Value::Int(_)) => Ordering::Greater,
        (Value::Text(first), Value::Text(second)) => {
            first.as_str().as_bytes().cmp(second.as_str().as_bytes())
        }
    }
}
