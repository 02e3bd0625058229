//! Truth, and the operators on it.
ghost use Rattle.std.specs.Prelude.{◌≡◌};
ghost use Rattle.sql_scalar.specs.Truth.{both, either, from_truth, is_zero, not_of, opposite, truth_of};

use osq_value::{Value, cast_int};

/// Whether a value is true: its whole number isn't 0. None exactly for Null.
pub fn truth(value: &Value) -> Option<bool>
    ensures { result ≡ truth_of value.now }
{
    match cast_int(value) {
        Value::Int(number) => Some(number != 0),
        Value::Null | Value::Text(_) => None,
    }
}

/// `NOT`: Null for Null, else 1 or 0.
pub fn negation(value: &Value) -> Value
    ensures { result ≡ not_of value.now }
{
    from_truth(opposite(truth(value)))
}

/// The value of a truth: 1, 0, or Null where it is unknown.
pub(crate) fn from_truth(truth: Option<bool>) -> Value
    ensures { result ≡ from_truth truth }
{
    match truth {
        None => Value::Null,
        Some(true) => Value::Int(1),
        Some(false) => Value::Int(0),
    }
}

pub(crate) fn both(left: Option<bool>, right: Option<bool>) -> Option<bool>
    ensures { result ≡ both left right }
{
    match (left, right) {
        (Some(false), _) | (_, Some(false)) => Some(false),
        (None, _) | (_, None) => None,
        (Some(true), Some(true)) => Some(true),
    }
}

pub(crate) fn either(left: Option<bool>, right: Option<bool>) -> Option<bool>
    ensures { result ≡ either left right }
{
    match (left, right) {
        (Some(true), _) | (_, Some(true)) => Some(true),
        (None, _) | (_, None) => None,
        (Some(false), Some(false)) => Some(false),
    }
}

fn opposite(truth: Option<bool>) -> Option<bool>
    ensures { result ≡ opposite truth }
{
    match truth {
        None => None,
        Some(truth) => Some(!truth),
    }
}
