//! Comparisons, with the affinities of both sides.
ghost use Rattle.std.specs.Prelude.{◌≡◌, ℕ, IfOk, MatchOption, Bool};
ghost use Rattle.osq_value.specs.Casts.{cast_text_of};
ghost use Rattle.osq_value.specs.Order.{order_of};
ghost use Rattle.sql_scalar.specs.Comparison.{compared, spelled, unless_null};
ghost use Rattle.sql_scalar.specs.Truth.{from_truth};

use crate::logic::from_truth;
use osq_value::{Affinity, NoMemory, Value, cast_text, compare, int_spelling};
use std::alloc::Global;
use std::cmp::Ordering;

/// The order of two sides, each with its affinity. Where one side is of whole numbers and the other isn't, a text on the other side
/// that spells a whole number counts as that number. Else, where one side is of texts and the other has no affinity, a number on the
/// other side counts as its decimal text.
#[tactic(auto, using(crate::proofs::Turned::order_turned))]
pub(crate) fn order(
    alloc: Global,
    sides: (&Value, &Value),
    affinities: (Option<Affinity>, Option<Affinity>),
) -> Result<Ordering, NoMemory>
    ensures { IfOk result (λ order. order ≡ compared affinities.0 affinities.1 sides.entry.0.now sides.entry.1.now) }
{
    let (left, right) = sides;
    match affinities {
        (Some(Affinity::Integer), Some(Affinity::Integer)) => Ok(compare(left, right)),
        (Some(Affinity::Integer), _) => Ok(compare_spelled(left, right)),
        (Some(Affinity::Text), Some(Affinity::Integer)) => {
            Ok(compare_spelled(right, left).reverse())
        }
        (None, Some(Affinity::Integer)) => Ok(compare_spelled(right, left).reverse()),
        (Some(Affinity::Text), None) => compare_text(alloc, left, right),
        (None, Some(Affinity::Text)) => Ok(compare_text(alloc, right, left)?.reverse()),
        (Some(Affinity::Text), Some(Affinity::Text)) => Ok(compare(left, right)),
        (None, None) => Ok(compare(left, right)),
    }
}

/// The order of a value and what another one spells.
fn compare_spelled(left: &Value, right: &Value) -> Ordering
    ensures { result ≡ order_of left.now (spelled right.now) }
{
    match right {
        Value::Text(text) => match int_spelling(text.as_str().as_bytes()) {
            Some(number) => compare(left, &Value::Int(number)),
            None => compare(left, right),
        },
        Value::Null | Value::Int(_) => compare(left, right),
    }
}

/// The order of a value and another one as a text.
fn compare_text(alloc: Global, left: &Value, right: &Value) -> Result<Ordering, NoMemory>
    ensures { IfOk result (λ order. order ≡ order_of left.now (cast_text_of right.now)) }
{
    match right {
        Value::Int(_) => Ok(compare(left, &cast_text(alloc, right)?)),
        Value::Null | Value::Text(_) => Ok(compare(left, right)),
    }
}

/// The value of a comparison by what it says of the order: Null where a side is Null.
pub(crate) fn tested(sides: (&Value, &Value), outcome: bool) -> Value
    ensures { result ≡ from_truth (unless_null sides.entry.0.now sides.entry.1.now outcome) }
{
    match sides {
        (Value::Null, _) | (_, Value::Null) => Value::Null,
        _ => from_truth(Some(outcome)),
    }
}
