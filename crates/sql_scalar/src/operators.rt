//! The operators.
ghost use Rattle.std.specs.Prelude.{◌≡◌, IfOk};
ghost use Rattle.sql_scalar.specs.Bounds.{IsWithin};
ghost use Rattle.sql_scalar.specs.Operators.{apply_of};

use crate::arithmetic::{difference, product, quotient, remainder, sum};
use crate::comparison::{order, tested};
use crate::like::like;
use crate::logic::{both, either, from_truth, negation, truth};
use crate::texts::concat;
use osq_value::{Affinity, NoMemory, Value};
use sql_tree::tree::Operator;
use std::alloc::Global;

/// What an operator gives for two values. `affinities` are those of the left and of the right side, which comparisons alone look at.
/// A comparison, `LIKE`, `||` and arithmetic give Null where a side is Null; so do a result outside 64 bits and a division by 0. `||` wants
/// memory for a text of more than 10^9 bytes, which is SQLite's bound.
pub fn apply(
    alloc: Global,
    op: Operator,
    left: &Value,
    right: &Value,
    affinities: (Option<Affinity>, Option<Affinity>),
) -> Result<Value, NoMemory>
    ensures applied { IfOk result (λ value. value ≡ apply_of op affinities.0 affinities.1 left.now right.now) }
    ensures within { op ≡ Operator.Concat → IfOk result IsWithin }
{
    let sides = (left, right);
    match op {
        Operator::Or => Ok(from_truth(either(truth(left), truth(right)))),
        Operator::And => Ok(from_truth(both(truth(left), truth(right)))),
        Operator::Like => like(alloc, left, right),
        Operator::NotLike => Ok(negation(&like(alloc, left, right)?)),
        Operator::Add => Ok(sum(left, right)),
        Operator::Subtract => Ok(difference(left, right)),
        Operator::Multiply => Ok(product(left, right)),
        Operator::Divide => Ok(quotient(left, right)),
        Operator::Remainder => Ok(remainder(left, right)),
        Operator::Concat => concat(alloc, left, right),
        Operator::Equal => Ok(tested(sides, order(alloc, sides, affinities)?.is_eq())),
        Operator::NotEqual => Ok(tested(sides, order(alloc, sides, affinities)?.is_ne())),
        Operator::Less => Ok(tested(sides, order(alloc, sides, affinities)?.is_lt())),
        Operator::LessEqual => Ok(tested(sides, order(alloc, sides, affinities)?.is_le())),
        Operator::Greater => Ok(tested(sides, order(alloc, sides, affinities)?.is_gt())),
        Operator::GreaterEqual => Ok(tested(sides, order(alloc, sides, affinities)?.is_ge())),
        Operator::Is => Ok(from_truth(Some(order(alloc, sides, affinities)?.is_eq()))),
        Operator::IsNot => Ok(from_truth(Some(order(alloc, sides, affinities)?.is_ne()))),
    }
}
