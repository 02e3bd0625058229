//! What an expression is worth over a row.
ghost use Rattle.std.specs.Prelude.{◌≡◌, IfOk, IfSome, List, None, Option};
ghost use Rattle.std.specs.Option.{option_map_or};
ghost use Rattle.osq_value.specs.declared.catalogue.Affinity.{Affinity as AffinityOf};
ghost use Rattle.osq_value.specs.declared.value.Value.TheVariants.{Int as IntOf, Null as NullOf};
ghost use Rattle.sql_scalar.specs.Arithmetic.{remainder_of};
ghost use Rattle.osq_value.specs.declared.value.Value.{Value as ValueOf};
ghost use Rattle.sql_query.specs.View.{expr_of, steps_of};
ghost use Rattle.sql_meaning.specs.Expressions.{affinity_of, alone, value_after, value_at, value_of};
ghost use Rattle.sql_meaning.specs.Lent.{values_in};
ghost use Rattle.sql_meaning.specs.Worths.{worth_of};
ghost use Rattle.sql_scalar.specs.Operators.{apply_of};

use osq_value::{Affinity, NoMemory, Value};
use sql_meaning::worth::Worth;
use sql_meaning::{Joined, Over, evaluate_over, value_in};
use sql_query::tree::{Expr, ExprStep};
use sql_scalar::apply;
use sql_tree::tree::Operator;
use std::alloc::Global;

/// A column behind which stand an operator and a literal.
#[derive(Clone, Copy, Drop)]
pub(crate) struct Applied<'a> {
    /// The place of the column.
    pub place: u32,
    /// Its affinity.
    pub affinity: Option<Affinity>,
    /// The operator.
    pub op: Operator,
    /// The literal.
    pub right: &'a Value,
}

/// What an expression is worth over a row. A column, and a column behind which stand one operator and a literal, are looked at where they
/// stand: most expressions of GROUP BY, DISTINCT and ORDER BY are such, and each is asked of every row.
pub(crate) fn worth_in<'a>(
    alloc: Global,
    row: Joined<'a>,
    expr: &'a Expr,
) -> Result<Worth<'a>, NoMemory>
    ensures { IfOk result (λ w. worth_of w ≡ value_of (alone (values_in row.entry)) (expr_of expr.now)) }
{
    match expr {
        Expr::Column { at, .. } => Ok(column_in(row, *at)),
        Expr::Chain { first, steps } => match applied_by(first, steps) {
            Some(applied) => applied_in(alloc, row, applied),
            None => evaluate_over(alloc, Over::Lent { row }, expr),
        },
        _ => evaluate_over(alloc, Over::Lent { row }, expr),
    }
}

/// A chain of one operator, where a column stands at its left and a literal at its right.
pub(crate) fn applied_by<'a>(first: &Expr, steps: &'a [ExprStep]) -> Option<Applied<'a>>
    ensures { IfSome result (λ found. (row : List ValueOf) → value_after (alone row) (affinity_of (expr_of first.now)) (value_of (alone row) (expr_of first.now)) (steps_of steps.entry.now) ≡ apply_of found.op found.affinity None (value_at row found.place) found.right.now) }
{
    let Expr::Column { at, affinity, .. } = first else {
        return None;
    };
    let [ExprStep::Binary { op, right }] = steps else {
        return None;
    };
    let Expr::Literal { value } = right else {
        return None;
    };
    Some(Applied {
        place: *at,
        affinity: *affinity,
        op: *op,
        right: value,
    })
}

/// What the operator gives over a row.
fn applied_in<'a>(alloc: Global, row: Joined<'a>, applied: Applied) -> Result<Worth<'a>, NoMemory>
    ensures { IfOk result (λ w. worth_of w ≡ apply_of applied.entry.op applied.entry.affinity None (value_at (values_in row.entry) applied.entry.place) applied.entry.right.now) }
{
    match number_by(row, applied) {
        Some(None) => Ok(Worth::Made { value: Value::Null }),
        Some(Some(number)) => Ok(Worth::Made {
            value: Value::Int(number),
        }),
        None => made_by(alloc, row, applied),
    }
}

/// The same, whatever the operator and the values are.
fn made_by<'a>(alloc: Global, row: Joined<'a>, applied: Applied) -> Result<Worth<'a>, NoMemory>
    ensures { IfOk result (λ w. worth_of w ≡ apply_of applied.entry.op applied.entry.affinity None (value_at (values_in row.entry) applied.entry.place) applied.entry.right.now) }
{
    match value_in(row, applied.place) {
        None => applied_to(alloc, &Value::Null, applied),
        Some(left) => applied_to(alloc, left, applied),
    }
}

fn applied_to<'a>(alloc: Global, left: &Value, applied: Applied) -> Result<Worth<'a>, NoMemory>
    ensures { IfOk result (λ w. worth_of w ≡ apply_of applied.entry.op applied.entry.affinity None left.now applied.entry.right.now) }
{
    let affinities = (applied.affinity, None);
    let value = apply(alloc, applied.op, left, applied.right, affinities)?;
    Ok(Worth::Made { value })
}

/// The number that arithmetic gives of a number in the column and a number behind it, none in the place of Null. No other operator and no
/// other values are looked at.
pub(crate) fn number_by(row: Joined, applied: Applied) -> Option<Option<i64>>
    ensures { IfSome result (λ number. option_map_or IntOf number NullOf ≡ apply_of applied.entry.op applied.entry.affinity None (value_at (values_in row.entry) applied.entry.place) applied.entry.right.now) }
{
    match value_in(row, applied.place) {
        None => None,
        Some(left) => number_of(left, applied),
    }
}

fn number_of(left: &Value, applied: Applied) -> Option<Option<i64>>
    ensures { IfSome result (λ number. option_map_or IntOf number NullOf ≡ apply_of applied.entry.op applied.entry.affinity None left.now applied.entry.right.now) }
{
    match (left, applied.right) {
        (Value::Int(left), Value::Int(right)) => computed(applied.op, *left, *right),
        _ => None,
    }
}

/// What an operator of arithmetic gives for two numbers, none in the place of Null.
fn computed(op: Operator, left: i64, right: i64) -> Option<Option<i64>>
    ensures { IfSome result (λ number. (first second : Option AffinityOf) → option_map_or IntOf number NullOf ≡ apply_of op first second (IntOf left) (IntOf right)) }
{
    match op {
        Operator::Add => Some(left.checked_add(right)),
        Operator::Subtract => Some(left.checked_sub(right)),
        Operator::Multiply => Some(left.checked_mul(right)),
        Operator::Divide => Some(left.checked_div(right)),
        Operator::Remainder => Some(remainder(left, right)),
        _ => None,
    }
}

/// The remainder, none of a division by 0.
fn remainder(left: i64, right: i64) -> Option<i64>
    ensures { option_map_or IntOf result NullOf ≡ remainder_of (IntOf left) (IntOf right) }
{
    if right == 0 {
        None
    } else {
        Some(left.wrapping_rem(right))
    }
}

/// The value at a place of a row, Null where it doesn't have that place.
fn column_in<'a>(row: Joined<'a>, place: u32) -> Worth<'a>
    ensures { worth_of result ≡ value_at (values_in row.entry) place }
{
    match value_in(row, place) {
        None => Worth::Made { value: Value::Null },
        Some(value) => Worth::Held { value },
    }
}
