//! What an expression is worth over a row, or over a group of rows.
ghost use Rattle.std.specs.Prelude.{◌≡◌, IfOk, IfSome, map, unwrap_or};
ghost use Rattle.osq_value.specs.declared.value.Value.TheVariants.{Null};
ghost use Rattle.std.specs.Option.{option_copied};
ghost use Rattle.sql_query.specs.View.{expr_of, step_of, steps_of, exprs_of, aggregate_of};
ghost use Rattle.sql_meaning.specs.Expressions.{affinity_of as affinity_in, alone, cast_of, holds as holds_in, is_true as is_true_value, negated as negated_by, value_at, value_of, value_after, value_by, values_of};
ghost use Rattle.sql_meaning.specs.Lent.{values_in};
ghost use Rattle.sql_meaning.specs.Settled.{IsSettled};
ghost use Rattle.sql_meaning.specs.Over.{environment_of};
ghost use Rattle.sql_meaning.specs.Worths.{worth_of};
ghost use Rattle.sql_meaning.specs.Steps.{first_row};
ghost use Rattle.sql_scalar.specs.Comparison.{in_of, between_of};

use crate::folds::{count_rows, fold_values};
use crate::joined::{Joined, value_in, value_in_first};
use crate::worth::Worth;
use osq_value::{Affinity, NoMemory, Row, Sequence, Value, cast_int, cast_text};
use sql_query::tree::{Aggregate, Expr, ExprStep};
use sql_scalar::{apply, call, minus, negation, truth};
use sql_tree::tree::Operator;
use std::alloc::Global;

/// What an expression is evaluated over.
#[derive(Clone, Copy)]
pub enum Over<'a> {
    /// A row by itself: an aggregate over it is Null.
    Row { values: &'a [Value] },
    /// A joined row by itself.
    Lent { row: Joined<'a> },
    /// The joined rows of a group: a column outside the aggregates is that of the first row, Null where there is none.
    Group { rows: &'a [Joined<'a>] },
}

/// The value of an expression over a row. A column whose place lies beyond the row is Null, and so is an aggregate.
pub fn evaluate(alloc: Global, expression: &Expr, row: &Row) -> Result<Value, NoMemory>
    ensures { IfOk result (λ value. value ≡ value_of (alone row.now) (expr_of expression.now)) }
{
    let over = Over::Row {
        values: row.as_slice(),
    };
    value(alloc, over, expression)
}

/// The value of an expression over a row or a group.
fn value(alloc: Global, over: Over, expr: &Expr) -> Result<Value, NoMemory>
    ensures { IfOk result (λ value. value ≡ value_of (environment_of over.entry) (expr_of expr.now)) }
{
    evaluate_over(alloc, over, expr)?.into_value(alloc)
}

/// Whether each part of a condition is true.
pub fn holds(alloc: Global, over: Over, parts: &[Expr]) -> Result<bool, NoMemory>
    ensures { IfOk result (λ truth. truth ≡ holds_in (environment_of over.entry) (map expr_of parts.now)) }
{
    let mut rest = parts;
    while let [part, others @ ..] = rest {
        if !is_true(evaluate_over(alloc, over, part)?.as_value()) {
            return Ok(false);
        }
        rest = others;
    }
    Ok(true)
}

/// Whether a value is true. Null isn't.
pub fn is_true(value: &Value) -> bool
    ensures { result ≡ is_true_value value.now }
{
    match truth(value) {
        None => false,
        Some(truth) => truth,
    }
}

/// The affinity of an expression: that of a column or of a cast, and none of any other.
pub fn affinity_of(expr: &Expr) -> Option<Affinity>
    ensures { result ≡ affinity_in (expr_of expr.now) }
{
    match expr {
        Expr::Column { affinity, .. } => *affinity,
        Expr::Cast { affinity, .. } => Some(*affinity),
        _ => None,
    }
}

/// The value at a place of a row, or of the first row of a group.
fn column(over: Over, place: u32) -> Worth
    ensures { worth_of result ≡ value_at (environment_of over.entry).row place }
{
    match over {
        Over::Row { values } => held(values.get(place as usize)),
        Over::Lent { row } => held(value_in(row, place)),
        Over::Group { rows } => held(value_in_first(rows, place)),
    }
}

/// A value that was found, and else Null.
fn held(found: Option<&Value>) -> Worth
    ensures { worth_of result ≡ unwrap_or (option_copied found.entry) Null }
{
    match found {
        None => Worth::Made { value: Value::Null },
        Some(value) => Worth::Held { value },
    }
}

fn cast(alloc: Global, worth: Worth, affinity: Affinity) -> Result<Worth, NoMemory>
    ensures { IfOk result (λ w. worth_of w ≡ cast_of affinity (worth_of worth.entry)) }
{
    match affinity {
        Affinity::Integer => Ok(Worth::Made {
            value: cast_int(worth.as_value()),
        }),
        Affinity::Text => match worth.as_value() {
            Value::Null | Value::Text(_) => Ok(worth),
            Value::Int(_) => Ok(Worth::Made {
                value: cast_text(alloc, worth.as_value())?,
            }),
        },
    }
}

/// A value, or its negation.
fn negated(is_negated: bool, value: Value) -> Value
    ensures { result ≡ negated_by is_negated value }
{
    if is_negated { negation(&value) } else { value }
}

/// What an operator gives whatever stands at its right, where the left side settles it: AND behind what is false, and OR behind what is true.
fn settled(op: Operator, left: &Value) -> Option<Value>
    ensures { IfSome result (IsSettled op left.now) }
{
    match (op, truth(left)) {
        (Operator::And, Some(false)) => Some(Value::Int(0)),
        (Operator::Or, Some(true)) => Some(Value::Int(1)),
        _ => None,
    }
}

/// A value with its affinity.
type Side<'a> = (&'a Value, Option<Affinity>);

/// Whether a value lies between two others, each side by its own affinities.
fn between(alloc: Global, side: Side, low: Side, high: Side) -> Result<Value, NoMemory>
    ensures { IfOk result (λ value. value ≡ between_of side.entry.1 low.entry.1 high.entry.1 side.entry.0.now low.entry.0.now high.entry.0.now) }
{
    let (value, affinity) = side;
    let above = apply(
        alloc,
        Operator::GreaterEqual,
        value,
        low.0,
        (affinity, low.1),
    )?;
    let below = apply(
        alloc,
        Operator::LessEqual,
        value,
        high.0,
        (affinity, high.1),
    )?;
    apply(alloc, Operator::And, &above, &below, (None, None))
}

/// What an expression is worth over a row or a group. A column whose place lies beyond the row is Null, and so is an aggregate over a row.
#[cycle(evaluate)]
pub fn evaluate_over<'a>(
    alloc: Global,
    over: Over<'a>,
    expr: &'a Expr,
) -> Result<Worth<'a>, NoMemory>
    ensures { IfOk result (λ w. worth_of w ≡ value_of (environment_of over.entry) (expr_of expr.now)) }
{
    match expr {
        Expr::Literal { value } => Ok(Worth::Held { value }),
        Expr::Column { at, .. } => Ok(column(over, *at)),
        Expr::Chain { first, steps } => {
            let left = evaluate_over(alloc, over, first)?;
            chain(alloc, over, left, affinity_of(first), steps)
        }
        Expr::Negation { inner } => Ok(Worth::Made {
            value: negation(evaluate_over(alloc, over, inner)?.as_value()),
        }),
        Expr::Minus { inner } => Ok(Worth::Made {
            value: minus(evaluate_over(alloc, over, inner)?.as_value()),
        }),
        Expr::Plus { inner } => evaluate_over(alloc, over, inner),
        Expr::Cast { inner, affinity } => cast(
            alloc,
            evaluate_over(alloc, over, inner)?,
            *affinity,
        ),
        Expr::Call {
            function,
            arguments,
        } => Ok(Worth::Made {
            value: call(alloc, *function, &values(alloc, over, arguments)?)?,
        }),
        Expr::Folded { aggregate } => Ok(Worth::Made {
            value: folded(alloc, over, aggregate)?,
        }),
    }
}

/// What steps make of the first operand of a chain, from the left. What a step made has no affinity.
#[cycle(evaluate)]
fn chain<'a>(
    alloc: Global,
    over: Over<'a>,
    first: Worth<'a>,
    affinity: Option<Affinity>,
    steps: &[ExprStep],
) -> Result<Worth<'a>, NoMemory>
    ensures { IfOk result (λ w. worth_of w ≡ value_after (environment_of over.entry) affinity (worth_of first.entry) (steps_of steps.now)) }
{
    let mut left = first;
    let mut affinity = affinity;
    for step in steps {
        left = Worth::Made {
            value: step_value(alloc, over, affinity, left.as_value(), step)?,
        };
        affinity = None;
    }
    Ok(left)
}

/// What a step makes of its left side.
#[cycle(evaluate)]
fn step_value(
    alloc: Global,
    over: Over,
    affinity: Option<Affinity>,
    left: &Value,
    step: &ExprStep,
) -> Result<Value, NoMemory>
    ensures { IfOk result (λ value. value ≡ value_by (environment_of over.entry) affinity left.now (step_of step.now)) }
{
    match step {
        ExprStep::Binary { op, right } => {
            if let Some(value) = settled(*op, left) {
                return Ok(value);
            }
            let affinities = (affinity, affinity_of(right));
            apply(
                alloc,
                *op,
                left,
                evaluate_over(alloc, over, right)?.as_value(),
                affinities,
            )
        }
        ExprStep::In { is_negated, items } => {
            Ok(negated(*is_negated, among(alloc, over, affinity, left, items)?))
        }
        ExprStep::Between {
            is_negated,
            low,
            high,
        } => {
            let least = evaluate_over(alloc, over, low)?;
            let most = evaluate_over(alloc, over, high)?;
            let low = (least.as_value(), affinity_of(low));
            let high = (most.as_value(), affinity_of(high));
            let is_between = between(alloc, (left, affinity), low, high)?;
            Ok(negated(*is_negated, is_between))
        }
    }
}

/// Whether a value is one of the items, which have no affinity: the OR of the equalities.
#[cycle(evaluate)]
fn among(
    alloc: Global,
    over: Over,
    affinity: Option<Affinity>,
    left: &Value,
    items: &[Expr],
) -> Result<Value, NoMemory>
    ensures { IfOk result (λ value. value ≡ in_of affinity left.now (values_of (environment_of over.entry) (exprs_of items.now))) }
{
    let mut found = Value::Int(0);
    for item in items {
        let right = evaluate_over(alloc, over, item)?;
        let affinities = (affinity, None);
        let equal = apply(alloc, Operator::Equal, left, right.as_value(), affinities)?;
        found = apply(alloc, Operator::Or, &found, &equal, (None, None))?;
    }
    Ok(found)
}

/// The values of expressions in their order.
#[cycle(evaluate)]
fn values(alloc: Global, over: Over, exprs: &[Expr]) -> Result<Row, NoMemory>
    ensures { IfOk result (λ row. row ≡ values_of (environment_of over.entry) (exprs_of exprs.now)) }
{
    let mut row = Row::new(alloc);
    for expr in exprs {
        row.push(evaluate_over(alloc, over, expr)?.into_value(alloc)?)?;
    }
    Ok(row)
}

/// An aggregate over the rows of a group. Over a row by itself it is Null.
#[cycle(evaluate)]
fn folded(alloc: Global, over: Over, aggregate: &Aggregate) -> Result<Value, NoMemory>
    ensures { IfOk result (λ value. value ≡ value_of (environment_of over.entry) (aggregate_of aggregate.now)) }
{
    match over {
        Over::Row { .. } => Ok(Value::Null),
        Over::Lent { .. } => Ok(Value::Null),
        Over::Group { rows } => match &aggregate.argument {
            None => count_rows(aggregate.fold, rows.len()),
            Some(argument) => {
                let values = column_values(alloc, rows, argument)?;
                fold_values(alloc, aggregate.fold, aggregate.is_distinct, values)
            }
        },
    }
}

/// The values of an expression over each row by itself.
#[cycle(evaluate)]
fn column_values(alloc: Global, rows: &[Joined], expr: &Expr) -> Result<Sequence<Value>, NoMemory>
    ensures { IfOk result (λ values. values ≡ map (λ row. value_of (alone row) (expr_of expr.now)) (map values_in rows.now)) }
{
    let mut values = Sequence::with_capacity(alloc, rows.len())?;
    for row in rows {
        let over = Over::Lent { row: *row };
        values.push(evaluate_over(alloc, over, expr)?.into_value(alloc)?)?;
    }
    Ok(values)
}
