//! Comparisons of a column with a literal.
ghost use Rattle.std.specs.Prelude.{◌≡◌, IfOk};
ghost use Rattle.std.specs.Option.{option_and_then, option_map};
ghost use Rattle.osq_value.specs.declared.value.Value.TheVariants.{Int};
ghost use Rattle.sql_query.specs.View.{expr_of, step_of, steps_of};
ghost use Rattle.sql_planner.specs.Comparisons.{column_in, compared, comparison_in, compares_by, known, literal_in, mirrored, number_in, of_sides, only_step, opposite, sides_by, sides_in, whole_number};
ghost use Rattle.sql_planner.specs.Literals.{comparison_tree, literal_value, sides_tree};

use osq_value::{Copied, NoMemory, Str, Value};
use sql_query::place::Place;
use sql_query::tree::{Expr, ExprStep};
use sql_tree::tree::Operator;
use std::alloc::Global;
use virtual_tables::ConstraintOp;

/// A literal, where it stands in the query.
#[derive(Clone, Copy)]
pub(crate) enum Literal<'a> {
    Number { value: i64 },
    Text { text: &'a Str },
}

/// A comparison of a column with a literal, the column on the left side.
#[derive(Clone, Copy)]
pub(crate) struct Comparison<'a> {
    /// Where the column stands.
    pub place: Place,
    /// How it is compared, with the column on the left side.
    pub op: ConstraintOp,
    /// The literal that it is compared with.
    pub literal: Literal<'a>,
}

/// The sides of an expression of one operator.
#[derive(Clone, Copy)]
pub(crate) struct Sides<'a> {
    /// What stands before the operator.
    pub left: &'a Expr,
    /// The operator.
    pub op: Operator,
    /// What stands behind it.
    pub right: &'a Expr,
}

impl<'a> Literal<'a> {
    /// The value, which is copied.
    pub fn to_value(self, alloc: Global) -> Result<Value, NoMemory>
        ensures { IfOk result (λ value. value ≡ literal_value self.entry) }
    {
        match self {
            Literal::Number { value } => Ok(Value::Int(value)),
            Literal::Text { text } => Ok(Value::Text(text.copy(alloc)?)),
        }
    }
}

/// The comparison of a column with a literal that a conjunct is, also where the literal stands first.
pub(crate) fn comparison_in(conjunct: &Expr) -> Option<Comparison>
    ensures { option_map comparison_tree result ≡ comparison_in (expr_of conjunct.now) }
{
    let Some(sides) = sides_in(conjunct) else {
        return None;
    };
    let Some(op) = compares_by(sides.op) else {
        return None;
    };
    compared(sides.left, sides.right, op)
}

/// The sides of an expression of one operator.
pub(crate) fn sides_in(expr: &Expr) -> Option<Sides>
    ensures { option_map sides_tree result ≡ sides_in (expr_of expr.now) }
{
    match expr {
        Expr::Chain { first, steps } => chain_sides(first, steps),
        _ => None,
    }
}

/// The column that an expression is.
pub(crate) fn column_in(expr: &Expr) -> Option<Place>
    ensures { result ≡ column_in (expr_of expr.now) }
{
    match expr {
        Expr::Column {
            source,
            column,
            at,
            affinity,
        } => Some(Place {
            source: *source,
            column: *column,
            at: *at,
            affinity: *affinity,
        }),
        _ => None,
    }
}

fn chain_sides<'a>(first: &'a Expr, steps: &'a [ExprStep]) -> Option<Sides<'a>>
    ensures { option_map sides_tree result ≡ option_and_then (sides_by (expr_of first.now)) (only_step (steps_of steps.now)) }
{
    let [step, others @ ..] = steps else {
        return None;
    };
    if others.is_empty() {
        step_sides(first, step)
    } else {
        None
    }
}

fn step_sides<'a>(first: &'a Expr, step: &'a ExprStep) -> Option<Sides<'a>>
    ensures { option_map sides_tree result ≡ sides_by (expr_of first.now) (step_of step.now) }
{
    match step {
        ExprStep::Binary { op, right } => Some(Sides {
            left: first,
            op: *op,
            right,
        }),
        ExprStep::In { .. } => None,
        ExprStep::Between { .. } => None,
    }
}

/// `column op literal`, or its mirror image.
fn compared<'a>(left: &'a Expr, right: &'a Expr, op: ConstraintOp) -> Option<Comparison<'a>>
    ensures { option_map comparison_tree result ≡ compared (expr_of left.now) (expr_of right.now) op }
{
    match of_sides(op, column_in(left), literal_in(right)) {
        Some(found) => Some(found),
        None => of_sides(mirrored(op), column_in(right), literal_in(left)),
    }
}

fn of_sides(op: ConstraintOp, place: Option<Place>, literal: Option<Literal>) -> Option<Comparison>
    ensures { option_map comparison_tree result ≡ of_sides op place (option_map literal_value literal.entry) }
{
    let Some(place) = place else {
        return None;
    };
    match literal {
        Some(literal) => Some(Comparison { place, op, literal }),
        None => None,
    }
}

/// How an operator compares a column with a literal.
pub(crate) fn compares_by(op: Operator) -> Option<ConstraintOp>
    ensures { result ≡ compares_by op }
{
    match op {
        Operator::Equal => Some(ConstraintOp::Eq),
        Operator::Less => Some(ConstraintOp::Lt),
        Operator::LessEqual => Some(ConstraintOp::Le),
        Operator::Greater => Some(ConstraintOp::Gt),
        Operator::GreaterEqual => Some(ConstraintOp::Ge),
        _ => None,
    }
}

/// The same comparison with its sides turned round.
fn mirrored(op: ConstraintOp) -> ConstraintOp
    ensures { result ≡ mirrored op }
{
    match op {
        ConstraintOp::Eq => ConstraintOp::Eq,
        ConstraintOp::Lt => ConstraintOp::Gt,
        ConstraintOp::Le => ConstraintOp::Ge,
        ConstraintOp::Gt => ConstraintOp::Lt,
        ConstraintOp::Ge => ConstraintOp::Le,
    }
}

/// The literal that an expression is: a text, or a number with or without a sign.
fn literal_in(expr: &Expr) -> Option<Literal>
    ensures { option_map literal_value result ≡ literal_in (expr_of expr.now) }
{
    match expr {
        Expr::Literal { value } => known(value),
        Expr::Minus { inner } => opposite(number_in(inner)),
        Expr::Plus { inner } => itself(number_in(inner)),
        _ => None,
    }
}

/// A value other than Null.
fn known(value: &Value) -> Option<Literal>
    ensures { option_map literal_value result ≡ known value.now }
{
    match value {
        Value::Null => None,
        Value::Int(number) => Some(Literal::Number { value: *number }),
        Value::Text(text) => Some(Literal::Text { text }),
    }
}

/// The number with the sign `-`, nothing where it lies outside 64 bits.
fn opposite<'a>(number: Option<i64>) -> Option<Literal<'a>>
    ensures { option_map literal_value result ≡ option_and_then opposite number }
{
    let Some(number) = number else {
        return None;
    };
    match number.checked_neg() {
        Some(value) => Some(Literal::Number { value }),
        None => None,
    }
}

/// The number with the sign `+`.
fn itself<'a>(number: Option<i64>) -> Option<Literal<'a>>
    ensures { option_map literal_value result ≡ option_map Int number }
{
    match number {
        Some(value) => Some(Literal::Number { value }),
        None => None,
    }
}

/// The number without a sign that an expression is.
fn number_in(expr: &Expr) -> Option<i64>
    ensures { result ≡ number_in (expr_of expr.now) }
{
    match expr {
        Expr::Literal { value } => whole_number(value),
        _ => None,
    }
}

fn whole_number(value: &Value) -> Option<i64>
    ensures { result ≡ whole_number value.now }
{
    match value {
        Value::Int(number) => Some(*number),
        Value::Null | Value::Text(_) => None,
    }
}
