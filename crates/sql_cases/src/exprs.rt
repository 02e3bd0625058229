//! Expressions with resolved names as text: a column as `$`, the number of its table, its number there and its place in a joined row,
//! and each operator in parentheses with its sides.

use crate::numbers::{push_number, push_place};
use crate::signs::{fold_name, function_name, operator_sign};
use crate::sql::{Aggregate, Expr, ExprStep};
use crate::words::push_words;
use osq_value::{Affinity, NoMemory, Value};

fn push_literal(shown: &mut String, value: &Value) -> Result<(), NoMemory> {
    match value {
        Value::Null => Ok(shown.push_str("NULL")?),
        Value::Int(number) => push_number(shown, *number),
        Value::Text(text) => push_words(shown, &["'", text.as_str(), "'"]),
    }
}

fn push_column(shown: &mut String, source: u32, column: u32, at: u32) -> Result<(), NoMemory> {
    shown.push_str("$")?;
    push_place(shown, source as usize)?;
    shown.push_str(".")?;
    push_place(shown, column as usize)?;
    shown.push_str("@")?;
    push_place(shown, at as usize)
}

#[cycle(exprs)]
pub(crate) fn push_expr(shown: &mut String, expr: &Expr) -> Result<(), NoMemory> {
    match expr {
        Expr::Literal { value } => push_literal(shown, value),
        Expr::Column {
            source,
            column,
            at,
            affinity: _,
        } => push_column(shown, *source, *column, *at),
        Expr::Chain { first, steps } => {
            shown.push_str("(")?;
            push_expr(shown, first)?;
            push_steps(shown, steps)
        }
        Expr::Negation { inner } => push_signed(shown, "NOT ", inner),
        Expr::Minus { inner } => push_signed(shown, "-", inner),
        Expr::Plus { inner } => push_signed(shown, "+", inner),
        Expr::Cast { inner, affinity } => push_cast(shown, inner, *affinity),
        Expr::Call {
            function,
            arguments,
        } => push_list(shown, function_name(*function), arguments),
        Expr::Folded { aggregate } => push_folded(shown, aggregate),
    }
}

/// Adds the steps of a chain, and the end of its parentheses.
#[cycle(exprs)]
fn push_steps(shown: &mut String, steps: &[ExprStep]) -> Result<(), NoMemory> {
    for step in steps {
        push_step(shown, step)?;
    }
    Ok(shown.push_str(")")?)
}

#[cycle(exprs)]
fn push_step(shown: &mut String, step: &ExprStep) -> Result<(), NoMemory> {
    match step {
        ExprStep::Binary { op, right } => {
            push_words(shown, &[" ", operator_sign(*op), " "])?;
            push_expr(shown, right)
        }
        ExprStep::In { is_negated, items } => {
            push_list(shown, if *is_negated { " NOT IN " } else { " IN " }, items)
        }
        ExprStep::Between {
            is_negated,
            low,
            high,
        } => {
            shown.push_str(if *is_negated {
                " NOT BETWEEN "
            } else {
                " BETWEEN "
            })?;
            push_expr(shown, low)?;
            shown.push_str(" AND ")?;
            push_expr(shown, high)
        }
    }
}

#[cycle(exprs)]
fn push_signed(shown: &mut String, sign: &str, inner: &Expr) -> Result<(), NoMemory> {
    push_words(shown, &["(", sign])?;
    push_expr(shown, inner)?;
    Ok(shown.push_str(")")?)
}

#[cycle(exprs)]
fn push_cast(shown: &mut String, inner: &Expr, affinity: Affinity) -> Result<(), NoMemory> {
    shown.push_str("CAST(")?;
    push_expr(shown, inner)?;
    match affinity {
        Affinity::Integer => Ok(shown.push_str(" AS INTEGER)")?),
        Affinity::Text => Ok(shown.push_str(" AS TEXT)")?),
    }
}

/// Adds a word, and expressions in parentheses behind it.
#[cycle(exprs)]
fn push_list(shown: &mut String, word: &str, items: &[Expr]) -> Result<(), NoMemory> {
    push_words(shown, &[word, "("])?;
    let mut mark = "";
    for item in items {
        shown.push_str(mark)?;
        push_expr(shown, item)?;
        mark = ", ";
    }
    Ok(shown.push_str(")")?)
}

#[cycle(exprs)]
fn push_folded(shown: &mut String, aggregate: &Aggregate) -> Result<(), NoMemory> {
    let distinct = if aggregate.is_distinct {
        "DISTINCT "
    } else {
        ""
    };
    push_words(shown, &[fold_name(aggregate.fold), "(", distinct])?;
    match &aggregate.argument {
        None => shown.push_str("*")?,
        Some(argument) => push_expr(shown, argument)?,
    }
    Ok(shown.push_str(")")?)
}
