//! Trees of expressions as text: names, numbers and texts as the text spells them, and each operator in parentheses with its sides.

use crate::numbers::{push_number, push_reach};
use crate::signs::{fold_name, function_name, operator_sign};
use crate::sql::{Name, Node, Span, Step};
use crate::words::push_words;
use osq_value::NoMemory;
use std::str;

/// Adds what the text has in a span.
fn push_span(shown: &mut String, text: &str, span: Span) -> Result<(), NoMemory> {
    let bytes = text.as_bytes();
    let end = span.end.min(bytes.len());
    let start = span.start.min(end);
    match str::from_utf8(&bytes[start..end]) {
        Ok(part) => Ok(shown.push_str(part)?),
        Err(_) => push_reach(shown, start, end),
    }
}

pub(crate) fn push_name(shown: &mut String, text: &str, name: Name) -> Result<(), NoMemory> {
    push_span(shown, text, name.span)
}

fn push_column(
    shown: &mut String,
    text: &str,
    table: Option<Name>,
    column: Name,
) -> Result<(), NoMemory> {
    if let Some(table) = table {
        push_name(shown, text, table)?;
        shown.push_str(".")?;
    }
    push_name(shown, text, column)
}

#[cycle(nodes)]
pub(crate) fn push_node(shown: &mut String, text: &str, node: &Node) -> Result<(), NoMemory> {
    match node {
        Node::Number { value, .. } => push_number(shown, *value),
        Node::Text { span } => push_span(shown, text, *span),
        Node::Null => Ok(shown.push_str("NULL")?),
        Node::Column { table, column } => push_column(shown, text, *table, *column),
        Node::Chain { first, steps } => {
            shown.push_str("(")?;
            push_node(shown, text, first)?;
            push_steps(shown, text, steps)
        }
        Node::Negation { inner } => push_signed(shown, text, "NOT ", inner),
        Node::Minus { inner } => push_signed(shown, text, "-", inner),
        Node::Plus { inner } => push_signed(shown, text, "+", inner),
        Node::Cast { inner, is_text } => push_cast(shown, text, inner, *is_text),
        Node::Call {
            function,
            arguments,
        } => push_list(shown, text, function_name(*function), arguments),
        Node::Folded {
            fold,
            is_distinct,
            argument,
            ..
        } => {
            shown.push_str(fold_name(*fold))?;
            match argument {
                None => Ok(shown.push_str("(*)")?),
                Some(argument) => push_folded(shown, text, *is_distinct, argument),
            }
        }
    }
}

/// Adds the steps of a chain, and the end of its parentheses.
#[cycle(nodes)]
fn push_steps(shown: &mut String, text: &str, steps: &[Step]) -> Result<(), NoMemory> {
    for step in steps {
        push_step(shown, text, step)?;
    }
    Ok(shown.push_str(")")?)
}

#[cycle(nodes)]
fn push_step(shown: &mut String, text: &str, step: &Step) -> Result<(), NoMemory> {
    match step {
        Step::Binary { op, right } => {
            push_words(shown, &[" ", operator_sign(*op), " "])?;
            push_node(shown, text, right)
        }
        Step::In { is_negated, items } => {
            push_list(
                shown,
                text,
                if *is_negated { " NOT IN " } else { " IN " },
                items,
            )
        }
        Step::Between {
            is_negated,
            low,
            high,
        } => {
            shown.push_str(if *is_negated {
                " NOT BETWEEN "
            } else {
                " BETWEEN "
            })?;
            push_node(shown, text, low)?;
            shown.push_str(" AND ")?;
            push_node(shown, text, high)
        }
    }
}

#[cycle(nodes)]
fn push_signed(shown: &mut String, text: &str, sign: &str, inner: &Node) -> Result<(), NoMemory> {
    push_words(shown, &["(", sign])?;
    push_node(shown, text, inner)?;
    Ok(shown.push_str(")")?)
}

#[cycle(nodes)]
fn push_cast(shown: &mut String, text: &str, inner: &Node, is_text: bool) -> Result<(), NoMemory> {
    shown.push_str("CAST(")?;
    push_node(shown, text, inner)?;
    Ok(shown.push_str(if is_text { " AS TEXT)" } else { " AS INTEGER)" })?)
}

/// Adds a word, and expressions in parentheses behind it.
#[cycle(nodes)]
fn push_list(shown: &mut String, text: &str, word: &str, items: &[Node]) -> Result<(), NoMemory> {
    push_words(shown, &[word, "("])?;
    let mut mark = "";
    for item in items {
        shown.push_str(mark)?;
        push_node(shown, text, item)?;
        mark = ", ";
    }
    Ok(shown.push_str(")")?)
}

#[cycle(nodes)]
fn push_folded(
    shown: &mut String,
    text: &str,
    is_distinct: bool,
    argument: &Node,
) -> Result<(), NoMemory> {
    shown.push_str(if is_distinct { "(DISTINCT " } else { "(" })?;
    push_node(shown, text, argument)?;
    Ok(shown.push_str(")")?)
}
