//! Lines with operators and functions on values.

use crate::signs::{Named, function_of, named, operator_of};
use crate::sql::{
    Expr, Operator, Query, apply, call, evaluate, minus, negation, query_of_text, truth,
};
use crate::texts::push_fault;
use crate::words::push_words;
use case_text::{member_text, push_value, value_of, values_of};
use osq_value::{Affinity, NoMemory, Row, Value};
use serde_json::Value as Json;
use std::alloc::Global;

/// The affinity that a side may have.
const AFFINITIES: [Named<Option<Affinity>>; 3] = [
    ("", None),
    ("INTEGER", Some(Affinity::Integer)),
    ("TEXT", Some(Affinity::Text)),
];

/// The affinity of the side of this name: nothing where the line names none that there is.
fn side(line: &Json, name: &str) -> Option<Option<Affinity>> {
    named(AFFINITIES.as_slice(), member_text(line, name))
}

/// The operator, and the affinities of its sides.
type Operation = (Operator, (Option<Affinity>, Option<Affinity>));

fn operation(line: &Json) -> Option<Operation> {
    let op = operator_of(member_text(line, "op"))?;
    Some((op, (side(line, "left")?, side(line, "right")?)))
}

/// The values that the line gives.
pub(crate) fn given_values(alloc: Global, line: &Json) -> Result<Vec<Value>, NoMemory> {
    match line.get("of") {
        None => Ok(Vec::new(alloc)),
        Some(item) => values_of(alloc, item),
    }
}

fn push_operation(
    alloc: Global,
    shown: &mut String,
    line: &Json,
    values: &[Value],
) -> Result<(), NoMemory> {
    match (operation(line), values) {
        (Some((op, sides)), [left, right]) => {
            push_value(shown, &apply(alloc, op, left, right, sides)?)
        }
        _ => Ok(shown.push_str(" no operator of two values")?),
    }
}

/// Adds what an operator gives.
pub(crate) fn push_applied(alloc: Global, shown: &mut String, line: &Json) -> Result<(), NoMemory> {
    let values = given_values(alloc, line)?;
    push_operation(alloc, shown, line, values.as_slice())
}

fn push_call(
    alloc: Global,
    shown: &mut String,
    line: &Json,
    arguments: &Row,
) -> Result<(), NoMemory> {
    match function_of(member_text(line, "function")) {
        None => Ok(shown.push_str(" no function")?),
        Some(function) => push_value(shown, &call(alloc, function, arguments)?),
    }
}

/// Adds what a function gives.
pub(crate) fn push_called(alloc: Global, shown: &mut String, line: &Json) -> Result<(), NoMemory> {
    let arguments = Row::from_vec(given_values(alloc, line)?);
    push_call(alloc, shown, line, &arguments)
}

fn truth_word(value: &Value) -> &'static str {
    match truth(value) {
        None => "unknown",
        Some(true) => "true",
        Some(false) => "false",
    }
}

/// Adds a word, and the value behind it.
fn push_worded(shown: &mut String, word: &str, value: &Value) -> Result<(), NoMemory> {
    shown.push_str(word)?;
    push_value(shown, value)
}

fn push_turned(shown: &mut String, value: &Value) -> Result<(), NoMemory> {
    push_words(shown, &[" ", truth_word(value)])?;
    push_worded(shown, ", NOT", &negation(value))?;
    push_worded(shown, ", minus", &minus(value))
}

/// Adds the truth of a value, its negation, and the value with its sign turned.
pub(crate) fn push_truth(alloc: Global, shown: &mut String, line: &Json) -> Result<(), NoMemory> {
    let Some(item) = line.get("truth") else {
        return Ok(());
    };
    let value = value_of(alloc, item)?;
    push_turned(shown, &value)
}

/// Adds the value of an expression over a row of the line.
fn push_evaluated(
    alloc: Global,
    shown: &mut String,
    line: &Json,
    expr: &Expr,
) -> Result<(), NoMemory> {
    let row = Row::from_vec(given_values(alloc, line)?);
    push_value(shown, &evaluate(alloc, expr, &row)?)
}

/// Adds the value of the first item of a query.
fn push_first_item(
    alloc: Global,
    shown: &mut String,
    line: &Json,
    query: &Query,
) -> Result<(), NoMemory> {
    match query.items.get(0) {
        None => Ok(shown.push_str(" no item")?),
        Some(item) => push_evaluated(alloc, shown, line, &item.expr),
    }
}

fn push_item_of(
    alloc: Global,
    shown: &mut String,
    line: &Json,
    text: &str,
) -> Result<(), NoMemory> {
    match query_of_text(alloc, text) {
        Err(error) => push_fault(shown, error),
        Ok(query) => push_first_item(alloc, shown, line, &query),
    }
}

/// Adds the value of an expression over a row of a table.
pub(crate) fn push_worth(alloc: Global, shown: &mut String, line: &Json) -> Result<(), NoMemory> {
    let (worth, from) = (member_text(line, "worth"), member_text(line, "from"));
    let mut text = String::new(alloc);
    push_words(&mut text, &["SELECT ", worth, " FROM ", from])?;
    push_item_of(alloc, shown, line, &text)
}
