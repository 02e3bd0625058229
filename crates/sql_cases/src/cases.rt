//! The kinds of lines, and what is told of each.

use crate::steps::{push_cut, push_firsts, push_fold, push_ordered};
use crate::texts::push_text;
use crate::values::{push_applied, push_called, push_truth, push_worth};
use case_text::{Bench, LineKind, json_of_line, kind_of, odd_member};
use osq_value::NoMemory;
use serde_json::Value as Json;
use std::alloc::Global;

const TEXT_KINDS: [LineKind; 6] = [
    ("sql", &["is_brief"]),
    ("places", &[]),
    ("expression", &["is_brief"]),
    ("query", &[]),
    ("names", &[]),
    ("word", &[]),
];

const VALUE_KINDS: [LineKind; 4] = [
    ("op", &["of", "left", "right"]),
    ("function", &["of"]),
    ("truth", &[]),
    ("worth", &["from", "of"]),
];

const STEP_KINDS: [LineKind; 4] = [
    ("fold", &["of", "is_distinct", "rows"]),
    ("firsts", &["width"]),
    ("ordered", &["width", "descending"]),
    ("cut", &["limit", "offset"]),
];

/// Adds what an operator, a function or an expression gives.
fn push_value_case(
    alloc: Global,
    shown: &mut String,
    line: &Json,
    name: &str,
) -> Result<(), NoMemory> {
    match name {
        "op" => push_applied(alloc, shown, line),
        "function" => push_called(alloc, shown, line),
        "truth" => push_truth(alloc, shown, line),
        _ => push_worth(alloc, shown, line),
    }
}

/// Adds what a step of a query gives.
fn push_step_case(
    alloc: Global,
    shown: &mut String,
    line: &Json,
    name: &str,
) -> Result<(), NoMemory> {
    match name {
        "fold" => push_fold(alloc, shown, line),
        "firsts" => push_firsts(alloc, shown, line),
        "ordered" => push_ordered(alloc, shown, line),
        _ => push_cut(alloc, shown, line),
    }
}

fn push_odd_name(shown: &mut String, kind: &str, name: &str) -> Result<(), NoMemory> {
    shown.push_str(" (no line of ")?;
    shown.push_str(kind)?;
    shown.push_str(" has ")?;
    shown.push_str(name)?;
    Ok(shown.push_str(")")?)
}

fn push_odd(shown: &mut String, line: &Json, kind: LineKind) -> Result<(), NoMemory> {
    match odd_member(line, kind) {
        None => Ok(()),
        Some(name) => push_odd_name(shown, kind.0, name),
    }
}

/// Adds what a line gives, and a member that it may not have.
fn push_case(alloc: Global, shown: &mut String, line: &Json) -> Result<(), NoMemory> {
    if let Some(kind) = kind_of(line, TEXT_KINDS.as_slice()) {
        push_odd(shown, line, kind)?;
        return push_text(alloc, shown, line, kind.0);
    }
    if let Some(kind) = kind_of(line, VALUE_KINDS.as_slice()) {
        push_odd(shown, line, kind)?;
        return push_value_case(alloc, shown, line, kind.0);
    }
    if let Some(kind) = kind_of(line, STEP_KINDS.as_slice()) {
        push_odd(shown, line, kind)?;
        return push_step_case(alloc, shown, line, kind.0);
    }
    Ok(shown.push_str(" no kind of line")?)
}

/// Adds the line, and what it gives.
fn push_told(alloc: Global, shown: &mut String, line: &str, case: &Json) -> Result<(), NoMemory> {
    shown.push_str(line)?;
    shown.push_str("\n=>")?;
    push_case(alloc, shown, case)?;
    Ok(shown.push_str("\n")?)
}

/// What tells of lines. It keeps nothing from one to the next.
#[derive(Drop)]
pub(crate) struct Told;

impl Bench for Told {
    fn take_line(&mut self, alloc: Global, line: &str) -> Result<String, NoMemory> {
        let mut shown = String::new(alloc);
        if let Some(case) = json_of_line(alloc, line)? {
            push_told(alloc, &mut shown, line, &case)?;
        }
        Ok(shown)
    }
}
