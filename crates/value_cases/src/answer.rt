//! What is answered to a line.

use crate::lists::{push_array, push_asked, push_gained, push_list};
use crate::tables::{push_column, push_number, push_table};
use crate::values::{
    push_bytes, push_cast_int, push_cast_text, push_order, push_same, push_spelling,
};
use case_text::{Bench, LineKind, json_of_line, kind_of, odd_member};
use osq_value::NoMemory;
use serde_json::Value as Json;
use std::alloc::Global;

/// The kinds of lines, each with the member that it has beside its own.
const KINDS: [LineKind; 13] = [
    ("order", &[]),
    ("spells", &[]),
    ("cast_int", &[]),
    ("cast_text", &[]),
    ("table", &[]),
    ("number", &[]),
    ("column", &[]),
    ("same", &[]),
    ("bytes", &[]),
    ("list", &["steps"]),
    ("keys", &["asked"]),
    ("row", &["gains"]),
    ("array", &["gains"]),
];

/// The kind of a line, and what its member gives.
fn given_kind(line: &Json) -> Option<(LineKind, &Json)> {
    let kind = kind_of(line, KINDS.as_slice())?;
    Some((kind, line.get(kind.0)?))
}

/// Adds the answer to a line over lists or rows.
fn push_listed(
    alloc: Global,
    text: &mut String,
    line: &Json,
    kind: &str,
    given: &Json,
) -> Result<(), NoMemory> {
    match kind {
        "list" => push_list(alloc, text, given, line.get("steps")),
        "keys" => push_asked(alloc, text, given, line.get("asked")),
        "array" => push_array(alloc, text, given, line.get("gains")),
        _ => push_gained(alloc, text, given, line.get("gains")),
    }
}

/// Adds the answer to a line over the catalogue, texts, lists or rows.
fn push_named(
    alloc: Global,
    text: &mut String,
    line: &Json,
    kind: &str,
    given: &Json,
) -> Result<(), NoMemory> {
    match kind {
        "table" => push_table(text, given),
        "number" => push_number(text, given),
        "column" => push_column(text, given),
        "same" => push_same(alloc, text, given),
        "bytes" => push_bytes(alloc, text, given),
        _ => push_listed(alloc, text, line, kind, given),
    }
}

/// Adds the answer to a line of this kind.
fn push_by_kind(
    alloc: Global,
    text: &mut String,
    line: &Json,
    kind: &str,
    given: &Json,
) -> Result<(), NoMemory> {
    match kind {
        "order" => push_order(alloc, text, given),
        "spells" => push_spelling(text, given),
        "cast_int" => push_cast_int(alloc, text, given),
        "cast_text" => push_cast_text(alloc, text, given),
        _ => push_named(alloc, text, line, kind, given),
    }
}

/// Adds the answer to a line of any kind: the kind, what is given, and what is made of it.
fn push_line(alloc: Global, text: &mut String, line: &Json) -> Result<(), NoMemory> {
    let Some((kind, given)) = given_kind(line) else {
        return Ok(text.push_str("no kind of line\n")?);
    };
    if let Some(key) = odd_member(line, kind) {
        return Ok(writeln!(text, "no line of {} has {key}", kind.0)?);
    }
    write!(text, "{} {given}", kind.0)?;
    push_by_kind(alloc, text, line, kind.0, given)
}

/// Adds the answer to a line's JSON, which is Null where the line is none.
fn push_told(alloc: Global, text: &mut String, line: &Json) -> Result<(), NoMemory> {
    if line.is_null() {
        return Ok(text.push_str("not JSON\n")?);
    }
    push_line(alloc, text, line)
}

/// What answers lines, each by itself.
#[derive(Clone, Copy)]
pub(crate) struct Answers;

impl Bench for Answers {
    fn take_line(&mut self, alloc: Global, line: &str) -> Result<String, NoMemory> {
        let mut text = String::new(alloc);
        if let Some(line) = json_of_line(alloc, line)? {
            push_told(alloc, &mut text, &line)?;
        }
        Ok(text)
    }
}
