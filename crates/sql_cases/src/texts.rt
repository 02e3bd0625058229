//! Lines with texts of SQL.

use crate::nodes::push_node;
use crate::numbers::push_place;
use crate::queries::{push_names, push_query};
use crate::selects::{push_places, push_select};
use crate::sql::{
    Kind, Node, ParseError, ParseKind, Query, Select, TextError, kind_of_name, parse,
    parse_expression, query_of_text,
};
use crate::words::push_words;
use case_text::items_of;
use osq_value::NoMemory;
use serde_json::Value as Json;
use std::alloc::Global;

/// Adds a part of a text, as often as it says or once.
fn push_part(text: &mut String, part: &Json) -> Result<(), NoMemory> {
    let piece = part
        .get("text")
        .unwrap_or(part)
        .as_str()
        .unwrap_or("no text");
    let times = part.get("times").and_then(Json::as_u64).unwrap_or(1);
    for _ in 0..times {
        text.push_str(piece)?;
    }
    Ok(())
}

/// Adds a part, or parts of an array one behind another.
fn push_parts(text: &mut String, value: &Json) -> Result<(), NoMemory> {
    if !value.is_array() {
        return push_part(text, value);
    }
    for part in items_of(Some(value)) {
        push_part(text, part)?;
    }
    Ok(())
}

/// The text of the member of this name.
fn text_of(alloc: Global, line: &Json, name: &str) -> Result<String, NoMemory> {
    let mut text = String::new(alloc);
    if let Some(value) = line.get(name) {
        push_parts(&mut text, value)?;
    }
    Ok(text)
}

/// Adds the kind and the place of a fault.
pub(crate) fn push_fault(shown: &mut String, error: TextError) -> Result<(), NoMemory> {
    push_words(shown, &[" ", error.name(), " at "])?;
    push_place(shown, error.place())
}

/// Adds the kind and the place of a fault; NoMemory where that is the fault.
fn push_text_fault(shown: &mut String, error: TextError) -> Result<(), NoMemory> {
    match error {
        TextError::NoMemory => Err(NoMemory),
        _ => push_fault(shown, error),
    }
}

fn push_parse_fault(shown: &mut String, error: ParseError) -> Result<(), NoMemory> {
    match error.kind {
        ParseKind::NoMemory => Err(NoMemory),
        _ => push_fault(shown, TextError::Parse(error)),
    }
}

fn push_tree(shown: &mut String, line: &Json, text: &str, node: &Node) -> Result<(), NoMemory> {
    if line.get("is_brief").is_some() {
        return Ok(shown.push_str(" read")?);
    }
    shown.push_str(" ")?;
    push_node(shown, text, node)
}

/// Adds the tree of an expression.
fn push_expression(
    alloc: Global,
    shown: &mut String,
    line: &Json,
    text: &str,
) -> Result<(), NoMemory> {
    match parse_expression(alloc, text) {
        Err(error) => push_parse_fault(shown, error),
        Ok(node) => push_tree(shown, line, text, &node),
    }
}

/// Adds the tree of a select, by its copy.
fn push_copied_select(
    alloc: Global,
    shown: &mut String,
    text: &str,
    select: &Select,
) -> Result<(), NoMemory> {
    let copy = select.copy(alloc)?;
    push_select(shown, text, &copy)
}

fn push_read(
    alloc: Global,
    shown: &mut String,
    line: &Json,
    text: &str,
    select: &Select,
) -> Result<(), NoMemory> {
    if line.get("places").is_some() {
        push_places(shown, select)
    } else if line.get("is_brief").is_some() {
        Ok(shown.push_str(" read")?)
    } else {
        push_copied_select(alloc, shown, text, select)
    }
}

/// Adds the tree of a select, or where its items stand.
fn push_sql(alloc: Global, shown: &mut String, line: &Json, text: &str) -> Result<(), NoMemory> {
    match parse(alloc, text) {
        Err(error) => push_parse_fault(shown, error),
        Ok(select) => push_read(alloc, shown, line, text, &select),
    }
}

fn push_asked(
    alloc: Global,
    shown: &mut String,
    line: &Json,
    query: &Query,
) -> Result<(), NoMemory> {
    if line.get("names").is_some() {
        push_names(alloc, shown, query)
    } else {
        push_query(shown, query)
    }
}

fn push_copied_query(
    alloc: Global,
    shown: &mut String,
    line: &Json,
    query: &Query,
) -> Result<(), NoMemory> {
    let copy = query.copy(alloc)?;
    push_asked(alloc, shown, line, &copy)
}

/// Adds the query of a text, or the names of its result, by its copy.
fn push_query_of(
    alloc: Global,
    shown: &mut String,
    line: &Json,
    text: &str,
) -> Result<(), NoMemory> {
    match query_of_text(alloc, text) {
        Err(error) => push_text_fault(shown, error),
        Ok(query) => push_copied_query(alloc, shown, line, &query),
    }
}

/// Adds whether a word is a keyword.
fn push_word(shown: &mut String, word: &str) -> Result<(), NoMemory> {
    let answer = match kind_of_name(word.as_bytes()) {
        Kind::Name(_) => " name",
        _ => " keyword",
    };
    Ok(shown.push_str(answer)?)
}

fn push_what(
    alloc: Global,
    shown: &mut String,
    line: &Json,
    name: &str,
    text: &str,
) -> Result<(), NoMemory> {
    match name {
        "expression" => push_expression(alloc, shown, line, text),
        "sql" | "places" => push_sql(alloc, shown, line, text),
        "word" => push_word(shown, text),
        _ => push_query_of(alloc, shown, line, text),
    }
}

/// Adds what the text of the member of this name is: a part, or an array of them one behind another.
pub(crate) fn push_text(
    alloc: Global,
    shown: &mut String,
    line: &Json,
    name: &str,
) -> Result<(), NoMemory> {
    let text = text_of(alloc, line, name)?;
    push_what(alloc, shown, line, name, &text)
}
