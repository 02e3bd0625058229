//! Texts of a story.

use case_text::items_of;
use osq_value::NoMemory;
use serde_json::Value as Json;
use std::alloc::Global;

/// Adds a value as JSON.
fn push_json(alloc: Global, text: &mut String, value: &Json) -> Result<(), NoMemory> {
    let json = value.to_string(alloc)?;
    Ok(text.push_str(json.as_str())?)
}

/// Adds a line: a text as it is, and another value as JSON.
fn push_line(alloc: Global, text: &mut String, line: &Json) -> Result<(), NoMemory> {
    match line.as_str() {
        Some(plain) => text.push_str(plain)?,
        None => push_json(alloc, text, line)?,
    }
    Ok(text.push_str("\n")?)
}

/// Adds lines, or says that there is no text.
fn push_lines(alloc: Global, text: &mut String, lines: Option<&Json>) -> Result<(), NoMemory> {
    if lines.is_none() {
        return Ok(text.push_str("no text")?);
    }
    for line in items_of(lines) {
        push_line(alloc, text, line)?;
    }
    Ok(())
}

/// Adds a text with a number in place of its first `#`.
fn push_counted(text: &mut String, counted: &str, at: u64) -> Result<(), NoMemory> {
    match counted.split_once('#') {
        Some((front, rest)) => write!(text, "{front}{at}{rest}")?,
        None => text.push_str(counted)?,
    }
    Ok(())
}

/// Adds what isn't a name, for the time of this number: a text, a text with the number in it, a value as JSON, or lines.
fn push_own(alloc: Global, text: &mut String, part: &Json, at: u64) -> Result<(), NoMemory> {
    if let Some(plain) = part.as_str() {
        return Ok(text.push_str(plain)?);
    }
    if let Some(counted) = part.get("counted").and_then(Json::as_str) {
        return push_counted(text, counted, at);
    }
    match part.get("json") {
        Some(value) => push_json(alloc, text, value),
        None => push_lines(alloc, text, part.get("lines")),
    }
}

/// What a line of `texts` has of this name.
fn text_in<'a>(line: &'a Json, name: &str) -> Option<&'a Json> {
    line.get("texts")?.get(name)
}

/// What the last line of `texts` with this name has.
fn text_named<'a>(texts: &'a [Json], name: &str) -> Option<&'a Json> {
    for line in texts.iter().rev() {
        if let Some(found) = text_in(line, name) {
            return Some(found);
        }
    }
    None
}

/// Adds the text of this name.
fn push_named(
    alloc: Global,
    text: &mut String,
    texts: &[Json],
    name: &str,
    at: u64,
) -> Result<(), NoMemory> {
    match text_named(texts, name) {
        Some(found) => push_own(alloc, text, found, at),
        None => Ok(write!(text, "no text {name}")?),
    }
}

/// Adds a part, for the time of this number.
fn push_part(
    alloc: Global,
    text: &mut String,
    texts: &[Json],
    part: &Json,
    at: u64,
) -> Result<(), NoMemory> {
    match part.get("named").and_then(Json::as_str) {
        Some(name) => push_named(alloc, text, texts, name, at),
        None => push_own(alloc, text, part, at),
    }
}

/// Adds a part as often as it says, counted from 0, or once.
fn push_times(
    alloc: Global,
    text: &mut String,
    texts: &[Json],
    part: &Json,
) -> Result<(), NoMemory> {
    let times = part.get("times").and_then(Json::as_u64).unwrap_or(1);
    for at in 0..times {
        push_part(alloc, text, texts, part, at)?;
    }
    Ok(())
}

/// Adds a part, or parts of an array one behind another.
fn push_parts(
    alloc: Global,
    text: &mut String,
    texts: &[Json],
    value: &Json,
) -> Result<(), NoMemory> {
    if !value.is_array() {
        return push_times(alloc, text, texts, value);
    }
    for part in items_of(Some(value)) {
        push_times(alloc, text, texts, part)?;
    }
    Ok(())
}

/// The text of a value: of a part, or of an array of them one behind another.
pub(crate) fn text_of(alloc: Global, texts: &[Json], value: &Json) -> Result<String, NoMemory> {
    let mut text = String::new(alloc);
    push_parts(alloc, &mut text, texts, value)?;
    Ok(text)
}
