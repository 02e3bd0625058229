//! Values, texts and bytes.

use case_text::{items_of, push_value, row_of, value_of};
use osq_value::{Bytes, Copied, NoMemory, Str, Value, cast_int, cast_text, compare, int_spelling};
use serde_json::Value as Json;
use std::alloc::Global;
use std::cmp::Ordering;
use std::str;

/// The text of a value; the empty text where it is none.
fn text_of(item: &Json) -> &str {
    item.as_str().unwrap_or("")
}

fn sign_of(order: Ordering) -> &'static str {
    match order {
        Ordering::Less => "<",
        Ordering::Equal => "=",
        Ordering::Greater => ">",
    }
}

/// Adds how a value stands to each of these.
fn push_signs(text: &mut String, left: &Value, values: &[Value]) -> Result<(), NoMemory> {
    for right in values {
        text.push_str(sign_of(compare(left, right)))?;
    }
    text.push_str("\n")?;
    Ok(())
}

/// Adds a line for each value, which says how it stands to each of them.
fn push_lines(text: &mut String, values: &[Value]) -> Result<(), NoMemory> {
    text.push_str("\n")?;
    for value in values {
        text.push_str(" ")?;
        push_value(text, value)?;
        text.push_str(": ")?;
        push_signs(text, value, values)?;
    }
    Ok(())
}

/// Adds how the values of an array stand to one another.
pub(crate) fn push_order(alloc: Global, text: &mut String, given: &Json) -> Result<(), NoMemory> {
    let row = row_of(alloc, given)?;
    push_lines(text, row.as_slice())
}

/// Adds the whole number that a text spells.
pub(crate) fn push_spelling(text: &mut String, given: &Json) -> Result<(), NoMemory> {
    match int_spelling(text_of(given).as_bytes()) {
        Some(number) => writeln!(text, ": {number}")?,
        None => text.push_str(": none\n")?,
    }
    Ok(())
}

fn push_found(text: &mut String, value: &Value) -> Result<(), NoMemory> {
    text.push_str(":")?;
    push_value(text, value)?;
    text.push_str("\n")?;
    Ok(())
}

/// Adds a value as a whole number.
pub(crate) fn push_cast_int(
    alloc: Global,
    text: &mut String,
    given: &Json,
) -> Result<(), NoMemory> {
    let value = value_of(alloc, given)?;
    push_found(text, &cast_int(&value))
}

/// Adds a value as a text.
pub(crate) fn push_cast_text(
    alloc: Global,
    text: &mut String,
    given: &Json,
) -> Result<(), NoMemory> {
    let value = value_of(alloc, given)?;
    push_found(text, &cast_text(alloc, &value)?)
}

/// Adds a blank, a copy of a text, and its length.
fn push_copy(alloc: Global, text: &mut String, given: &Str) -> Result<(), NoMemory> {
    let copy = given.copy(alloc)?;
    write!(text, " '{}' of {}", copy.as_str(), copy.len())?;
    Ok(())
}

/// Adds copies of two texts, and whether they are the same.
fn push_both(alloc: Global, text: &mut String, left: &Str, right: &Str) -> Result<(), NoMemory> {
    text.push_str(":")?;
    push_copy(alloc, text, left)?;
    push_copy(alloc, text, right)?;
    Ok(text.push_str(if left == right { " yes\n" } else { " no\n" })?)
}

/// A text that takes memory, however short it is.
fn long_text(alloc: Global, text: &str) -> Result<Str, NoMemory> {
    Ok(Str::from_string(String::from_str(alloc, text)?))
}

/// Adds copies of two texts, and whether they are the same. The second takes memory, however short it is.
fn push_pair(alloc: Global, text: &mut String, first: &str, second: &str) -> Result<(), NoMemory> {
    let left = Str::of(alloc, first)?;
    let right = long_text(alloc, second)?;
    push_both(alloc, text, &left, &right)
}

/// Adds copies of two texts, and whether they are the same.
pub(crate) fn push_same(alloc: Global, text: &mut String, given: &Json) -> Result<(), NoMemory> {
    match items_of(Some(given)) {
        [first, second] => push_pair(alloc, text, text_of(first), text_of(second)),
        _ => Ok(text.push_str(": not two texts\n")?),
    }
}

/// Adds these texts, one behind another.
fn join(bytes: &mut Bytes, parts: &[Json]) -> Result<(), NoMemory> {
    for part in parts {
        bytes.extend(text_of(part).as_bytes())?;
    }
    Ok(())
}

/// The bytes of these texts, one behind another.
fn joined(alloc: Global, parts: &[Json]) -> Result<Bytes, NoMemory> {
    let Some((first, rest)) = parts.split_first() else {
        return Ok(Bytes::new(alloc));
    };
    let mut bytes = Bytes::of(alloc, text_of(first).as_bytes())?;
    join(&mut bytes, rest)?;
    Ok(bytes)
}

/// Adds bytes, and how many there are.
fn push_shown(text: &mut String, bytes: &Bytes) -> Result<(), NoMemory> {
    let shown = str::from_utf8(bytes.as_slice()).unwrap_or("no UTF-8");
    Ok(writeln!(text, ": '{shown}' of {}", bytes.len())?)
}

/// Adds a copy of the joined bytes.
pub(crate) fn push_bytes(alloc: Global, text: &mut String, given: &Json) -> Result<(), NoMemory> {
    let bytes = joined(alloc, items_of(Some(given)))?;
    let copy = bytes.copy(alloc)?;
    push_shown(text, &copy)
}
