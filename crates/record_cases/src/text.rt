//! The texts of lines.

use case_text::{items_of, member_text};
use osq_value::{Bytes, NoMemory};
use serde_json::Value as Json;
use std::alloc::Global;

fn text_named<'a>(texts: &'a Json, name: &str) -> Option<&'a str> {
    texts.get("texts")?.get(name)?.as_str()
}

/// Adds a text, or the text of the name that stands behind a `$`.
fn push_plain(bytes: &mut Bytes, texts: &Json, plain: &str) -> Result<(), NoMemory> {
    let text = match plain.strip_prefix('$') {
        Some(name) => text_named(texts, name).unwrap_or(plain),
        None => plain,
    };
    bytes.extend(text.as_bytes())
}

/// A text that stands many times is added by blocks of so many.
const BLOCK: usize = 4096;

/// Adds a text so many times at once.
fn push_repeated(
    alloc: Global,
    bytes: &mut Bytes,
    text: &str,
    times: usize,
) -> Result<(), NoMemory> {
    let repeated = text.repeat(alloc, times)?;
    bytes.extend(repeated.as_bytes())
}

/// Adds a text so many times BLOCK.
fn push_blocks(
    alloc: Global,
    bytes: &mut Bytes,
    text: &str,
    blocks: usize,
) -> Result<(), NoMemory> {
    let block = text.repeat(alloc, BLOCK)?;
    for _ in 0..blocks {
        bytes.extend(block.as_bytes())?;
    }
    Ok(())
}

/// Adds a text so many times.
fn push_times(alloc: Global, bytes: &mut Bytes, part: &Json) -> Result<(), NoMemory> {
    let given = part.get("times").and_then(Json::as_u64).unwrap_or(1);
    let times = usize::try_from(given).unwrap_or(0);
    let text = member_text(part, "text");
    push_blocks(alloc, bytes, text, times / BLOCK)?;
    push_repeated(alloc, bytes, text, times % BLOCK)
}

/// Adds a part: a text, a number as that byte, or a text so many times.
fn push_part(alloc: Global, bytes: &mut Bytes, texts: &Json, part: &Json) -> Result<(), NoMemory> {
    if let Some(plain) = part.as_str() {
        return push_plain(bytes, texts, plain);
    }
    match part.as_u64() {
        Some(number) => bytes.push(u8::try_from(number).unwrap_or(0)),
        None => push_times(alloc, bytes, part),
    }
}

/// Adds the parts of an array.
fn push_parts(
    alloc: Global,
    bytes: &mut Bytes,
    texts: &Json,
    parts: &[Json],
) -> Result<(), NoMemory> {
    for part in parts {
        push_part(alloc, bytes, texts, part)?;
    }
    Ok(())
}

/// The text of a value: of a part, or of an array of them one behind another.
pub(crate) fn text_of(alloc: Global, texts: &Json, value: &Json) -> Result<Bytes, NoMemory> {
    let mut bytes = Bytes::new(alloc);
    if value.is_array() {
        push_parts(alloc, &mut bytes, texts, items_of(Some(value)))?;
    } else {
        push_part(alloc, &mut bytes, texts, value)?;
    }
    Ok(bytes)
}

/// Adds a text, with each control character but the line feed as its number in angle brackets.
pub(crate) fn push_escaped(text: &mut String, added: &str) -> Result<(), NoMemory> {
    for sign in added.chars() {
        let code = u32::from(sign);
        if code < 32 && sign != '\n' {
            write!(text, "<{code}>")?;
        } else {
            text.push(sign)?;
        }
    }
    Ok(())
}
