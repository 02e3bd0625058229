//! Bytes that a value of JSON gives.

use crate::given::items_of;
use osq_value::{Bytes, NoMemory};
use serde_json::Value as Json;
use std::alloc::Global;

/// Adds a text with a number in place of its first `#`.
fn push_counted(alloc: Global, bytes: &mut Bytes, counted: &str, at: u64) -> Result<(), NoMemory> {
    let Some((front, rest)) = counted.split_once('#') else {
        return bytes.extend(counted.as_bytes());
    };
    bytes.extend(front.as_bytes())?;
    bytes.extend(at.to_string(alloc)?.as_bytes())?;
    bytes.extend(rest.as_bytes())
}

/// Adds a text as often as the part says.
fn push_times(
    alloc: Global,
    bytes: &mut Bytes,
    counted: &str,
    part: &Json,
) -> Result<(), NoMemory> {
    let times = part.get("times").and_then(Json::as_u64).unwrap_or(1);
    for at in 0..times {
        push_counted(alloc, bytes, counted, at)?;
    }
    Ok(())
}

/// The byte of a number.
fn byte_of(part: &Json) -> Option<u8> {
    u8::try_from(part.as_u64()?).ok()
}

fn push_part(alloc: Global, bytes: &mut Bytes, part: &Json) -> Result<(), NoMemory> {
    if let Some(text) = part.as_str() {
        return bytes.extend(text.as_bytes());
    }
    if let Some(byte) = byte_of(part) {
        return bytes.push(byte);
    }
    match part.get("counted").and_then(Json::as_str) {
        Some(counted) => push_times(alloc, bytes, counted, part),
        None => bytes.extend(part.to_string(alloc)?.as_bytes()),
    }
}

/// The bytes of a part, or of an array of parts one behind another. A part is a text; a number, for that byte; an object with a text
/// `counted` and a number `times`, for the text so many times with 0, 1 and so on in place of its first `#`; and any other value, for
/// its text as JSON.
pub fn bytes_of(alloc: Global, value: &Json) -> Result<Bytes, NoMemory> {
    let mut bytes = Bytes::new(alloc);
    if !value.is_array() {
        push_part(alloc, &mut bytes, value)?;
    }
    for part in items_of(Some(value)) {
        push_part(alloc, &mut bytes, part)?;
    }
    Ok(bytes)
}
