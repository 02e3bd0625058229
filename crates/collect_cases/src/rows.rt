//! What rows give.

use crate::answers::{push_answered, push_line};
use crate::collecting::{push_collected, push_torn};
use case_text::kind_of_row;
use osq_value::NoMemory;
use serde_json::Value as Json;
use std::alloc::Global;
use std::str;

const KINDS: [&[&str]; 4] = [
    &[
        "answer", "host", "number", "recorded", "kept", "found", "kind",
    ],
    &["line"],
    &[
        "collect", "file", "rounds", "files", "source", "ledger", "answers",
    ],
    &["torn"],
];

/// Adds bytes as text, with a line feed behind each line.
pub(crate) fn push_bytes(text: &mut String, bytes: &[u8]) -> Result<(), NoMemory> {
    match str::from_utf8(bytes) {
        Ok(part) => text.push_str(part)?,
        Err(_) => text.push_str("no UTF-8")?,
    }
    if bytes.last() == Some(&b'\n') {
        Ok(())
    } else {
        Ok(text.push_str("|\n")?)
    }
}

/// Adds what a row gives.
pub(crate) fn push_row(alloc: Global, text: &mut String, row: &Json) -> Result<(), NoMemory> {
    match kind_of_row(&KINDS, row) {
        Some("answer") => push_answered(alloc, text, row),
        Some("line") => push_line(alloc, text, row),
        Some("collect") => push_collected(alloc, text, row),
        Some("torn") => push_torn(alloc, text, row),
        _ => Ok(text.push_str("no such row\n")?),
    }
}
