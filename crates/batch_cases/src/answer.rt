//! What rows give.

use crate::keeper::{push_load, push_seals};
use crate::lines::{push_batch, push_object};
use crate::recorded::push_recorded;
use case_text::{kind_of_row, member_text};
use osq_value::NoMemory;
use serde_json::Value as Json;
use std::alloc::Global;
use std::str;

const KINDS: [&[&str]; 5] = [
    &["kept"],
    &["seals", "fails", "is_whole"],
    &["recorded"],
    &["lines", "names", "rows", "decoration"],
    &["object", "names"],
];

/// Adds bytes as text.
pub(crate) fn push_text(text: &mut String, bytes: &[u8]) -> Result<(), NoMemory> {
    match str::from_utf8(bytes) {
        Ok(part) => Ok(text.push_str(part)?),
        Err(_) => Ok(text.push_str("no UTF-8\n")?),
    }
}

/// Adds what a row gives.
pub(crate) fn push_answer(alloc: Global, text: &mut String, row: &Json) -> Result<(), NoMemory> {
    match kind_of_row(&KINDS, row) {
        Some("kept") => push_load(alloc, text, member_text(row, "kept")),
        Some("seals") => push_seals(alloc, text, row),
        Some("recorded") => push_recorded(alloc, text, member_text(row, "recorded")),
        Some("lines") => push_batch(alloc, text, row),
        Some("object") => push_object(alloc, text, row),
        _ => Ok(text.push_str("no such row\n")?),
    }
}
