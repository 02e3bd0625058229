//! What rows give.

use crate::frames::{push_decoded, push_encoded};
use crate::ledger::push_receipts;
use case_text::{bytes_of, items_of, kind_of_row};
use osq_value::NoMemory;
use serde_json::Value as Json;
use std::alloc::Global;

const KINDS: [&[&str]; 3] = [
    &[
        "frame", "number", "text", "mode", "lo", "hi", "cut", "moment", "names", "rows",
    ],
    &["line"],
    &["frames"],
];

/// Adds what the line of a row is decoded to.
fn push_line(alloc: Global, text: &mut String, line: &Json) -> Result<(), NoMemory> {
    let line = bytes_of(alloc, line)?;
    push_decoded(alloc, text, line.as_slice())
}

/// Adds what a row gives.
pub(crate) fn push_answer(alloc: Global, text: &mut String, row: &Json) -> Result<(), NoMemory> {
    match kind_of_row(&KINDS, row) {
        Some("frame") => push_encoded(alloc, text, row),
        Some("line") => push_line(alloc, text, row.get("line").unwrap_or(row)),
        Some("frames") => push_receipts(alloc, text, items_of(row.get("frames"))),
        _ => Ok(text.push_str("no such row\n")?),
    }
}
