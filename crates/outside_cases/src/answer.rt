//! What rows give.

use crate::clock::push_readings;
use crate::files::push_files;
use crate::sink::push_writes;
use crate::source::push_reads;
use case_text::kind_of_row;
use osq_value::NoMemory;
use serde_json::Value as Json;
use std::alloc::Global;
use std::str;

const KINDS: [&[&str]; 4] = [
    &["source", "reads", "fails"],
    &["writes", "fails"],
    &["files", "reads", "fails"],
    &["clock", "step", "readings"],
];

/// Ends a line with bytes as text.
pub(crate) fn push_bytes(text: &mut String, bytes: &[u8]) -> Result<(), NoMemory> {
    match str::from_utf8(bytes) {
        Ok(part) => Ok(writeln!(text, "'{part}'")?),
        Err(_) => Ok(text.push_str("no UTF-8\n")?),
    }
}

/// Adds what a row gives.
pub(crate) fn push_answer(alloc: Global, text: &mut String, row: &Json) -> Result<(), NoMemory> {
    match kind_of_row(&KINDS, row) {
        Some("source") => push_reads(alloc, text, row),
        Some("writes") => push_writes(alloc, text, row),
        Some("files") => push_files(alloc, text, row),
        Some("clock") => push_readings(text, row),
        _ => Ok(text.push_str("no such row\n")?),
    }
}
