//! What rows give.

use crate::fetches::{push_failing, push_fetches};
use crate::seals::{push_loads, push_refusals};
use case_text::{kind_of_row, member_text};
use osq_value::NoMemory;
use serde_json::Value as Json;
use std::alloc::Global;

const KINDS: [&[&str]; 4] = [
    &["memory", "fails", "fetch"],
    &["fetch", "seals", "then"],
    &["seals", "then"],
    &["before"],
];

/// Adds what a row gives.
pub(crate) fn push_answer(alloc: Global, text: &mut String, row: &Json) -> Result<(), NoMemory> {
    match kind_of_row(&KINDS, row) {
        Some("memory") => push_failing(alloc, text, row),
        Some("fetch") => push_fetches(alloc, text, row),
        Some("seals") => push_loads(alloc, text, row),
        Some("before") => push_refusals(alloc, text, member_text(row, "before")),
        _ => Ok(text.push_str("no such row\n")?),
    }
}
