//! What rows give.

use crate::forward::push_rounds;
use crate::window::push_calls;
use case_text::kind_of_row;
use osq_value::NoMemory;
use serde_json::Value as Json;
use std::alloc::Global;

const KINDS: [&[&str]; 2] = [
    &["window", "calls"],
    &[
        "forward", "texts", "batches", "acked", "answers", "keeper", "link", "rounds",
    ],
];

/// Adds what a row gives.
pub(crate) fn push_answer(alloc: Global, text: &mut String, row: &Json) -> Result<(), NoMemory> {
    match kind_of_row(&KINDS, row) {
        Some("window") => push_calls(text, row),
        Some("forward") => push_rounds(alloc, text, row),
        _ => Ok(text.push_str("no such row\n")?),
    }
}
