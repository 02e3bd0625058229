//! What rows give.

use crate::counts::{Counts, push_counts};
use crate::story::tell;
use case_text::kind_of_row;
use osq_value::NoMemory;
use serde_json::Value as Json;
use std::alloc::Global;

const KINDS: [&[&str]; 1] = [&["from", "count"]];

fn number_of(row: &Json, name: &str) -> u64 {
    row.get(name).and_then(Json::as_u64).unwrap_or(0)
}

/// Adds what there was in so many stories, from this number on; or the first that leaves something wrong.
fn push_stories(alloc: Global, text: &mut String, from: u64, count: u64) -> Result<(), NoMemory> {
    let mut counts = Counts::NOTHING;
    for seed in from..from.saturating_add(count) {
        if let Some(fault) = tell(alloc, seed, &mut counts)? {
            return Ok(writeln!(text, "story {seed}: {fault}")?);
        }
    }
    writeln!(text, "{count} stories")?;
    push_counts(text, &counts)
}

/// Adds what a row gives.
pub(crate) fn push_answer(alloc: Global, text: &mut String, row: &Json) -> Result<(), NoMemory> {
    match kind_of_row(&KINDS, row) {
        Some(_) => push_stories(alloc, text, number_of(row, "from"), number_of(row, "count")),
        None => Ok(text.push_str("no such row\n")?),
    }
}
