//! What rows give.

use crate::stops::{Trial, push_stops, trial_of};
use case_text::{kind_of_row, member_text};
use osq_value::NoMemory;
use serde_json::Value as Json;
use std::alloc::Global;

const KINDS: [&[&str]; 1] = [&["seals", "stops", "frames"]];

fn frames_of(row: &Json) -> usize {
    let frames = row.get("frames").and_then(Json::as_u64).unwrap_or(1000);
    usize::try_from(frames).unwrap_or(1000)
}

fn trial_in(alloc: Global, row: &Json) -> Result<Option<Trial>, NoMemory> {
    if kind_of_row(&KINDS, row).is_none() {
        return Ok(None);
    }
    let is_log = member_text(row, "stops") == "log";
    trial_of(alloc, row, is_log, frames_of(row))
}

/// Adds what a row gives.
pub(crate) fn push_answer(alloc: Global, text: &mut String, row: &Json) -> Result<(), NoMemory> {
    match trial_in(alloc, row)? {
        Some(trial) => push_stops(alloc, text, &trial),
        None => Ok(text.push_str("no such row\n")?),
    }
}
