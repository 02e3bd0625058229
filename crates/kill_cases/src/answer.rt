//! What rows give.

use case_text::kind_of_row;
use osq_program::{KillReport, kill_run};
use osq_value::NoMemory;
use serde_json::Value as Json;
use std::alloc::Global;

/// The most lines of a session.
const MOST: u64 = 1000000;

const KINDS: [&[&str]; 1] = [&["kill", "from", "count", "whole"]];

/// A number of a row, or 0.
fn number_of(row: &Json, name: &str) -> u64 {
    row.get(name).and_then(Json::as_u64).unwrap_or(0)
}

/// Adds how two sessions ended, and the numbers that they leave.
fn push_report(text: &mut String, report: &KillReport) -> Result<(), NoMemory> {
    write!(
        text,
        "first {} second {}",
        report.first.number(),
        report.second.number()
    )?;
    write!(text, " events {} batches {}", report.events, report.batches)?;
    Ok(writeln!(text, " rows {} cursor {}", report.rows, report.cursor)?)
}

/// Runs the sessions of a row, and adds what they give.
fn push_kill(alloc: Global, text: &mut String, row: &Json) -> Result<(), NoMemory> {
    let from = number_of(row, "from");
    let count = number_of(row, "count");
    let kill = number_of(row, "kill");
    let whole = row.get("whole").and_then(Json::as_bool).unwrap_or(false);
    if count < 1 || count > MOST {
        return Ok(text.push_str("no such count\n")?);
    }
    let report = kill_run(alloc, from, count, kill, whole)?;
    push_report(text, &report)
}

/// Adds what a row gives.
pub(crate) fn push_answer(alloc: Global, text: &mut String, row: &Json) -> Result<(), NoMemory> {
    match kind_of_row(&KINDS, row) {
        Some(_) => push_kill(alloc, text, row),
        None => Ok(text.push_str("no such row\n")?),
    }
}
