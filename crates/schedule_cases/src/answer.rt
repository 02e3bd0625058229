//! What rows give.

use crate::given::{host_of, rules_of};
use crate::scheduled::push_read;
use case_text::{kind_of_row, member_text};
use osq_value::NoMemory;
use pack_rules::{host_number, rules_hold};
use serde_json::Value as Json;
use std::alloc::Global;

const KINDS: [&[&str]; 3] = [
    &["rules", "host"],
    &["number"],
    &["schedule", "found", "host", "left_out"],
];

/// Tells whether rules hold on a host.
fn push_rules(alloc: Global, text: &mut String, row: &Json) -> Result<(), NoMemory> {
    let host = host_of(alloc, row)?;
    let rules = rules_of(alloc, row)?;
    text.push_str(if rules_hold(&host, &rules) {
        "holds\n"
    } else {
        "doesn't hold\n"
    })?;
    Ok(())
}

fn push_number(text: &mut String, identifier: &str) -> Result<(), NoMemory> {
    let number = host_number(identifier);
    Ok(writeln!(text, "{number}")?)
}

/// Adds what a row gives.
pub(crate) fn push_answer(alloc: Global, text: &mut String, row: &Json) -> Result<(), NoMemory> {
    match kind_of_row(&KINDS, row) {
        Some("rules") => push_rules(alloc, text, row),
        Some("number") => push_number(text, member_text(row, "number")),
        Some("schedule") => push_read(alloc, text, row),
        _ => Ok(text.push_str("no such row\n")?),
    }
}
