//! Readings of a clock that goes on by steps.

use osq_outside::{Clock, StepClock};
use osq_value::NoMemory;
use serde_json::Value as Json;

fn number_of(row: &Json, name: &str) -> u64 {
    row.get(name).and_then(Json::as_u64).unwrap_or(0)
}

/// Reads a clock, and tells each moment.
pub(crate) fn push_readings(text: &mut String, row: &Json) -> Result<(), NoMemory> {
    let mut clock = StepClock {
        next: number_of(row, "clock"),
        step: number_of(row, "step"),
    };
    for _ in 0..number_of(row, "readings") {
        let moment = clock.now();
        writeln!(text, "{moment}")?;
    }
    Ok(())
}
