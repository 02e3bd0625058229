//! Batches that are recorded in room that was made for them.

use case_lists::key_of;
use entry_model::reserved::ReservedRuns;
use entry_model::restored::{Run, RunList};
use osq_value::NoMemory;
use std::alloc::Global;

/// Adds a line for each run.
fn push_runs(text: &mut String, runs: &[Run]) -> Result<(), NoMemory> {
    for run in runs {
        write!(text, "run {} batches {} ", run.key.name.as_str(), run.count)?;
        writeln!(
            text,
            "last {} up to {} at {}",
            run.number, run.hi, run.moment
        )?;
    }
    Ok(())
}

/// Makes room, records the first batch of a query, and tells the runs.
pub(crate) fn push_recorded(alloc: Global, text: &mut String, name: &str) -> Result<(), NoMemory> {
    let key = key_of(alloc, name)?;
    let mut runs = ReservedRuns::of(RunList::new(alloc));
    runs.reserve_runs(1)?;
    runs.record_run(None, key, 4, 30, 1000);
    push_runs(text, runs.as_slice())
}
