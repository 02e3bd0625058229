//! What a run leaves, as text that is the same whatever the schedule of its threads.

use crate::entries::{batches_of, last_number, schedule_of};
use crate::list::fault_of;
use crate::run::Run;
use entry_model::entry::{Batch, Entry};
use osq_value::NoMemory;
use pack_rules::schedule::{Mode, QueryKey, Scheduled};
use std::alloc::Global;

/// The slice of the second begins where that of the first ends.
fn is_chained((before, next): (&&Batch, &&Batch)) -> bool {
    before.hi == next.lo
}

/// Each of the slices begins where the one before ends.
fn are_chained(batches: &[&Batch]) -> bool {
    let behind = batches.iter().skip(1);
    batches.iter().zip(behind).all(is_chained)
}

/// What is told of a run's batches, behind how many there are.
#[derive(Clone, Copy)]
pub(crate) struct Shown {
    /// Where their slices begin and end, and the number of result lines.
    pub(crate) ends: bool,
    /// Their slices.
    pub(crate) slices: bool,
    /// How many frames were sent.
    pub(crate) sent: bool,
}

/// Adds how many batches there are, and whether the slices of an evented query follow one another.
fn push_count(text: &mut String, mode: Mode, batches: &[&Batch]) -> Result<(), NoMemory> {
    write!(text, " {} batches", batches.len())?;
    if matches!(mode, Mode::Evented) && !are_chained(batches) {
        text.push_str(", not one behind another")?;
    }
    Ok(())
}

fn push_ends(text: &mut String, batches: &[&Batch]) -> Result<(), NoMemory> {
    if let (Some(first), Some(last)) = (batches.first(), batches.last()) {
        write!(text, ", from {} to {}", first.lo, last.hi)?;
    }
    Ok(())
}

fn push_slices(text: &mut String, batches: &[&Batch]) -> Result<(), NoMemory> {
    for batch in batches {
        write!(text, " ({},{}]", batch.lo, batch.hi)?;
    }
    Ok(())
}

/// Adds a line for a query with these batches.
fn push_batches(
    text: &mut String,
    key: &QueryKey,
    batches: &[&Batch],
    shown: Shown,
) -> Result<(), NoMemory> {
    write!(text, "{}:", key.name.as_str())?;
    push_count(text, key.mode, batches)?;
    if shown.ends {
        push_ends(text, batches)?;
    }
    if shown.slices {
        push_slices(text, batches)?;
    }
    Ok(text.push_str("\n")?)
}

/// Adds a line for each query.
fn push_queries(
    alloc: Global,
    text: &mut String,
    entries: &[Entry],
    queries: &[Scheduled],
    shown: Shown,
) -> Result<(), NoMemory> {
    for query in queries {
        let batches = batches_of(alloc, entries, &query.key)?;
        push_batches(text, &query.key, batches.as_slice(), shown)?;
    }
    Ok(())
}

/// Adds what is wrong with the kept list, if anything is.
fn push_fault(alloc: Global, text: &mut String, entries: &[Entry]) -> Result<(), NoMemory> {
    if let Some(fault) = fault_of(alloc, entries)? {
        writeln!(text, "{fault}")?;
    }
    Ok(())
}

/// Adds what the kept list has, and what is wrong with it.
fn push_list(
    alloc: Global,
    text: &mut String,
    entries: &[Entry],
    shown: Shown,
) -> Result<(), NoMemory> {
    let Some(schedule) = schedule_of(entries) else {
        return Ok(text.push_str("nothing kept\n")?);
    };
    writeln!(text, "{} events", last_number(entries))?;
    push_queries(alloc, text, entries, schedule.queries.as_slice(), shown)?;
    push_fault(alloc, text, entries)
}

/// Adds how many result lines there are, and how many frames were sent.
fn push_written(text: &mut String, run: &Run, shown: Shown) -> Result<(), NoMemory> {
    if shown.ends {
        writeln!(text, "{} result lines", run.results().lines().count())?;
    }
    if shown.sent {
        writeln!(text, "{} frames sent", run.sent())?;
    }
    Ok(())
}

/// Adds the status lines.
fn push_told(text: &mut String, told: &str) -> Result<(), NoMemory> {
    for line in told.lines() {
        writeln!(text, "! {line}")?;
    }
    Ok(())
}

/// Adds what a run leaves.
pub(crate) fn push_left(
    alloc: Global,
    text: &mut String,
    run: &Run,
    shown: Shown,
) -> Result<(), NoMemory> {
    writeln!(text, "status {}", run.status)?;
    push_list(alloc, text, run.entries(), shown)?;
    push_written(text, run, shown)?;
    push_told(text, run.told())
}
