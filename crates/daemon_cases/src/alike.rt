//! Whether two kept lists have the same batches but for their numbers and cuts.

use crate::entries::{batch_count, batches_of, schedule_of};
use crate::rows::are_same;
use entry_model::entry::{Batch, Entry};
use osq_value::NoMemory;
use pack_rules::schedule::QueryKey;
use std::alloc::Global;

/// The two batches have the same slice, moment and rows.
fn is_alike((one, other): (&&Batch, &&Batch)) -> bool {
    one.lo == other.lo
        && one.hi == other.hi
        && one.moment == other.moment
        && are_same(&one.rows, &other.rows)
}

/// The batches are alike, one by one.
fn are_alike(batches: &[&Batch], others: &[&Batch]) -> bool {
    batches.len() == others.len() && batches.iter().zip(others.iter()).all(is_alike)
}

/// The batches of the query are alike in both lists.
fn answers_alike(
    alloc: Global,
    entries: &[Entry],
    others: &[Entry],
    key: &QueryKey,
) -> Result<bool, NoMemory> {
    let batches = batches_of(alloc, entries, key)?;
    let others = batches_of(alloc, others, key)?;
    Ok(are_alike(batches.as_slice(), others.as_slice()))
}

/// The two lists have as many batches, and those of each query of the first one's schedule are alike in both.
pub(crate) fn have_same_batches(
    alloc: Global,
    entries: &[Entry],
    others: &[Entry],
) -> Result<bool, NoMemory> {
    let mut is_same = batch_count(entries) == batch_count(others);
    if let Some(schedule) = schedule_of(entries) {
        for query in schedule.queries.as_slice() {
            is_same = answers_alike(alloc, entries, others, &query.key)? && is_same;
        }
    }
    Ok(is_same)
}
