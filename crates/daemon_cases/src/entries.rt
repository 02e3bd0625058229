//! What entries have.

use entry_model::entry::{Batch, Entry};
use osq_value::NoMemory;
use pack_rules::schedule::{QueryKey, Schedule};
use std::alloc::Global;

/// How many events an entry has.
fn event_count(entry: &Entry) -> u64 {
    match entry {
        Entry::Appended {
            source: _,
            taken: _,
            events,
            skipped: _,
            moment: _,
        } => events.len() as u64,
        _ => 0,
    }
}

/// The number of the last event.
pub(crate) fn last_number(entries: &[Entry]) -> u64 {
    let mut last: u64 = 0;
    for entry in entries {
        last = last.saturating_add(event_count(entry));
    }
    last
}

/// What the session runs.
pub(crate) fn schedule_of(entries: &[Entry]) -> Option<&Schedule> {
    for entry in entries.iter().rev() {
        if let Entry::Configured {
            document: _,
            schedule,
            moment: _,
        } = entry
        {
            return Some(schedule);
        }
    }
    None
}

/// The batch of an entry that has one.
fn batch_in(entry: &Entry) -> Option<&Batch> {
    match entry {
        Entry::Committed { batch } => Some(batch),
        _ => None,
    }
}

/// The batches of a query, in their order.
pub(crate) fn batches_of<'a>(
    alloc: Global,
    entries: &'a [Entry],
    key: &QueryKey,
) -> Result<Vec<&'a Batch>, NoMemory> {
    let mut batches = Vec::new(alloc);
    for batch in entries.iter().filter_map(batch_in) {
        if batch.query.is(key) {
            batches.push(batch)?;
        }
    }
    Ok(batches)
}

/// The last batch of a query.
pub(crate) fn last_batch<'a>(entries: &'a [Entry], key: &QueryKey) -> Option<&'a Batch> {
    let mut last = None;
    for batch in entries.iter().filter_map(batch_in) {
        if batch.query.is(key) {
            last = Some(batch);
        }
    }
    last
}

/// How many batches there are.
pub(crate) fn batch_count(entries: &[Entry]) -> u64 {
    entries.iter().filter_map(batch_in).count() as u64
}

/// The moment that an entry begins, and nothing where it goes on in the present one.
pub(crate) fn begun_at(entry: &Entry) -> Option<u64> {
    match entry {
        Entry::Configured {
            document: _,
            schedule: _,
            moment,
        } => Some(*moment),
        Entry::Ticked { moment } => Some(*moment),
        _ => None,
    }
}

/// The present moment.
pub(crate) fn moment_of(entries: &[Entry]) -> u64 {
    let mut present = 0;
    for moment in entries.iter().filter_map(begun_at) {
        present = moment;
    }
    present
}

/// A tick begins.
pub(crate) fn is_tick(entry: &Entry) -> bool {
    matches!(entry, Entry::Ticked { .. })
}

/// A source was read.
pub(crate) fn is_reading(entry: &Entry) -> bool {
    matches!(entry, Entry::Appended { .. } | Entry::TableSet { .. })
}

/// A query was answered.
pub(crate) fn is_batch(entry: &Entry) -> bool {
    matches!(entry, Entry::Committed { .. })
}
