//! Whether a kept list is a legal one, by a walk that takes each entry with those before it.

use crate::entries::{
    batch_count, begun_at, is_tick, last_batch, last_number, moment_of, schedule_of,
};
use crate::means::rows_meant;
use entry_model::entry::{Batch, Entry};
use osq_value::NoMemory;
use pack_rules::schedule::{Mode, QueryKey, Scheduled};
use std::alloc::Global;

/// A query has no batch, or its interval has passed.
fn is_due(entries: &[Entry], query: &Scheduled) -> bool {
    match last_batch(entries, &query.key) {
        None => true,
        Some(batch) => { batch.moment.saturating_add(query.interval) <= moment_of(entries) }
    }
}

/// In the present tick no query is due.
fn none_due(entries: &[Entry]) -> bool {
    let Some(schedule) = schedule_of(entries) else {
        return true;
    };
    !entries.iter().any(is_tick)
        || !schedule
            .queries
            .as_slice()
            .iter()
            .any(|query| is_due(entries, query))
}

/// The key is that of a query which is due.
fn is_one_due(entries: &[Entry], key: &QueryKey) -> bool {
    match schedule_of(entries) {
        None => false,
        Some(schedule) => schedule
            .queries
            .as_slice()
            .iter()
            .any(|query| query.key.is(key) && is_due(entries, query)),
    }
}

/// Behind this entry a cut of the query is out of date.
fn outdates(entry: &Entry, key: &QueryKey) -> bool {
    match entry {
        Entry::Committed { batch } => batch.query.is(key),
        Entry::Opened {
            session: _,
            rules: _,
        } => true,
        _ => begun_at(entry).is_some(),
    }
}

/// Where the slice of the query's next batch begins.
fn begins_at(entries: &[Entry], key: &QueryKey) -> u64 {
    match (key.mode, last_batch(entries, key)) {
        (Mode::Evented, Some(batch)) => batch.hi,
        _ => 0,
    }
}

/// What is wrong with the turn of a batch behind these entries, of which its cut lacks those `behind` it.
fn turn_fault(entries: &[Entry], behind: &[Entry], batch: &Batch) -> Option<&'static str> {
    if batch.number != batch_count(entries).saturating_add(1) {
        return Some("a number that isn't the next");
    }
    if !is_one_due(entries, &batch.query) {
        return Some("a batch that isn't due");
    }
    if behind.iter().any(|entry| outdates(entry, &batch.query)) {
        return Some("a cut that is out of date");
    }
    None
}

/// What is wrong with the slice and the moment of a batch behind these entries, of which its cut has those `seen`.
fn slice_fault(entries: &[Entry], seen: &[Entry], batch: &Batch) -> Option<&'static str> {
    if batch.lo != begins_at(entries, &batch.query) || batch.hi != last_number(seen) {
        return Some("another slice");
    }
    if batch.moment != moment_of(entries) {
        return Some("another moment");
    }
    None
}

/// What is wrong with the rows of a batch whose cut has these entries.
fn rows_fault(
    alloc: Global,
    seen: &[Entry],
    batch: &Batch,
) -> Result<Option<&'static str>, NoMemory> {
    if rows_meant(alloc, seen, batch)? {
        Ok(None)
    } else {
        Ok(Some("other rows"))
    }
}

/// What is wrong with a batch behind these entries, of which its cut has the first.
fn batch_fault(
    alloc: Global,
    entries: &[Entry],
    batch: &Batch,
) -> Result<Option<&'static str>, NoMemory> {
    let cut = batch.cut as usize;
    if entries.len() < cut {
        return Ok(Some("a cut beyond the list"));
    }
    let (seen, behind) = entries.split_at(cut);
    match turn_fault(entries, behind, batch).or(slice_fault(entries, seen, batch)) {
        Some(fault) => Ok(Some(fault)),
        None => rows_fault(alloc, seen, batch),
    }
}

/// The entry begins a moment before the present one.
fn falls(entries: &[Entry], entry: &Entry) -> bool {
    match begun_at(entry) {
        Some(moment) => moment < moment_of(entries),
        None => false,
    }
}

/// What is wrong with an entry behind these.
fn next_fault(
    alloc: Global,
    entries: &[Entry],
    entry: &Entry,
) -> Result<Option<&'static str>, NoMemory> {
    if falls(entries, entry) {
        return Ok(Some("a moment that falls"));
    }
    match entry {
        Entry::Ticked { moment: _ } if !none_due(entries) => Ok(Some("a tick with a due query")),
        Entry::Appended {
            source: _,
            taken: _,
            events: _,
            skipped: _,
            moment,
        } if *moment != moment_of(entries) => Ok(Some("events of another moment")),
        Entry::Opened { session: _, rules } if *rules != 2 => Ok(Some("other rules")),
        Entry::Committed { batch } => batch_fault(alloc, entries, batch),
        _ => Ok(None),
    }
}

/// What is wrong with a kept list: the fault of the first entry that may not follow those before it, or a query that is still due.
pub(crate) fn fault_of(alloc: Global, entries: &[Entry]) -> Result<Option<&'static str>, NoMemory> {
    for place in 0..entries.len() {
        if let Some(fault) = next_fault(alloc, &entries[..place], &entries[place])? {
            return Ok(Some(fault));
        }
    }
    Ok(if none_due(entries) {
        None
    } else {
        Some("a query that is still due")
    })
}
