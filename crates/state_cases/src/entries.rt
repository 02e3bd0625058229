//! Entries as lines of text.

use crate::shown::{push_number, table_name, tell};
use case_text::{push_row, push_rows};
use entry_model::entry::{Batch, Entry, EntryList};
use osq_value::{EventList, NoMemory, TableId};
use pack_rules::schedule::Schedule;

/// Adds events, each as the name of its table and its row.
fn push_events(text: &mut String, events: &EventList) -> Result<(), NoMemory> {
    for event in events.as_slice() {
        tell(text, table_name(event.table))?;
        push_row(text, &event.row)?;
    }
    Ok(())
}

/// Adds the moment of a schedule, and its queries, each as its name and its seconds.
fn push_configured(text: &mut String, schedule: &Schedule, moment: u64) -> Result<(), NoMemory> {
    push_number(text, "configured at ", moment)?;
    text.push_str(":")?;
    for query in schedule.queries.as_slice() {
        tell(text, query.key.name.as_str())?;
        push_number(text, "/", query.interval)?;
    }
    Ok(())
}

/// Adds up to which byte of which source something was taken.
fn push_taken(text: &mut String, taken: u64, source: &str) -> Result<(), NoMemory> {
    push_number(text, "", taken)?;
    text.push_str(" of ")?;
    Ok(text.push_str(source)?)
}

fn push_skipped(text: &mut String, skipped: u64, moment: u64) -> Result<(), NoMemory> {
    push_number(text, ", skipped ", skipped)?;
    push_number(text, ", at ", moment)?;
    Ok(text.push_str(":")?)
}

fn push_expired(
    text: &mut String,
    table: TableId,
    floor: u64,
    moment: u64,
) -> Result<(), NoMemory> {
    text.push_str("expired ")?;
    text.push_str(table_name(table))?;
    push_number(text, " up to ", floor)?;
    push_number(text, ", at ", moment)
}

/// Adds a slice: the numbers above which and up to which its events are.
pub(crate) fn push_slice(text: &mut String, lo: u64, hi: u64) -> Result<(), NoMemory> {
    push_number(text, "slice (", lo)?;
    push_number(text, ",", hi)?;
    Ok(text.push_str("], ")?)
}

/// Adds at how many entries and which moment a cut was made.
pub(crate) fn push_place(text: &mut String, position: u64, moment: u64) -> Result<(), NoMemory> {
    push_number(text, "cut ", position)?;
    push_number(text, ", at ", moment)
}

fn push_batch(text: &mut String, batch: &Batch) -> Result<(), NoMemory> {
    push_number(text, "committed ", batch.number)?;
    text.push_str(" of ")?;
    text.push_str(batch.query.name.as_str())?;
    text.push_str(", ")?;
    push_slice(text, batch.lo, batch.hi)?;
    push_place(text, batch.cut, batch.moment)?;
    text.push_str(":")?;
    push_rows(text, &batch.rows)
}

fn push_opened(text: &mut String, session: u64, rules: u32) -> Result<(), NoMemory> {
    push_number(text, "opened ", session)?;
    push_number(text, ", rules ", u64::from(rules))
}

/// Adds an entry that has numbers alone, or any other.
fn push_entry(text: &mut String, entry: &Entry) -> Result<(), NoMemory> {
    match entry {
        Entry::Opened { session, rules } => push_opened(text, *session, *rules),
        Entry::Ticked { moment } => push_number(text, "ticked at ", *moment),
        Entry::Acked { upto } => push_number(text, "acked ", *upto),
        _ => push_change(text, entry),
    }
}

/// Adds an entry that has a schedule, a table's floor or a batch, or a reading.
fn push_change(text: &mut String, entry: &Entry) -> Result<(), NoMemory> {
    match entry {
        Entry::Configured {
            document: _,
            schedule,
            moment,
        } => push_configured(text, schedule, *moment),
        Entry::Expired {
            table,
            floor,
            moment,
        } => push_expired(text, *table, *floor, *moment),
        Entry::Committed { batch } => push_batch(text, batch),
        _ => push_reading(text, entry),
    }
}

/// Adds an entry that has what was read.
fn push_reading(text: &mut String, entry: &Entry) -> Result<(), NoMemory> {
    match entry {
        Entry::Appended {
            source,
            taken,
            events,
            skipped,
            moment,
        } => {
            text.push_str("appended ")?;
            push_taken(text, *taken, source.as_str())?;
            push_skipped(text, *skipped, *moment)?;
            push_events(text, events)
        }
        Entry::TableSet {
            source,
            table,
            rows,
            taken,
        } => {
            text.push_str("set ")?;
            text.push_str(table_name(*table))?;
            text.push_str(" by ")?;
            push_taken(text, *taken, source.as_str())?;
            text.push_str(":")?;
            push_rows(text, rows)
        }
        _ => Ok(()),
    }
}

/// Adds how many entries there are, and each as a line behind `+ `.
pub(crate) fn push_entries(text: &mut String, entries: &EntryList) -> Result<(), NoMemory> {
    push_number(text, " ", entries.len() as u64)?;
    text.push_str(" entries")?;
    for entry in entries.as_slice() {
        text.push_str("\n+ ")?;
        push_entry(text, entry)?;
    }
    Ok(())
}
