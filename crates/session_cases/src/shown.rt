//! Entries as lines of text.

use case_text::{push_row, push_rows};
use entry_model::entry::{Batch, Entry};
use osq_value::{EventList, NoMemory, RowList};
use pack_rules::schedule::Schedule;

/// Adds events, each as the number of its table and its row; or how many there are.
fn push_events(text: &mut String, events: &EventList, is_brief: bool) -> Result<(), NoMemory> {
    if is_brief {
        return Ok(write!(text, " {} events", events.len())?);
    }
    for event in events.as_slice() {
        write!(text, " {}", event.table.0)?;
        push_row(text, &event.row)?;
    }
    Ok(())
}

/// Adds rows, or how many there are.
fn push_rows_or_count(text: &mut String, rows: &RowList, is_brief: bool) -> Result<(), NoMemory> {
    if is_brief {
        return Ok(write!(text, " {} rows", rows.len())?);
    }
    push_rows(text, rows)
}

/// Adds the queries, each as its name and its seconds.
fn push_queries(text: &mut String, schedule: &Schedule) -> Result<(), NoMemory> {
    for query in schedule.queries.as_slice() {
        write!(text, " {}/{}", query.key.name.as_str(), query.interval)?;
    }
    Ok(())
}

fn push_batch(text: &mut String, batch: &Batch) -> Result<(), NoMemory> {
    let name = batch.query.name.as_str();
    write!(text, "committed {} of {name}, ", batch.number)?;
    write!(text, "slice ({},{}], ", batch.lo, batch.hi)?;
    write!(text, "cut {}, at {}:", batch.cut, batch.moment)?;
    Ok(())
}

/// Adds the number of a session, and its rules where they aren't those of the first lists.
fn push_opened(text: &mut String, session: u64, rules: u32) -> Result<(), NoMemory> {
    write!(text, "opened {session}")?;
    if rules != 1 {
        write!(text, ", rules {rules}")?;
    }
    Ok(())
}

/// Adds what an entry has but for its events, rows and queries.
fn push_head(text: &mut String, entry: &Entry) -> Result<(), NoMemory> {
    match entry {
        Entry::Opened { session, rules } => push_opened(text, *session, *rules)?,
        Entry::Configured {
            document: _,
            schedule: _,
            moment,
        } => write!(text, "configured at {moment}:")?,
        Entry::Ticked { moment } => write!(text, "ticked at {moment}")?,
        Entry::Appended {
            source,
            taken,
            events: _,
            skipped,
            moment,
        } => write!(
            text,
            "appended {taken} of {}, skipped {skipped}, at {moment}:",
            source.as_str()
        )?,
        Entry::TableSet {
            source,
            table,
            rows: _,
            taken,
        } => write!(text, "set {} by {taken} of {}:", table.0, source.as_str())?,
        Entry::Expired {
            table,
            floor,
            moment,
        } => write!(text, "expired {} up to {floor}, at {moment}", table.0)?,
        Entry::Committed { batch } => push_batch(text, batch)?,
        Entry::Acked { upto } => write!(text, "acked {upto}")?,
    }
    Ok(())
}

/// Adds its events, rows or queries.
fn push_tail(text: &mut String, entry: &Entry, is_brief: bool) -> Result<(), NoMemory> {
    match entry {
        Entry::Configured {
            document: _,
            schedule,
            moment: _,
        } => push_queries(text, schedule),
        Entry::Appended {
            source: _,
            taken: _,
            events,
            skipped: _,
            moment: _,
        } => push_events(text, events, is_brief),
        Entry::TableSet {
            source: _,
            table: _,
            rows,
            taken: _,
        } => push_rows_or_count(text, rows, is_brief),
        Entry::Committed { batch } => push_rows_or_count(text, &batch.rows, is_brief),
        _ => Ok(()),
    }
}

/// Adds an entry as a line behind `+ `.
pub(crate) fn push_entry(text: &mut String, entry: &Entry, is_brief: bool) -> Result<(), NoMemory> {
    text.push_str("+ ")?;
    push_head(text, entry)?;
    push_tail(text, entry, is_brief)?;
    text.push_str("\n")?;
    Ok(())
}
