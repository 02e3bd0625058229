//! The numbers that a session leaves in a kept list.

ghost use Rattle.std.specs.Prelude.{◌≡◌, IfOk};
ghost use Rattle.entry_model.specs.Summary.{summary};
ghost use Rattle.entry_model.specs.Values.{cursor_of};
ghost use Rattle.kept_report.specs.Counting.{numbers_in, numbers_line, cursor_after, rows_in};

use crate::report::push_number;
use entry_model::entry::Entry;
use entry_model::restored::Restored;
use osq_value::{Bytes, NoMemory};
use pack_rules::schedule::QueryKey;
use std::alloc::Global;

/// The numbers that a session of one query leaves.
#[derive(Clone, Copy)]
pub struct ListNumbers {
    /// The number of the last event, 0 where there is none.
    pub events: u64,
    /// How many batches there are.
    pub batches: u64,
    /// How many rows the batches have together.
    pub rows: u64,
    /// The number up to which the query has read the events, 0 where it has no batch.
    pub cursor: u64,
    /// The number up to which the file events are gone, 0 where none is.
    pub floor: u64,
}

/// How many rows the batches have together. Where that would pass 2^64 - 1, it is want of memory.
fn rows_in(entries: &[Entry]) -> Result<u64, NoMemory>
    ensures { IfOk result (λ rows. rows ≡ rows_in entries.now) }
{
    let mut rows = 0u64;
    for entry in entries {
        if let Entry::Committed { batch } = entry {
            rows = rows.checked_add(batch.rows.len() as u64).ok_or(NoMemory)?;
        }
    }
    Ok(rows)
}

/// Where the query stands behind an entry, if it stood there before.
fn cursor_after(entry: &Entry, query: &QueryKey, cursor: u64) -> u64
    ensures { result ≡ cursor_after query.now cursor entry.now }
{
    match entry {
        Entry::Committed { batch } if batch.query.is(query) => batch.hi,
        _ => cursor,
    }
}

/// Up to which number the query has read the events.
fn cursor_in(entries: &[Entry], query: &QueryKey) -> u64
    ensures { result ≡ cursor_of entries.now query.now }
{
    let mut cursor = 0;
    for entry in entries {
        cursor = cursor_after(entry, query, cursor);
    }
    cursor
}

/// The numbers that a session of this query left in a list, whose values these are. Where the rows would be more than 2^64 - 1, it is want of
/// memory.
pub fn numbers_of(
    values: &Restored,
    entries: &[Entry],
    query: &QueryKey,
) -> Result<ListNumbers, NoMemory>
    requires { values.now ≡ summary entries.now }
    ensures { IfOk result (λ numbers. numbers ≡ numbers_in query.now entries.now) }
{
    Ok(ListNumbers {
        events: values.last,
        batches: values.batches,
        rows: rows_in(entries)?,
        cursor: cursor_in(entries, query),
        floor: values.floors[2],
    })
}

/// The line that tells these numbers.
pub fn numbers_line(alloc: Global, numbers: ListNumbers) -> Result<Bytes, NoMemory>
    ensures { IfOk result (λ line. line ≡ numbers_line numbers) }
{
    let mut line = Bytes::new(alloc);
    push_number(&mut line, "events ", numbers.events)?;
    push_number(&mut line, " batches ", numbers.batches)?;
    push_number(&mut line, " rows ", numbers.rows)?;
    push_number(&mut line, " cursor ", numbers.cursor)?;
    push_number(&mut line, " floor ", numbers.floor)?;
    line.extend(b"\n")?;
    Ok(line)
}
