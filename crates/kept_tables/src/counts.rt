//! The counts of a kept list, which lie in one row.

ghost use Rattle.std.specs.Prelude.{◌≡◌, ◌+◌, map, IfOk};
ghost use Rattle.std.specs.Option.{ok_or};
ghost use Rattle.change_records.specs.Rows.{all_there};
ghost use Rattle.kept_tables.specs.declared.error.TableError.TheVariants as fault;
ghost use Rattle.kept_tables.specs.Columns.{number_at};
ghost use Rattle.kept_tables.specs.Counting.{columns, counts_in, counts_shown, is_layout};

use crate::error::TableError;
use crate::layout::LAYOUT;
use crate::values::number_at;
use osq_value::{NoMemory, Row, RowList};

/// The counts of a kept list.
#[derive(Clone, Copy)]
pub struct Counts {
    /// The number of entries.
    pub position: u64,
    /// The number of sessions that were opened.
    pub sessions: u64,
    /// The last moment.
    pub moment: u64,
    /// The number of the last event.
    pub last: u64,
    /// Of each evented table: the number up to which its events are gone.
    pub floors: [u64; 3],
    /// The number of batches.
    pub batches: u64,
    /// The number up to which the collector has the batches.
    pub acked: u64,
    /// The number of the last part of a batch.
    pub parts: u64,
}

/// The tables have this layout, where these rows show its number.
pub fn has_layout(found: &RowList) -> bool
    ensures { result ≡ is_layout found.now }
{
    match found.get(0) {
        Some(row) => number_at(row, 0) == Some(LAYOUT),
        None => false,
    }
}

/// The counts that these rows show.
pub fn counts_of(found: &RowList) -> Result<Counts, TableError>
    ensures { result ≡ ok_or (counts_shown found.now) fault.Unreadable }
{
    shown_by(found).ok_or(TableError::Unreadable)
}

fn shown_by(found: &RowList) -> Option<Counts>
    ensures { result ≡ counts_shown found.now }
{
    counts_in(found.get(0)?)
}

fn numbers_in(row: &Row) -> Option<[u64; 10]>
    ensures { result ≡ all_there (map (number_at row.now) columns) }
{
    Some([
        number_at(row, 0)?,
        number_at(row, 1)?,
        number_at(row, 2)?,
        number_at(row, 3)?,
        number_at(row, 4)?,
        number_at(row, 5)?,
        number_at(row, 6)?,
        number_at(row, 7)?,
        number_at(row, 8)?,
        number_at(row, 9)?,
    ])
}

fn counts_in(row: &Row) -> Option<Counts>
    ensures { result ≡ counts_in row.now }
{
    let [
        position,
        sessions,
        moment,
        last,
        first,
        second,
        third,
        batches,
        acked,
        parts,
    ] = numbers_in(row)?;
    Some(Counts {
        position,
        sessions,
        moment,
        last,
        floors: [first, second, third],
        batches,
        acked,
        parts,
    })
}

/// One more.
pub(crate) fn after(number: u64) -> Result<u64, NoMemory>
    ensures { IfOk result (λ more. more ≡ number + 1) }
{
    number.checked_add(1).ok_or(NoMemory)
}
