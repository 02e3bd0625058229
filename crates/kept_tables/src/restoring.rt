//! The values that the rows of the tables stand for.

ghost use Rattle.std.specs.Prelude.{◌≡◌, ℕ, List, Ok, Some, option_and_then};
ghost use Rattle.pack_rules.specs.declared.schedule.QueryKey.{QueryKey as Key};
ghost use Rattle.kept_tables.specs.Columns.{number_at, text_at};
ghost use Rattle.kept_tables.specs.Reads.{Gives};
ghost use Rattle.kept_tables.specs.Rows.{mode_in, ShowsKey};
ghost use Rattle.kept_tables.specs.Shows.{Shows};

use crate::counts::Counts;
use crate::error::TableError;
use crate::live::{LivePart, live_of};
use crate::shown::{Shown, all_of};
use crate::tables::tables_of;
use crate::values::{number_at, text_at};
use entry_model::restored::{Restored, Run, RunList, SetTableList, Taken, TakenList};
use osq_value::{Copied, Row, RowList, Sequence, Str};
use pack_rules::schedule::{Mode, QueryKey};
use std::alloc::Global;

/// What the statements of `layout` show.
#[derive(Drop)]
pub struct Found {
    /// The counts.
    pub counts: Counts,
    /// The rows of `LIVE`.
    pub live: RowList,
    /// The rows of `TAKEN`.
    pub taken: RowList,
    /// The rows of `SET`.
    pub set: RowList,
    /// The rows of `RUNS`.
    pub runs: RowList,
}

/// The values of the list that the tables stand for.
pub fn restored_of(alloc: Global, found: &Found) -> Result<Restored, TableError>
    ensures { (values : Restored) → Shows found.now values → Gives values result }
{
    let parts: Sequence<LivePart> = all_of(alloc, &found.live)?;
    let set: SetTableList = all_of(alloc, &found.set)?;
    let taken: TakenList = all_of(alloc, &found.taken)?;
    let runs: RunList = all_of(alloc, &found.runs)?;
    let floors = found.counts.floors;
    let live = live_of(alloc, &floors, parts)?;
    let tables = tables_of(alloc, &set)?;
    let counts = &found.counts;
    Ok(Restored {
        position: counts.position,
        sessions: counts.sessions,
        moment: counts.moment,
        last: counts.last,
        floors,
        live,
        taken,
        tables,
        runs,
        batches: counts.batches,
        acked: counts.acked,
    })
}

/// A row has the offset of a source.
impl Shown for Taken {
    ghost use Rattle.kept_tables.specs.Rows.{taken_row};

    ghost shown = { taken_row };

    ghost is_held = { λ taken. Unit {0} };

    fn of_row(alloc: Global, row: &Row) -> Result<Self, TableError> {
        let source = text_in(alloc, row, 0)?;
        let offset = number_in(row, 1)?;
        Ok(Taken { source, offset })
    }
}

/// A row has the last batch of a query.
impl Shown for Run {
    ghost use Rattle.kept_tables.specs.Rows.{run_row};

    ghost shown = { run_row };

    ghost is_held = { λ run. Unit {0} };

    fn of_row(alloc: Global, row: &Row) -> Result<Self, TableError> {
        let key = key_of(alloc, row)?;
        let number = number_in(row, 3)?;
        let hi = number_in(row, 4)?;
        let moment = number_in(row, 5)?;
        let count = number_in(row, 6)?;
        Ok(Run {
            key,
            number,
            hi,
            moment,
            count,
        })
    }
}

pub(crate) fn number_in(row: &Row, at: usize) -> Result<u64, TableError>
    ensures { (number : ℕ) → number_at row.now at ≡ Some number → result ≡ Ok number }
{
    match number_at(row, at) {
        Some(number) => Ok(number),
        None => Err(TableError::Unreadable),
    }
}

fn text_in(alloc: Global, row: &Row, at: usize) -> Result<Str, TableError>
    ensures { (text : List ℕ) → text_at row.now at ≡ Some text → Gives text result }
{
    match text_at(row, at) {
        Some(text) => Ok(text.copy(alloc)?),
        None => Err(TableError::Unreadable),
    }
}

/// What a query is known by, which stands in the first three columns.
pub(crate) fn key_of(alloc: Global, row: &Row) -> Result<QueryKey, TableError>
    ensures { (key : QueryKey) → ShowsKey row.now key → Gives key result }
{
    let name = text_in(alloc, row, 0)?;
    let text = text_in(alloc, row, 1)?;
    match mode_of(row) {
        Some(mode) => Ok(QueryKey::read(name, text, mode)),
        None => Err(TableError::Unreadable),
    }
}

fn mode_of(row: &Row) -> Option<Mode>
    ensures { result ≡ option_and_then mode_in (number_at row.now 2) }
{
    match number_at(row, 2)? {
        0 => Some(Mode::Evented),
        1 => Some(Mode::Snapshot),
        _ => None,
    }
}
