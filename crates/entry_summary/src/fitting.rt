//! Whether values are ones that a session may go on from.

ghost use Rattle.std.specs.Prelude.{◌≡◌, ◌≤◌, ◌↔◌, All, IfOk, IsTrue};
ghost use Rattle.osq_value.specs.Catalogue.{width_of};
ghost use Rattle.entry_model.specs.Fits.{Fits, IsRisingFrom, LiveFits, RunFits, TableFits};
ghost use Rattle.entry_summary.specs.Distinct.{HaveOwnSources};
ghost use Rattle.entry_summary.specs.Fitting.{AreEvents, AreRuns, AreTables, AreTotals};

use crate::distinct::{
    have_own_keys, have_own_numbers, have_own_sources, have_own_tables, no_number_twice,
};
use entry_model::restored::{Live, Restored, Run, SetTable};
use osq_value::catalogue::columns;
use osq_value::{LAST_MOMENT, NoMemory, TableId};
use query_cursors::no_key_twice;
use std::alloc::Global;

/// The greatest number that an event or a batch may have.
const LAST_NUMBER: u64 = 1 << 62;

/// How many columns a table has.
fn width(table: TableId) -> usize
    ensures { result ≡ width_of table.0 }
{
    columns(table).len()
}

/// The number of the event before each one is below its own.
fn is_rising(live: &[Live]) -> bool
    ensures { IsTrue result ↔ IsRisingFrom 0 live.now }
{
    let mut number = 0;
    for event in live {
        if event.number <= number {
            return false;
        }
        number = event.number;
    }
    true
}

/// The event is numbered above its table's floor and no further than the last one, is of an evented table, as wide as
/// it, and from no later moment than the present one.
fn event_fits(restored: &Restored, event: &Live) -> bool
    ensures { IsTrue result ↔ LiveFits restored.now event.now }
{
    event.table.0 < 3
        && restored.floors[event.table.0 as usize] < event.number
        && event.number <= restored.last
        && event.row.len() == width(event.table)
        && event.moment <= restored.moment
}

fn all_events_fit(restored: &Restored) -> bool
    ensures { IsTrue result ↔ All (LiveFits restored.now) restored.now.live }
{
    for event in restored.live.as_slice() {
        if !event_fits(restored, event) {
            return false;
        }
    }
    true
}

/// No events have expired that never came.
fn all_floors_fit(floors: &[u64; 3], last: u64) -> bool
    ensures { IsTrue result ↔ All (λ floor. floor ≤ last) floors.now }
{
    floors[0] <= last && floors[1] <= last && floors[2] <= last
}

/// The events that are kept fit and rise, and so do the floors.
fn events_fit(restored: &Restored) -> bool
    ensures { IsTrue result ↔ AreEvents restored.now }
{
    all_floors_fit(&restored.floors, restored.last)
        && is_rising(restored.live.as_slice())
        && all_events_fit(restored)
}

/// The table is recorded, and its rows are as wide as it.
fn table_fits(set: &SetTable) -> bool
    ensures { IsTrue result ↔ TableFits set.now }
{
    let width = width(set.table);
    3 <= set.table.0 && set.table.0 < 12 && set.rows.as_slice().iter().all(|row| row.len() == width)
}

fn all_tables_fit(tables: &[SetTable]) -> bool
    ensures { IsTrue result ↔ All TableFits tables.now }
{
    for set in tables {
        if !table_fits(set) {
            return false;
        }
    }
    true
}

/// The run has a batch that was given, no more batches than there are, and an end and a moment that were reached.
fn run_fits(restored: &Restored, run: &Run) -> bool
    ensures { IsTrue result ↔ RunFits restored.now run.now }
{
    1 <= run.number
        && run.number <= restored.batches
        && run.hi <= restored.last
        && 1 <= run.count
        && run.count <= restored.batches
        && run.moment <= restored.moment
}

fn all_runs_fit(restored: &Restored) -> bool
    ensures { IsTrue result ↔ All (RunFits restored.now) restored.now.runs }
{
    for run in restored.runs.as_slice() {
        if !run_fits(restored, run) {
            return false;
        }
    }
    true
}

/// The tables that were set fit, and none was set twice.
fn tables_fit(tables: &[SetTable]) -> bool
    ensures { IsTrue result ↔ AreTables tables.now }
{
    all_tables_fit(tables) && have_own_tables(tables)
}

/// The runs fit, and no two are of one query or end with one batch.
fn runs_fit(restored: &Restored) -> bool
    ensures { IsTrue result ↔ AreRuns restored.now }
{
    let runs = restored.runs.as_slice();
    all_runs_fit(restored) && have_own_numbers(runs) && have_own_keys(runs)
}

/// The same as `runs_fit`, by the hashes of keys and numbers.
fn runs_fit_by_hash(alloc: Global, restored: &Restored) -> Result<bool, NoMemory>
    ensures { IfOk result (λ fit. IsTrue fit ↔ AreRuns restored.now) }
{
    let runs = restored.runs.as_slice();
    Ok(all_runs_fit(restored) && no_number_twice(alloc, runs)? && no_key_twice(alloc, runs)?)
}

/// The moment and the numbers are within their bounds, and no batch is acknowledged that was not given.
fn totals_fit(restored: &Restored) -> bool
    ensures { IsTrue result ↔ AreTotals restored.now }
{
    restored.acked <= restored.batches
        && restored.moment <= LAST_MOMENT
        && restored.last <= LAST_NUMBER
        && restored.batches <= LAST_NUMBER
}

/// The events and the tables fit.
fn contents_fit(restored: &Restored) -> bool
    ensures { IsTrue result ↔ AreEvents restored.now × AreTables restored.now.tables }
{
    events_fit(restored) && tables_fit(restored.tables.as_slice())
}

/// All but the runs fits, and no source stands twice.
fn others_fit(restored: &Restored) -> bool
    ensures { IsTrue result ↔ AreTotals restored.now × AreEvents restored.now × AreTables restored.now.tables × HaveOwnSources restored.now.taken }
{
    totals_fit(restored) && contents_fit(restored) && have_own_sources(restored.taken.as_slice())
}

/// Whether a session may go on from these values: no others are refused, and none of a legal list is. It takes no
/// memory. It looks once at each event and at each row of a table; of the runs and of the sources it compares all pairs.
pub fn fits(restored: &Restored) -> bool
    ensures { IsTrue result ↔ Fits restored.now }
{
    others_fit(restored) && runs_fit(restored)
}

/// The same as `fits`, but that the keys and the numbers of runs are looked up by their hashes, which takes memory. It
/// looks once at each run.
pub fn fits_by_hash(alloc: Global, restored: &Restored) -> Result<bool, NoMemory>
    ensures { IfOk result (λ fit. IsTrue fit ↔ Fits restored.now) }
{
    Ok(others_fit(restored) && runs_fit_by_hash(alloc, restored)?)
}
