//! The rows of the tables that the program knows itself.

ghost use Rattle.std.specs.Prelude.{◌≡◌, ◌≤◌, ◌<◌, ◌^◌, All, IfOk, IfSome, drop, length, option_copied, take, true};
ghost use Rattle.osq_value.specs.declared.moment.TheConstants.{LAST_MOMENT};
ghost use Rattle.osq_value.specs.Catalogue.{width_of, table_name};
ghost use Rattle.pack_rules.specs.Sound.{IsRunnable};
ghost use Rattle.entry_model.specs.Views.{is_evented_table};
ghost use Rattle.event_store.specs.Contents.{AreWide, IsImage};
ghost use Rattle.query_cursors.specs.Places.{places_of};
ghost use Rattle.session_state.specs.Kept.{IsRun};
ghost use Rattle.session_state.specs.Computed.{time_shown, query_shown, schedule_shown, live_shown, events_shown};

use entry_model::restored::Run;
use event_store::Image;
use osq_value::{Copied, NoMemory, Row, RowList, Str, TableId, Value};
use pack_rules::schedule::Scheduled;
use query_cursors::Cursors;
use std::alloc::Global;

/// The one row of the table `time`.
pub(crate) fn time_rows(alloc: Global, moment: u64) -> Result<RowList, NoMemory>
    requires { moment ≤ LAST_MOMENT }
    ensures { IfOk result (λ rows. rows ≡ time_shown moment) }
{
    let mut row = Row::with_capacity(alloc, 1)?;
    row.push(Value::Int(moment as i64))?;
    let mut rows = RowList::with_capacity(alloc, 1)?;
    rows.push(row)?;
    Ok(rows)
}

/// The row of a query, with its run, if it has one.
fn query_row(alloc: Global, scheduled: &Scheduled, run: Option<&Run>) -> Result<Row, NoMemory>
    requires interval { scheduled.now.interval < 2 ^ 63 }
    requires count { IfSome (option_copied run) (λ run. run.count < 2 ^ 63) }
    requires moment { IfSome (option_copied run) (λ run. run.moment < 2 ^ 63) }
    ensures { IfOk result (λ row. row ≡ query_shown scheduled.now (option_copied run.entry)) }
{
    let (count, moment) = match run {
        None => (0, 0),
        Some(run) => (run.count, run.moment),
    };
    let mut row = Row::with_capacity(alloc, 5)?;
    row.push(Value::Text(scheduled.key.name.copy(alloc)?))?;
    row.push(Value::Text(Str::of(alloc, scheduled.key.text.as_str())?))?;
    row.push(Value::Int(scheduled.interval as i64))?;
    row.push(Value::Int(count as i64))?;
    row.push(Value::Int(moment as i64))?;
    Ok(row)
}

/// The rows of the table `osquery_schedule` from a place up to another, with the queries' runs at these places.
pub(crate) fn rows_between(
    alloc: Global,
    queries: &[Scheduled],
    cursors: &Cursors,
    places: &[Option<usize>],
    from: usize,
    to: usize,
) -> Result<RowList, NoMemory>
    requires runnable { All IsRunnable queries.now }
    requires runs { All (IsRun (2 ^ 62)) cursors.now.runs }
    requires places { places.now ≡ places_of cursors.now.runs queries.now }
    requires within { (from ≤ to) × (to ≤ length queries.now) }
    ensures { IfOk result (λ rows. rows ≡ drop from (take to (schedule_shown cursors.now.runs queries.now))) }
{
    let mut rows = RowList::with_capacity(alloc, to - from)?;
    for at in from..to {
        let run = cursors.run_among(places, at);
        let row = query_row(alloc, &queries[at], run)?;
        rows.push(row.shared(alloc)?)?;
    }
    Ok(rows)
}

/// The row of an evented table of this name.
#[tactic(auto, using(crate::proofs::Counted::few_live))]
fn live_row(alloc: Global, name: &str, image: &Image, table: TableId) -> Result<Row, NoMemory>
    requires evented { is_evented_table table.0 ≡ true }
    requires name { name.now ≡ table_name table.0 }
    requires image { IsImage image.now }
    ensures { IfOk result (λ row. row ≡ live_shown image.now table.0) }
{
    let mut row = Row::with_capacity(alloc, 2)?;
    row.push(Value::Text(Str::of(alloc, name)?))?;
    row.push(Value::Int(image.live(table) as i64))?;
    Ok(row)
}

/// The rows of the table `osquery_events`.
#[tactic(auto, unfolding(osq_value::specs::Catalogue::tables, osq_value::specs::Catalogue::table_name))]
pub(crate) fn event_rows(alloc: Global, image: &Image) -> Result<RowList, NoMemory>
    ensures { IfOk result (λ rows. rows ≡ events_shown image.now) }
{
    image.is_image();
    let mut rows = RowList::with_capacity(alloc, 3)?;
    rows.push(live_row(alloc, "process_events", image, TableId::PROCESS_EVENTS)?)?;
    rows.push(live_row(alloc, "socket_events", image, TableId::SOCKET_EVENTS)?)?;
    rows.push(live_row(alloc, "file_events", image, TableId::FILE_EVENTS)?)?;
    Ok(rows)
}
