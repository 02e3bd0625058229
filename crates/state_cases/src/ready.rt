//! Whether what a call is given is what it asks for.

ghost use Rattle.std.specs.Prelude.{◌≡◌, ◌<◌, ◌≤◌, ◌^◌, ◌↔◌, All, IsTrue, IfOk, length, true};
ghost use Rattle.std.specs.Ordering.{nat_cmp, is_lt};
ghost use Rattle.std.specs.Cmp.Lexicographic.{slice_cmp};
ghost use Rattle.osq_value.specs.declared.moment.TheConstants.{LAST_MOMENT};
ghost use Rattle.osq_value.specs.Catalogue.{width_of};
ghost use Rattle.sql_texts.specs.Meaning.{meaning};
ghost use Rattle.pack_rules.specs.declared.schedule.Mode.TheVariants.{Evented};
ghost use Rattle.entry_model.specs.Fits.{Fits};
ghost use Rattle.entry_model.specs.Legal.{IsEvent};
ghost use Rattle.pack_rules.specs.ByName.{names_rise};
ghost use Rattle.pack_rules.specs.Sound.{IsRunnable, IsSound};
ghost use Rattle.event_store.specs.Contents.{AreWide, rows_in};
ghost use Rattle.session_state.specs.Readings.{IsReading};

use entry_model::restored::Restored;
use osq_value::catalogue::columns;
use osq_value::{Event, EventList, LAST_MOMENT, NoMemory, Reading, RowList, TableId};
use pack_rules::schedule::{Mode, Schedule, Scheduled};
use session_state::Cut;
use sql_meaning::plain_rows;
use sql_query::answers::is_evented;
use sql_texts::text::{TextError, query_of_text};
use std::alloc::Global;

/// The values of an empty list, from which a session may go on.
pub(crate) fn nothing(alloc: Global) -> Restored
    ensures { Fits result }
{
    Restored::empty(alloc)
}

/// The moment is one of the calendar.
pub(crate) fn is_moment(moment: u64) -> bool
    ensures { IsTrue result ↔ moment ≤ LAST_MOMENT }
{
    moment <= LAST_MOMENT
}

/// How many columns a table has.
fn width(table: TableId) -> usize
    ensures { result ≡ width_of table.0 }
{
    columns(table).len()
}

/// The event is of a table of events, and as wide as it.
fn is_event(event: &Event) -> bool
    ensures { IsTrue result ↔ IsEvent event.now }
{
    event.table.0 < 3 && event.row.len() == width(event.table)
}

pub(crate) fn are_events(events: &EventList) -> bool
    ensures { IsTrue result ↔ All IsEvent events.now }
{
    events.as_slice().iter().all(|event| is_event(event))
}

/// The rows are as wide as the table.
pub(crate) fn are_wide(table: TableId, rows: &RowList) -> bool
    ensures { IsTrue result ↔ AreWide (width_of table.0) rows.now }
{
    let width = width(table);
    rows.as_slice().iter().all(|row| row.len() == width)
}

/// The events of the reading are of tables of events, and its table is one that is set whole; each row is as wide as its table.
pub(crate) fn is_reading(reading: &Reading) -> bool
    ensures { IsTrue result ↔ IsReading reading.now }
{
    match reading {
        Reading::Events {
            taken: _,
            events,
            skipped: _,
        } => are_events(events),
        Reading::Table {
            taken: _,
            table,
            rows,
        } => 3 <= table.0 && table.0 < 12 && are_wide(*table, rows),
    }
}

/// A query of this mode asks of new events only where it names a table of them.
fn has_mode(mode: Mode, is_evented: bool) -> bool
    ensures { IsTrue result → mode ≡ Evented → is_evented ≡ true }
{
    match mode {
        Mode::Evented => is_evented,
        Mode::Snapshot => true,
    }
}

/// The query's text is accepted, and its mode and interval are ones that it may have.
#[tactic(auto, unfolding(sql_texts::specs::Meaning::is_accepted, sql_texts::specs::Meaning::names_evented))]
fn is_runnable(alloc: Global, scheduled: &Scheduled) -> Result<bool, NoMemory>
    ensures { IfOk result (λ ready. IsTrue ready → IsRunnable scheduled.now) }
{
    match query_of_text(alloc, scheduled.key.text.as_str()) {
        Err(TextError::NoMemory) => Err(NoMemory),
        Err(_) => Ok(false),
        Ok(query) => {
            Ok(
                has_mode(scheduled.key.mode, is_evented(&query))
                    && 1 <= scheduled.interval
                    && scheduled.interval <= 604800,
            )
        }
    }
}

fn are_runnable(alloc: Global, queries: &[Scheduled]) -> Result<bool, NoMemory>
    ensures { IfOk result (λ ready. IsTrue ready → All IsRunnable queries.now) }
{
    for query in queries {
        if !is_runnable(alloc, query)? {
            return Ok(false);
        }
    }
    Ok(true)
}

/// The first name stands before the second by their bytes.
fn is_before(first: &Scheduled, second: &Scheduled) -> bool
    ensures { result ≡ is_lt (slice_cmp nat_cmp first.now.key.name second.now.key.name) }
{
    let second = second.key.name.as_str().as_bytes();
    first.key.name.as_str().as_bytes().cmp(second).is_lt()
}

/// The names rise by their bytes.
#[tactic(auto, using(crate::proofs::Rising::end_rises))]
fn do_names_rise(queries: &[Scheduled]) -> bool
    ensures { result ≡ names_rise queries.now }
{
    for at in 1..queries.len() {
        if !is_before(&queries[at - 1], &queries[at]) {
            return false;
        }
    }
    true
}

/// The bounds of the schedule's events are ones that it may have, and its queries are few and stand by name.
fn is_ordered(schedule: &Schedule) -> bool
    ensures count { IsTrue result → length schedule.now.queries ≤ 10000 }
    ensures order { IsTrue result → names_rise schedule.now.queries ≡ true }
    ensures expiry { IsTrue result → (1 ≤ schedule.now.events_expiry) × (schedule.now.events_expiry < 2 ^ 32) }
    ensures most { IsTrue result → (1 ≤ schedule.now.events_max) × (schedule.now.events_max ≤ 1000000) }
{
    let (expiry, most) = (schedule.events_expiry, schedule.events_max);
    1 <= expiry
        && expiry < 1 << 32
        && 1 <= most
        && most <= 1000000
        && schedule.queries.len() <= 10000
        && do_names_rise(schedule.queries.as_slice())
}

/// A session may run the schedule.
pub(crate) fn is_sound(alloc: Global, schedule: &Schedule) -> Result<bool, NoMemory>
    ensures { IfOk result (λ ready. IsTrue ready → IsSound schedule.now) }
{
    let are_ready = are_runnable(alloc, schedule.queries.as_slice())?;
    Ok(are_ready && is_ordered(schedule))
}

/// The rows that answer a cut; want of memory stands for a text that is refused.
#[tactic(auto, unfolding(sql_texts::specs::Meaning::meaning))]
pub(crate) fn answer(alloc: Global, cut: &Cut) -> Result<RowList, NoMemory>
    ensures { IfOk result (λ rows. rows ≡ meaning cut.now.key.text (rows_in cut.now.view)) }
{
    let Ok(query) = query_of_text(alloc, cut.key().text.as_str()) else {
        return Err(NoMemory);
    };
    plain_rows(alloc, &query, cut.view())
}
