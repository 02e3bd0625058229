//! What the stories begin with: a store with one query that is due, and readings of one file.

ghost use Rattle.std.specs.Prelude.{◌≡◌, ◌≤◌, true, IfOk, OnOk};
ghost use Rattle.sql_texts.specs.Meaning.{is_accepted, names_evented};
ghost use Rattle.entry_model.specs.Legal.{IsEvent};
ghost use Rattle.pack_rules.specs.Sound.{IsRunnable, IsSound};
ghost use Rattle.session_state.specs.Readings.{IsReading};
ghost use Rattle.turn_lock.specs.Words.{seats_out, split_off, IsAtRest, IsFirst, IsSame};
ghost use Rattle.shared_store.specs.Words.{most_seats, IsSeatOf};

use entry_model::restored::Restored;
use osq_value::{Event, EventList, NoMemory, Reading, Row, Str, TableId, TextList, Value};
use pack_rules::schedule::{Form, Mode, QueryKey, Schedule, Scheduled, ScheduledList};
use shared_store::{Store, StoreSeat};
use sql_query::answers::is_evented;
use sql_texts::text::query_of_text;
use std::alloc::Global;
use std::sync::Wait;

const PATHS: &str = "SELECT target_path FROM file_events";

/// The text is one that a session may ask for what new events add; want of memory stands for a text that is refused.
#[tactic(auto, unfolding(sql_texts::specs::Meaning::is_accepted, sql_texts::specs::Meaning::names_evented))]
fn accept(alloc: Global, text: &str) -> Result<(), NoMemory>
    ensures accepted { OnOk result (is_accepted text.now ≡ true) }
    ensures evented { OnOk result (names_evented text.now ≡ true) }
{
    let Ok(query) = query_of_text(alloc, text) else {
        return Err(NoMemory);
    };
    if is_evented(&query) {
        Ok(())
    } else {
        Err(NoMemory)
    }
}

/// The query `fe`, which asks for the paths of new files each minute.
fn paths(alloc: Global) -> Result<Scheduled, NoMemory>
    ensures { IfOk result IsRunnable }
{
    accept(alloc, PATHS)?;
    let name = Str::of(alloc, "fe")?;
    Ok(Scheduled {
        key: QueryKey::read(name, Str::of(alloc, PATHS)?, Mode::Evented),
        interval: 60,
    })
}

/// A schedule of that query.
fn schedule(alloc: Global) -> Result<Schedule, NoMemory>
    ensures { IfOk result IsSound }
{
    let mut queries = ScheduledList::new(alloc);
    queries.push(paths(alloc)?)?;
    Ok(Schedule {
        queries,
        events_expiry: 3600,
        events_max: 50000,
        form: Form::Event,
    })
}

/// Runs that schedule in the store, at the tick of the moment 1000.
fn configure<R: Wait>(
    rt: &R,
    alloc: Global,
    store: &Store,
    first: &mut StoreSeat,
) -> Result<(), NoMemory>
    requires { IsSeatOf store.now first.old × IsAtRest first.old }
    ensures { IsSame first.old first.new × IsAtRest first.new }
{
    let schedule = schedule(alloc)?;
    store.configure(rt, alloc, first, TextList::new(alloc), schedule, 1000)?;
    match store.tick(rt, first, 1000) {
        Ok(()) => Ok(()),
        Err(_) => Err(NoMemory),
    }
}

/// A store over an empty list, whose session runs that schedule.
pub(crate) fn opened<R: Wait>(
    rt: &R,
    alloc: Global,
    seats: u32,
) -> Result<(Store, StoreSeat), NoMemory>
    requires { 1 ≤ seats }
    ensures seat { IfOk result (λ r. IsSeatOf r.0 r.1 × IsAtRest r.1 × IsFirst r.1) }
    ensures room { IfOk result (λ r. (most_seats r.0 ≡ seats) × (seats_out r.1 ≡ 1) × (split_off r.1 ≡ 0)) }
{
    let (store, mut first) = Store::begin(alloc, Restored::empty(alloc), seats)?;
    configure(rt, alloc, &store, &mut first)?;
    Ok((store, first))
}

/// A file whose `target_path` is this one.
#[tactic(auto, unfolding(osq_value::specs::Catalogue::width_of, osq_value::specs::Catalogue::columns_of, osq_value::specs::Catalogue::tables))]
fn file(alloc: Global, path: &str) -> Result<Event, NoMemory>
    ensures { IfOk result IsEvent }
{
    let path = Value::Text(Str::of(alloc, path)?);
    let values = Vec::from_array(
        alloc,
        [
            path,
            Value::Null,
            Value::Null,
            Value::Null,
            Value::Null,
            Value::Null,
            Value::Null,
            Value::Null,
            Value::Null,
            Value::Null,
        ],
    )?;
    Ok(Event {
        table: TableId::FILE_EVENTS,
        row: Row::from_vec(values),
    })
}

/// A reading of one file, which ends at this byte.
pub(crate) fn reading(alloc: Global, taken: u64) -> Result<Reading, NoMemory>
    ensures { IfOk result IsReading }
{
    let mut events = EventList::new(alloc);
    events.push(file(alloc, "/etc/a")?)?;
    Ok(Reading::Events {
        taken,
        events,
        skipped: 0,
    })
}
