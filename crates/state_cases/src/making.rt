//! What calls are given, made of JSON.

use crate::line::{items_in, number_of, number_or, table_in, table_of};
use case_text::{items_of, row_of, rows_of, value_of};
use entry_model::restored::{Run, RunList};
use osq_value::catalogue::columns;
use osq_value::{Event, EventList, NoMemory, Reading, Row, Str, Value};
use pack_rules::schedule::{Form, Mode, QueryKey, Schedule, Scheduled, ScheduledList};
use serde_json::Value as Json;
use std::alloc::Global;

/// The mode of a query where none is given.
const EVENTED: &str = "evented";

/// The text of a query where none is given.
const FILES: &str = "SELECT * FROM file_events";

fn text_at<'a>(items: &'a [Json], at: usize, other: &'a str) -> &'a str {
    items.get(at).and_then(Json::as_str).unwrap_or(other)
}

pub(crate) fn number_at(items: &[Json], at: usize) -> u64 {
    items.get(at).and_then(Json::as_u64).unwrap_or(0)
}

fn mode_of(word: &str) -> Mode {
    if word == EVENTED {
        Mode::Evented
    } else {
        Mode::Snapshot
    }
}

fn key_of(alloc: Global, name: &str, text: &str, mode: Mode) -> Result<QueryKey, NoMemory> {
    let name = Str::of(alloc, name)?;
    Ok(QueryKey::read(name, Str::of(alloc, text)?, mode))
}

/// The key of a query of this name that asks for new files.
pub(crate) fn files_key(alloc: Global, name: &str) -> Result<QueryKey, NoMemory> {
    key_of(alloc, name, FILES, Mode::Evented)
}

/// The key of an array of name, text and mode, or of a name alone, which asks for new files.
fn key_in(alloc: Global, item: &Json) -> Result<QueryKey, NoMemory> {
    if let Some(name) = item.as_str() {
        return files_key(alloc, name);
    }
    let items = items_of(Some(item));
    let mode = mode_of(text_at(items, 2, EVENTED));
    key_of(alloc, text_at(items, 0, ""), text_at(items, 1, FILES), mode)
}

/// The seconds of an array of name, text, mode and interval; a minute for a name alone.
fn interval_in(item: &Json) -> u64 {
    if item.is_string() {
        60
    } else {
        number_at(items_of(Some(item)), 3)
    }
}

fn scheduled(alloc: Global, item: &Json) -> Result<Scheduled, NoMemory> {
    Ok(Scheduled {
        key: key_in(alloc, item)?,
        interval: interval_in(item),
    })
}

fn queries(alloc: Global, items: &[Json]) -> Result<ScheduledList, NoMemory> {
    let mut queries = ScheduledList::new(alloc);
    for item in items {
        queries.push(scheduled(alloc, item)?)?;
    }
    Ok(queries)
}

/// The schedule of a line, which keeps events as long as a session that was never configured where it says nothing of it.
pub(crate) fn schedule(alloc: Global, line: &Json) -> Result<Schedule, NoMemory> {
    Ok(Schedule {
        queries: queries(alloc, items_in(line, "queries"))?,
        events_expiry: number_or(line, "events_expiry", 3600),
        events_max: number_or(line, "events_max", 50000),
        form: Form::Event,
    })
}

/// Adds Nulls up to this width.
fn widen(row: &mut Row, width: usize) -> Result<(), NoMemory> {
    for _ in row.len()..width {
        row.push(Value::Null)?;
    }
    Ok(())
}

/// Adds the values behind the first item.
fn push_values(alloc: Global, row: &mut Row, items: &[Json]) -> Result<(), NoMemory> {
    for value in items.iter().skip(1) {
        row.push(value_of(alloc, value)?)?;
    }
    Ok(())
}

/// The event of an array of its table and its first values.
fn event(alloc: Global, items: &[Json]) -> Result<Event, NoMemory> {
    let table = table_of(items.first());
    let mut row = Row::new(alloc);
    push_values(alloc, &mut row, items)?;
    widen(&mut row, columns(table).len())?;
    Ok(Event { table, row })
}

pub(crate) fn events(alloc: Global, items: &[Json]) -> Result<EventList, NoMemory> {
    let mut events = EventList::new(alloc);
    for item in items {
        events.push(event(alloc, items_of(Some(item)))?)?;
    }
    Ok(events)
}

/// The reading of a line: a table where it names one, and events elsewhere.
pub(crate) fn reading(alloc: Global, line: &Json) -> Result<Reading, NoMemory> {
    let taken = number_of(line, "taken");
    if line.get("table").is_some() {
        return Ok(Reading::Table {
            taken,
            table: table_in(line),
            rows: rows_of(alloc, items_in(line, "rows"))?,
        });
    }
    Ok(Reading::Events {
        taken,
        events: events(alloc, items_in(line, "events"))?,
        skipped: number_of(line, "skipped"),
    })
}

/// The run of an array of name, number, end, moment and count.
fn run(alloc: Global, items: &[Json]) -> Result<Run, NoMemory> {
    Ok(Run {
        key: files_key(alloc, text_at(items, 0, ""))?,
        number: number_at(items, 1),
        hi: number_at(items, 2),
        moment: number_at(items, 3),
        count: number_at(items, 4),
    })
}

/// Adds the runs of these items.
pub(crate) fn push_runs(alloc: Global, runs: &mut RunList, items: &[Json]) -> Result<(), NoMemory> {
    for item in items {
        runs.push(run(alloc, items_of(Some(item)))?)?;
    }
    Ok(())
}

/// The runs of these items.
pub(crate) fn runs(alloc: Global, items: &[Json]) -> Result<RunList, NoMemory> {
    let mut runs = RunList::new(alloc);
    push_runs(alloc, &mut runs, items)?;
    Ok(runs)
}

/// A row of so many Nulls, of which more than 64 are no row of any table.
fn nulls(alloc: Global, width: u64) -> Result<Row, NoMemory> {
    let mut row = Row::new(alloc);
    widen(&mut row, width.min(64) as usize)?;
    Ok(row)
}

/// A row of values, or of so many Nulls.
pub(crate) fn row_or_nulls(alloc: Global, item: &Json) -> Result<Row, NoMemory> {
    match item.as_u64() {
        None => row_of(alloc, item),
        Some(width) => nulls(alloc, width),
    }
}
