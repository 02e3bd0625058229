//! Cursors of the runs and queries of a line.

ghost use Rattle.std.specs.Prelude.{◌≡◌, ◌<◌, ◌^◌, ◌↔◌, All, IfOk, IsTrue, Some, slice_get};
ghost use Rattle.entry_model.specs.Reserved.{HaveOwnKeys, place_of};
ghost use Rattle.query_cursors.specs.Places.{places_of};

use crate::line::{items_in, number_of};
use crate::making::{files_key, runs, schedule};
use crate::shown::{push_number, push_number_or_none, tell, yes_or_no};
use case_text::member_text;
use entry_model::restored::{Run, RunList};
use entry_summary::distinct::have_own_keys;
use osq_value::{Copied, NoMemory};
use pack_rules::schedule::{QueryKey, Schedule, Scheduled};
use query_cursors::{Cursors, due};
use serde_json::Value as Json;
use std::alloc::Global;

/// Cursors that know where the queries of the schedule have these runs.
fn placed(alloc: Global, runs: RunList, schedule: &Schedule) -> Result<Cursors, NoMemory>
    requires { HaveOwnKeys runs }
    ensures places { IfOk result (λ cursors. cursors.places ≡ places_of cursors.runs schedule.now.queries) }
    ensures runs { IfOk result (λ cursors. cursors.runs ≡ runs) }
{
    let mut cursors = Cursors::restore(alloc, runs);
    let places = cursors.find_places(alloc, schedule.queries.as_slice())?;
    cursors.set_places(places);
    Ok(cursors)
}

/// No run has so many batches that one more is no number.
fn may_grow(runs: &RunList) -> bool
    ensures { IsTrue result ↔ All (λ run. run.count < 2 ^ 63) runs.now }
{
    runs.as_slice().iter().all(|run| run.count < 1 << 63)
}

/// Which queries are claimed, by a text of a character for each, `1` where it is.
fn claims(alloc: Global, text: &str) -> Result<Vec<bool>, NoMemory> {
    let mut claims = Vec::new(alloc);
    for byte in text.as_bytes() {
        claims.push(*byte == b'1')?;
    }
    Ok(claims)
}

/// Adds the place in the schedule of the query that comes next.
fn push_next_due(
    text: &mut String,
    cursors: &Cursors,
    schedule: &Schedule,
    claimed: &[bool],
    moment: u64,
) -> Result<(), NoMemory>
    requires { cursors.now.places ≡ places_of cursors.now.runs schedule.now.queries }
{
    if schedule.queries.len() > 10000 || claimed.len() != schedule.queries.len() {
        return tell(text, "no claims of the queries");
    }
    let next = cursors.next_due(schedule, claimed, 0, moment);
    push_number_or_none(text, next.map(u64::from))
}

/// Adds the place in the schedule of the first query that is due.
fn push_first_due(
    text: &mut String,
    cursors: &Cursors,
    schedule: &Schedule,
    moment: u64,
) -> Result<(), NoMemory>
    requires { cursors.now.places ≡ places_of cursors.now.runs schedule.now.queries }
{
    if schedule.queries.len() > 10000 {
        return tell(text, "too many queries");
    }
    let first = cursors.first_due(schedule, moment);
    push_number_or_none(text, first.map(u64::from))
}

fn push_batches(text: &mut String, run: &Run) -> Result<(), NoMemory> {
    push_number(text, " run ", run.number)?;
    push_number(text, " up to ", run.hi)?;
    push_number(text, ", at ", run.moment)?;
    push_number(text, ", ", run.count)?;
    Ok(text.push_str(" batches")?)
}

fn push_run(text: &mut String, run: Option<&Run>) -> Result<(), NoMemory> {
    match run {
        None => tell(text, "no run"),
        Some(run) => push_batches(text, run),
    }
}

/// Adds what the cursors know of a query, and of the run of the query at a place.
fn push_known(
    text: &mut String,
    cursors: &Cursors,
    key: &QueryKey,
    place: usize,
) -> Result<(), NoMemory> {
    push_number(text, " cursor ", cursors.cursor(key))?;
    push_number(text, ", number ", cursors.number(key))?;
    text.push_str(",")?;
    push_run(text, cursors.run(key))?;
    text.push_str("; placed:")?;
    push_run(text, cursors.placed_run(place))
}

fn next_due(
    alloc: Global,
    text: &mut String,
    cursors: &Cursors,
    schedule: &Schedule,
    line: &Json,
) -> Result<(), NoMemory>
    requires { cursors.now.places ≡ places_of cursors.now.runs schedule.now.queries }
{
    let claimed = claims(alloc, member_text(line, "claimed"))?;
    let moment = number_of(line, "moment");
    push_next_due(text, cursors, schedule, claimed.as_slice(), moment)
}

fn find(alloc: Global, text: &mut String, cursors: &Cursors, line: &Json) -> Result<(), NoMemory> {
    let key = files_key(alloc, member_text(line, "query"))?;
    let place = usize::try_from(number_of(line, "place")).unwrap_or(usize::MAX);
    push_known(text, cursors, &key, place)
}

/// The places that a line gives of readers.
fn readers_of(alloc: Global, line: &Json) -> Result<Vec<usize>, NoMemory> {
    let mut readers = Vec::new(alloc);
    for item in items_in(line, "readers") {
        let place = usize::try_from(item.as_u64().unwrap_or(u64::MAX));
        readers.push(place.unwrap_or(usize::MAX))?;
    }
    Ok(readers)
}

fn push_reached(
    alloc: Global,
    text: &mut String,
    cursors: &Cursors,
    line: &Json,
) -> Result<(), NoMemory> {
    let readers = readers_of(alloc, line)?;
    let reached = cursors.reached(readers.as_slice(), number_of(line, "last"));
    push_number(text, " ", reached)
}

/// Makes a call that notes nothing.
fn ask(
    alloc: Global,
    text: &mut String,
    cursors: &Cursors,
    schedule: &Schedule,
    line: &Json,
) -> Result<(), NoMemory>
    requires { cursors.now.places ≡ places_of cursors.now.runs schedule.now.queries }
{
    match member_text(line, "cursors") {
        "next_due" => next_due(alloc, text, cursors, schedule, line),
        "first_due" => push_first_due(text, cursors, schedule, number_of(line, "moment")),
        "find" => find(alloc, text, cursors, line),
        "reached" => push_reached(alloc, text, cursors, line),
        _ => tell(text, "no call"),
    }
}

/// The same of cursors that are made of these runs.
fn ask_placed(
    alloc: Global,
    text: &mut String,
    runs: RunList,
    schedule: &Schedule,
    line: &Json,
) -> Result<(), NoMemory>
    requires { HaveOwnKeys runs }
{
    let cursors = placed(alloc, runs, schedule)?;
    ask(alloc, text, &cursors, schedule, line)
}

/// Notes one more batch of the query of this key, which stands at this place of the schedule.
fn record(
    alloc: Global,
    cursors: &mut Cursors,
    place: u32,
    key: &QueryKey,
    line: &Json,
) -> Result<(), NoMemory>
    requires counts { All (λ run. run.count < 2 ^ 63) cursors.old.runs }
    requires place { slice_get cursors.old.places place ≡ Some (place_of cursors.old.runs key.now) }
{
    let key = key.copy(alloc)?;
    cursors.reserve(1)?;
    let (number, hi) = (number_of(line, "number"), number_of(line, "hi"));
    cursors.record_commit(place, key, number, hi, number_of(line, "moment"));
    Ok(())
}

/// Notes one more batch of a query, where it stands at the line's place of the schedule. It answers that place, or what is wrong.
fn record_at(
    alloc: Global,
    cursors: &mut Cursors,
    schedule: &Schedule,
    key: &QueryKey,
    line: &Json,
) -> Result<Result<u32, &'static str>, NoMemory>
    requires counts { All (λ run. run.count < 2 ^ 63) cursors.old.runs }
    requires places { cursors.old.places ≡ places_of cursors.old.runs schedule.now.queries }
{
    let Ok(place) = u32::try_from(number_of(line, "place")) else {
        return Ok(Err("no place"));
    };
    let Some(scheduled) = schedule.queries.get(place as usize) else {
        return Ok(Err("no query there"));
    };
    if scheduled.key.is(key) {
        record(alloc, cursors, place, key, line)?;
        Ok(Ok(place))
    } else {
        Ok(Err("another query there"))
    }
}

/// Notes one more batch of a query, and adds what the cursors then know of it.
fn push_recorded(
    alloc: Global,
    text: &mut String,
    cursors: &mut Cursors,
    schedule: &Schedule,
    line: &Json,
) -> Result<(), NoMemory>
    requires counts { All (λ run. run.count < 2 ^ 63) cursors.old.runs }
    requires places { cursors.old.places ≡ places_of cursors.old.runs schedule.now.queries }
{
    let key = files_key(alloc, member_text(line, "query"))?;
    match record_at(alloc, cursors, schedule, &key, line)? {
        Ok(place) => push_known(text, cursors, &key, place as usize),
        Err(words) => tell(text, words),
    }
}

/// The same of cursors that are made of these runs.
fn record_placed(
    alloc: Global,
    text: &mut String,
    runs: RunList,
    schedule: &Schedule,
    line: &Json,
) -> Result<(), NoMemory>
    requires keys { HaveOwnKeys runs }
    requires counts { All (λ run. run.count < 2 ^ 63) runs }
{
    let mut cursors = placed(alloc, runs, schedule)?;
    push_recorded(alloc, text, &mut cursors, schedule, line)
}

/// Makes a call of the cursors that have these runs, placed for the queries of the schedule.
fn call_placed(
    alloc: Global,
    text: &mut String,
    runs: RunList,
    schedule: &Schedule,
    line: &Json,
) -> Result<(), NoMemory> {
    if !have_own_keys(runs.as_slice()) {
        return tell(text, "two runs of a query");
    }
    if member_text(line, "cursors") != "record_commit" {
        return ask_placed(alloc, text, runs, schedule, line);
    }
    if may_grow(&runs) {
        record_placed(alloc, text, runs, schedule, line)
    } else {
        tell(text, "too many batches")
    }
}

/// Makes a call of cursors with the runs and for the queries that a line gave, and adds what it says.
pub(crate) fn call(
    alloc: Global,
    text: &mut String,
    given: &Json,
    line: &Json,
) -> Result<(), NoMemory> {
    let schedule = schedule(alloc, given)?;
    let runs = runs(alloc, items_in(given, "runs"))?;
    call_placed(alloc, text, runs, &schedule, line)
}

/// The run at the line's last moment, where it has one.
fn last_run(alloc: Global, line: &Json) -> Result<Option<Run>, NoMemory> {
    let Some(last) = line.get("last").and_then(Json::as_u64) else {
        return Ok(None);
    };
    Ok(Some(Run {
        key: files_key(alloc, "a")?,
        number: 1,
        hi: 0,
        moment: last,
        count: 1,
    }))
}

/// Adds whether a query of the line's interval is due, where it has a run at the line's last moment, if it has one.
pub(crate) fn push_due(alloc: Global, text: &mut String, line: &Json) -> Result<(), NoMemory> {
    let run = last_run(alloc, line)?;
    let scheduled = Scheduled {
        key: files_key(alloc, "a")?,
        interval: number_of(line, "interval"),
    };
    let is_due = due(&scheduled, run.as_ref(), number_of(line, "moment"));
    tell(text, yes_or_no(is_due))
}
