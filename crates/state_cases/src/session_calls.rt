//! Calls of a session.

ghost use Rattle.session_state.specs.CutOf.{IsCutOf};

use crate::entries::{push_entries, push_place, push_slice};
use crate::line::{items_in, number_of, number_or};
use crate::making::{reading, schedule};
use crate::ready::{answer, is_moment, is_reading, is_sound};
use crate::session::Session;
use crate::shown::{
    push_number, push_numbers, push_rows_or_none, push_tables, table_name, tell, yes_or_no,
};
use case_text::member_text;
use kept_queries::rows_behind;
use osq_value::{NoMemory, Reading, Str};
use pack_rules::schedule::Schedule;
use serde_json::Value as Json;
use session_state::{AppendError, CommitRefusal, Cut, State, TickRefusal};
use sql_query::query::Query;
use sql_texts::text::query_of_text;
use std::alloc::Global;

/// Runs a sound schedule from now on.
fn configure_by(
    alloc: Global,
    session: &mut Session,
    schedule: Schedule,
    moment: u64,
) -> Result<&'static str, NoMemory> {
    if !is_moment(moment) || !is_sound(alloc, &schedule)? {
        return Ok("no sound schedule of a moment");
    }
    session.configure(alloc, schedule, moment)?;
    Ok("done")
}

fn configure(
    alloc: Global,
    text: &mut String,
    session: &mut Session,
    line: &Json,
) -> Result<(), NoMemory> {
    let schedule = schedule(alloc, line)?;
    let words = configure_by(alloc, session, schedule, number_of(line, "moment"))?;
    tell(text, words)
}

fn push_ticked(text: &mut String, ticked: Result<(), TickRefusal>) -> Result<(), NoMemory> {
    match ticked {
        Ok(()) => tell(text, "done"),
        Err(TickRefusal::StillDue { at }) => push_number(text, " still due ", u64::from(at)),
        Err(TickRefusal::ExpiryOwed { table }) => {
            text.push_str(" expiry owed ")?;
            Ok(text.push_str(table_name(table))?)
        }
        Err(TickRefusal::NoMemory) => Err(NoMemory),
    }
}

fn tick(text: &mut String, session: &mut Session, moment: u64) -> Result<(), NoMemory> {
    if is_moment(moment) {
        push_ticked(text, session.tick(moment))
    } else {
        tell(text, "no moment")
    }
}

/// Adds a reading, where it is one of events or of a table that is set.
fn append_reading(
    alloc: Global,
    session: &mut Session,
    source: &Str,
    reading: Reading,
) -> Option<Result<(u64, u64), AppendError>> {
    if is_reading(&reading) {
        Some(session.append(alloc, source, reading))
    } else {
        None
    }
}

fn push_appended(
    text: &mut String,
    appended: Option<Result<(u64, u64), AppendError>>,
) -> Result<(), NoMemory> {
    match appended {
        None => tell(text, "no reading"),
        Some(Ok((before, after))) => push_numbers(text, before, after),
        Some(Err(AppendError::Backwards { kept })) => push_number(text, " backwards, kept ", kept),
        Some(Err(AppendError::NumbersSpent)) => tell(text, "numbers spent"),
        Some(Err(AppendError::NoMemory)) => Err(NoMemory),
    }
}

fn append(
    alloc: Global,
    text: &mut String,
    session: &mut Session,
    line: &Json,
) -> Result<(), NoMemory> {
    let source = Str::of(alloc, member_text(line, "source"))?;
    let reading = reading(alloc, line)?;
    push_appended(text, append_reading(alloc, session, &source, reading))
}

fn expire(text: &mut String, session: &mut Session) -> Result<(), NoMemory> {
    let count = session.expire()?;
    push_number(text, " ", u64::from(count))?;
    Ok(text.push_str(" tables")?)
}

fn acknowledge(text: &mut String, session: &mut Session, upto: u64) -> Result<(), NoMemory> {
    let is_done = session.acknowledge(upto)?;
    tell(text, yes_or_no(is_done))
}

fn take_tail(alloc: Global, text: &mut String, session: &mut Session) -> Result<(), NoMemory> {
    let taken = session.take_tail(alloc)?;
    push_entries(text, &taken)
}

fn show(text: &mut String, state: &State) -> Result<(), NoMemory> {
    push_number(text, " moment ", state.moment())?;
    push_number(text, ", last ", state.last_number())?;
    push_number(text, ", batches ", state.batch_count())?;
    push_number(text, ", acknowledged ", state.acknowledged())
}

/// Adds what the state shows of the tables of the line: of the events those above a number, or none where the line names none.
fn view(alloc: Global, text: &mut String, state: &State, line: &Json) -> Result<(), NoMemory> {
    let moment = number_of(line, "moment");
    if !is_moment(moment) {
        return tell(text, "no moment");
    }
    let above = number_or(line, "above", state.last_number());
    let view = state.view_above(alloc, above, moment)?;
    push_tables(text, &view, items_in(line, "tables"))
}

fn ask_query(
    alloc: Global,
    text: &mut String,
    state: &State,
    query: &Query,
    moment: u64,
) -> Result<(), NoMemory> {
    if !is_moment(moment) {
        return tell(text, "no moment");
    }
    let rows = rows_behind(alloc, query, state, moment)?;
    push_rows_or_none(text, &rows)
}

/// Adds the rows that a text means behind the state.
fn ask(alloc: Global, text: &mut String, state: &State, line: &Json) -> Result<(), NoMemory> {
    match query_of_text(alloc, member_text(line, "text")) {
        Ok(query) => ask_query(alloc, text, state, &query, number_of(line, "moment")),
        Err(_) => tell(text, "no query"),
    }
}

/// Makes a call that leaves the state as it is.
fn look(alloc: Global, text: &mut String, state: &State, line: &Json) -> Result<(), NoMemory> {
    match member_text(line, "state") {
        "show" => show(text, state),
        "view" => view(alloc, text, state, line),
        "ask" => ask(alloc, text, state, line),
        _ => tell(text, "no call"),
    }
}

/// Makes a call that takes entries off or adds such as have no moment of the line, or one that looks.
fn call_entries(
    alloc: Global,
    text: &mut String,
    session: &mut Session,
    line: &Json,
) -> Result<(), NoMemory> {
    match member_text(line, "state") {
        "expire" => expire(text, session),
        "acknowledge" => acknowledge(text, session, number_of(line, "upto")),
        "tail" => take_tail(alloc, text, session),
        _ => look(alloc, text, session.state(), line),
    }
}

/// Makes a call that adds what the line gives, or another one that takes no cut and gives none.
fn call_state(
    alloc: Global,
    text: &mut String,
    session: &mut Session,
    line: &Json,
) -> Result<(), NoMemory> {
    match member_text(line, "state") {
        "configure" => configure(alloc, text, session, line),
        "tick" => tick(text, session, number_of(line, "moment")),
        "append" => append(alloc, text, session, line),
        _ => call_entries(alloc, text, session, line),
    }
}

/// Adds a cut.
fn push_cut(text: &mut String, cut: &Cut) -> Result<(), NoMemory> {
    tell(text, cut.key().name.as_str())?;
    text.push_str(", ")?;
    push_slice(text, cut.lo(), cut.hi())?;
    push_place(text, cut.position(), cut.moment())?;
    push_number(text, ", last ", cut.last())
}

/// Claims the next cut, and adds it.
fn claim(alloc: Global, text: &mut String, session: &mut Session) -> Result<(), NoMemory> {
    if !session.claim(alloc)? {
        return tell(text, "none");
    }
    match session.cuts().last() {
        Some(cut) => push_cut(text, cut),
        None => Ok(()),
    }
}

fn push_committed(
    text: &mut String,
    committed: &Result<u64, CommitRefusal>,
) -> Result<(), NoMemory> {
    match committed {
        Ok(number) => push_number(text, " batch ", *number),
        Err(refusal) => Ok(write!(text, " {refusal}")?),
    }
}

/// Answers a cut, and adds what becomes of it.
fn commit_cut(
    alloc: Global,
    text: &mut String,
    session: &mut Session,
    cut: Cut,
) -> Result<(), NoMemory>
    requires { IsCutOf session.old cut }
{
    let rows = answer(alloc, &cut)?;
    push_committed(text, &session.commit(cut, rows))
}

fn commit(
    alloc: Global,
    text: &mut String,
    session: &mut Session,
    place: u64,
) -> Result<(), NoMemory> {
    match session.take_cut(place) {
        Some(cut) => commit_cut(alloc, text, session, cut),
        None => tell(text, "no such cut"),
    }
}

fn release(text: &mut String, session: &mut Session, place: u64) -> Result<(), NoMemory> {
    match session.take_cut(place) {
        Some(cut) => {
            session.release(cut);
            tell(text, "done")
        }
        None => tell(text, "no such cut"),
    }
}

/// Makes a call of a session, and adds what it says.
pub(crate) fn call(
    alloc: Global,
    text: &mut String,
    session: &mut Session,
    line: &Json,
) -> Result<(), NoMemory> {
    match member_text(line, "state") {
        "claim" => claim(alloc, text, session),
        "commit" => commit(alloc, text, session, number_of(line, "cut")),
        "release" => release(text, session, number_of(line, "cut")),
        _ => call_state(alloc, text, session, line),
    }
}
