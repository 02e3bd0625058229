//! What is printed of each story.

use crate::stories::{backwards, closed, joined_cut, tails, ticks, two_cuts};
use crate::threads::{four_threads, many_threads, two_threads};
use crate::turns::Outcome;
use osq_value::NoMemory;
use session_state::{AppendError, TickRefusal};
use std::alloc::Global;
use std::sync::Wait;
use std::thread::Threads;

fn push_outcome(text: &mut String, outcome: Outcome) -> Result<(), NoMemory> {
    match outcome {
        Outcome::Committed(number) => write!(text, " committed {number}")?,
        Outcome::Superseded(number) => write!(text, " superseded by {number}")?,
        Outcome::Other => text.push_str(" other")?,
    }
    Ok(())
}

fn push_appended(
    text: &mut String,
    appended: Result<(u64, u64), AppendError>,
) -> Result<(), NoMemory> {
    match appended {
        Ok((before, last)) => write!(text, " ({before},{last}]")?,
        Err(AppendError::Backwards { kept }) => write!(text, " backwards from {kept}")?,
        Err(_) => text.push_str(" other")?,
    }
    Ok(())
}

fn push_ticked(text: &mut String, ticked: Result<(), TickRefusal>) -> Result<(), NoMemory> {
    match ticked {
        Ok(()) => text.push_str(" ticked")?,
        Err(TickRefusal::StillDue { at }) => write!(text, " query {at} is still due")?,
        Err(_) => text.push_str(" other")?,
    }
    Ok(())
}

/// Two cuts of one query, of which one is committed; and what a seat sees that has joined another.
pub(crate) fn push_cuts<R: Wait>(rt: &R, alloc: Global, text: &mut String) -> Result<(), NoMemory> {
    text.push_str("two cuts of one query:")?;
    for outcome in two_cuts(rt, alloc)? {
        push_outcome(text, outcome)?;
    }
    let (last, out) = joined_cut(rt, alloc)?;
    writeln!(text, "\nbehind a join: cut up to {last}, {out} seat out")?;
    Ok(())
}

/// Turns of several threads, none of which is lost.
pub(crate) fn push_threads<R: Threads + Wait + Sync>(
    rt: &R,
    alloc: Global,
    text: &mut String,
) -> Result<(), NoMemory> {
    let two = two_threads(rt, alloc, 1000)?;
    writeln!(text, "two threads of 1000 turns: {two}")?;
    let four = four_threads(rt, alloc, 1000)?;
    writeln!(text, "four threads of 1000 turns: {four}")?;
    let (added, last) = many_threads(rt, alloc, 7, 500)?;
    writeln!(
        text,
        "seven threads of 500 turns: {added} added, {last} seen"
    )?;
    Ok(())
}

/// A reading that goes backwards, and a tick while a query is due.
pub(crate) fn push_refusals<R: Wait>(
    rt: &R,
    alloc: Global,
    text: &mut String,
) -> Result<(), NoMemory> {
    text.push_str("readings that end at 20, 20 and 21:")?;
    for appended in backwards(rt, alloc)? {
        push_appended(text, appended)?;
    }
    text.push_str("\na tick before a batch, and behind it:")?;
    for ticked in ticks(rt, alloc)? {
        push_ticked(text, ticked)?;
    }
    text.push_str("\n")?;
    Ok(())
}

/// Tails, each entry of which is taken once, and what is left when the store is closed.
pub(crate) fn push_tails<R: Wait>(
    rt: &R,
    alloc: Global,
    text: &mut String,
) -> Result<(), NoMemory> {
    let [first, second, third] = tails(rt, alloc)?;
    writeln!(text, "tails of {first}, {second} and {third} entries")?;
    let (expired, shown, left) = closed(rt, alloc)?;
    writeln!(
        text,
        "closed: {expired} expired, {shown} events shown, {left} entries left"
    )?;
    Ok(())
}
