//! Lines with queries: their rows by the meaning and by the plan, and what shows the plan.

use crate::derived::query_of;
use crate::sql::{Plan, Query, TextError, explain, plain_rows, plan_of, run_plan};
use crate::view::GivenTables;
use case_text::push_rows;
use osq_value::{NoMemory, RowList};
use serde_json::Value as Json;
use std::alloc::Global;
use std::str;

fn push_place(shown: &mut String, kind: &str, place: usize) -> Result<(), NoMemory> {
    shown.push_str(" ")?;
    shown.push_str(kind)?;
    Ok(write!(shown, " at {place}")?)
}

/// Adds the kind and the place of a fault.
pub(crate) fn push_fault(shown: &mut String, error: TextError) -> Result<(), NoMemory> {
    match error {
        TextError::NoMemory => Err(NoMemory),
        _ => push_place(shown, error.name(), error.place()),
    }
}

/// Adds the rows, or that there are none.
pub(crate) fn push_all(shown: &mut String, rows: &RowList) -> Result<(), NoMemory> {
    if rows.len() == 0 {
        return Ok(shown.push_str(" no rows")?);
    }
    push_rows(shown, rows)
}

fn text_of(alloc: Global, rows: &RowList) -> Result<String, NoMemory> {
    let mut text = String::new(alloc);
    push_all(&mut text, rows)?;
    Ok(text)
}

/// Adds the texts of both ways, once where they are one.
fn push_texts(shown: &mut String, one: &str, word: &str, other: &str) -> Result<(), NoMemory> {
    if one == other {
        shown.push_str(" both")?;
        return Ok(shown.push_str(one)?);
    }
    shown.push_str(one)?;
    shown.push_str("\n=> but ")?;
    shown.push_str(word)?;
    Ok(shown.push_str(other)?)
}

fn push_against(
    alloc: Global,
    shown: &mut String,
    one: &str,
    word: &str,
    others: &RowList,
) -> Result<(), NoMemory> {
    let other = text_of(alloc, others)?;
    push_texts(shown, one, word, &other)
}

/// Adds the rows that both ways give; where they give other ones, those of the first and behind a word those of the second.
pub(crate) fn push_both_ways(
    alloc: Global,
    shown: &mut String,
    rows: &RowList,
    word: &str,
    others: &RowList,
) -> Result<(), NoMemory> {
    let one = text_of(alloc, rows)?;
    push_against(alloc, shown, &one, word, others)
}

fn push_with_plan(
    alloc: Global,
    shown: &mut String,
    plain: &RowList,
    plan: &Plan,
    view: &GivenTables,
) -> Result<(), NoMemory> {
    let planned = run_plan(alloc, plan, view)?;
    push_both_ways(alloc, shown, plain, "by the plan", &planned)
}

/// Adds the rows of the meaning and of the plan.
fn push_both(
    alloc: Global,
    shown: &mut String,
    plan: &Plan,
    view: &GivenTables,
) -> Result<(), NoMemory> {
    let plain = plain_rows(alloc, &plan.query, view)?;
    push_with_plan(alloc, shown, &plain, plan, view)
}

fn push_by_plan(
    alloc: Global,
    shown: &mut String,
    plan: &Plan,
    view: &GivenTables,
) -> Result<(), NoMemory> {
    push_all(shown, &run_plan(alloc, plan, view)?)
}

fn push_lines(shown: &mut String, lines: &str) -> Result<(), NoMemory> {
    for line in lines.lines() {
        shown.push_str("\n| ")?;
        shown.push_str(line)?;
    }
    Ok(shown.push_str(if lines.ends_with('\n') {
        ""
    } else {
        " (without a line feed)"
    })?)
}

fn push_shown(shown: &mut String, bytes: &[u8]) -> Result<(), NoMemory> {
    match str::from_utf8(bytes) {
        Err(_) => Ok(shown.push_str(" no text")?),
        Ok("") => Ok(shown.push_str(" nothing")?),
        Ok(lines) => push_lines(shown, lines),
    }
}

/// Adds the lines that show a plan.
fn push_explained(alloc: Global, shown: &mut String, plan: &Plan) -> Result<(), NoMemory> {
    let text = explain(alloc, plan)?;
    push_shown(shown, text.as_slice())
}

fn push_wanted(
    alloc: Global,
    shown: &mut String,
    line: &Json,
    plan: &Plan,
    view: &GivenTables,
) -> Result<(), NoMemory> {
    if line.get("explain").is_some() {
        push_explained(alloc, shown, plan)
    } else if line.get("by_plan").is_some() {
        push_by_plan(alloc, shown, plan, view)
    } else {
        push_both(alloc, shown, plan, view)
    }
}

fn push_planned(
    alloc: Global,
    shown: &mut String,
    line: &Json,
    query: &Query,
    view: &GivenTables,
) -> Result<(), NoMemory> {
    let plan = plan_of(alloc, query)?;
    push_wanted(alloc, shown, line, &plan, view)
}

/// Adds what a line wants of the plan of a text.
pub(crate) fn push_query(
    alloc: Global,
    shown: &mut String,
    line: &Json,
    text: &str,
    view: &GivenTables,
) -> Result<(), NoMemory> {
    match query_of(alloc, text) {
        Err(error) => push_fault(shown, error),
        Ok(query) => push_planned(alloc, shown, line, &query, view),
    }
}
