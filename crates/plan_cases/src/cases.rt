//! The kinds of lines, and what is told of each.

use crate::answers::{push_answer, push_packs};
use crate::joins::push_join;
use crate::queries::push_query;
use crate::scans::push_scan;
use crate::view::GivenTables;
use case_text::{Bench, LineKind, json_of_line, kind_of, member_text, odd_member};
use osq_value::NoMemory;
use serde_json::Value as Json;
use std::alloc::Global;

const KINDS: [LineKind; 7] = [
    ("tables", &[]),
    ("rows", &["by_plan"]),
    ("explain", &[]),
    ("join", &["keys"]),
    ("scan", &["where"]),
    ("answer", &[]),
    ("packs", &[]),
];

const TABLES: LineKind = ("tables", &["users", "groups", "user_groups", "parts"]);

fn push_odd_name(shown: &mut String, kind: &str, name: &str) -> Result<(), NoMemory> {
    shown.push_str(" (no line of ")?;
    shown.push_str(kind)?;
    shown.push_str(" has ")?;
    shown.push_str(name)?;
    Ok(shown.push_str(")")?)
}

/// Adds a member that the line, or the tables that it gives, may not have.
fn push_odd(shown: &mut String, line: &Json, kind: LineKind) -> Result<(), NoMemory> {
    match odd_member(line, kind) {
        None => Ok(()),
        Some(name) => push_odd_name(shown, kind.0, name),
    }
}

/// Adds what a line gives over the view.
fn push_given(
    alloc: Global,
    shown: &mut String,
    line: &Json,
    name: &str,
    view: &GivenTables,
) -> Result<(), NoMemory> {
    let text = member_text(line, name);
    match name {
        "rows" | "explain" => push_query(alloc, shown, line, text, view),
        "join" => push_join(alloc, shown, line, text, view),
        "scan" => push_scan(alloc, shown, line, view),
        "answer" => push_answer(alloc, shown, text, view),
        _ => push_packs(alloc, shown, line, view),
    }
}

/// Takes the tables that a line gives.
fn take_tables(alloc: Global, view: &mut GivenTables, tables: &Json) -> Result<(), NoMemory> {
    *view = GivenTables::of(alloc, tables)?;
    Ok(())
}

fn push_taken(
    alloc: Global,
    shown: &mut String,
    tables: &Json,
    view: &mut GivenTables,
) -> Result<(), NoMemory> {
    push_odd(shown, tables, TABLES)?;
    take_tables(alloc, view, tables)?;
    Ok(shown.push_str(" taken")?)
}

fn push_case(
    alloc: Global,
    shown: &mut String,
    line: &Json,
    view: &mut GivenTables,
) -> Result<(), NoMemory> {
    let Some(kind) = kind_of(line, KINDS.as_slice()) else {
        return Ok(shown.push_str(" no kind of line")?);
    };
    push_odd(shown, line, kind)?;
    match line.get("tables") {
        Some(tables) => push_taken(alloc, shown, tables, view),
        None => push_given(alloc, shown, line, kind.0, view),
    }
}

/// Adds the line, and what it gives.
fn push_told(
    alloc: Global,
    shown: &mut String,
    line: &str,
    case: &Json,
    view: &mut GivenTables,
) -> Result<(), NoMemory> {
    shown.push_str(line)?;
    shown.push_str("\n=>")?;
    push_case(alloc, shown, case, view)?;
    Ok(shown.push_str("\n")?)
}

/// Lines are over the tables that the last of them gave.
impl Bench for GivenTables {
    fn take_line(&mut self, alloc: Global, line: &str) -> Result<String, NoMemory> {
        let mut shown = String::new(alloc);
        if let Some(case) = json_of_line(alloc, line)? {
            push_told(alloc, &mut shown, line, &case, self)?;
        }
        Ok(shown)
    }
}
