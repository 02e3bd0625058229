//! What rows give.

use crate::gate::{Holds, Wanted};
use crate::given::give;
use crate::left::{Shown, push_left};
use crate::many::push_many;
use crate::run::Run;
use case_text::{kind_of_row, member_text};
use osq_value::NoMemory;
use serde_json::Value as Json;
use std::alloc::Global;
use std::sync::Wait;
use std::thread::Threads;

const KINDS: [&[&str]; 2] = [
    &[
        "words",
        "config",
        "sources",
        "answers",
        "one_thread",
        "ends",
        "slices",
        "commit_behind_cuts",
        "commit_behind_appends",
        "append_behind_cuts",
    ],
    &["from", "count"],
];

fn number_of(row: &Json, name: &str) -> u64 {
    row.get(name).and_then(Json::as_u64).unwrap_or(0)
}

fn is_set(row: &Json, name: &str) -> bool {
    row.get(name).and_then(Json::as_bool).unwrap_or(false)
}

fn shown_of(row: &Json) -> Shown {
    Shown {
        ends: is_set(row, "ends"),
        slices: is_set(row, "slices"),
        sent: row.get("answers").is_some(),
    }
}

fn gate_of(row: &Json) -> Holds {
    Holds::new(Wanted {
        commit_behind_cuts: number_of(row, "commit_behind_cuts"),
        commit_behind_appends: number_of(row, "commit_behind_appends"),
        append_behind_cuts: number_of(row, "append_behind_cuts"),
    })
}

/// Runs the words of a row by threads. It answers how many waited in vain at the gate.
fn go_by_threads<R: Threads + Wait + Sync>(
    rt: &R,
    alloc: Global,
    run: &mut Run,
    row: &Json,
) -> Result<u64, NoMemory> {
    let gate = gate_of(row);
    run.go_by_threads(rt, alloc, member_text(row, "words"), &gate)?;
    Ok(gate.late())
}

/// Runs the words of a row. It answers how many waited in vain.
fn go<R: Threads + Wait + Sync>(
    rt: &R,
    alloc: Global,
    run: &mut Run,
    row: &Json,
) -> Result<u64, NoMemory> {
    if is_set(row, "one_thread") {
        run.go_alone(alloc, member_text(row, "words"))?;
        Ok(0)
    } else {
        go_by_threads(rt, alloc, run, row)
    }
}

/// Adds how many waited in vain, if any did.
fn push_late(text: &mut String, late: u64) -> Result<(), NoMemory> {
    if late > 0 {
        writeln!(text, "{late} waited in vain")?;
    }
    Ok(())
}

/// Adds what the run of a row leaves.
fn push_run<R: Threads + Wait + Sync>(
    rt: &R,
    alloc: Global,
    text: &mut String,
    run: &mut Run,
    row: &Json,
) -> Result<(), NoMemory> {
    give(alloc, &mut run.outside, row)?;
    let late = go(rt, alloc, run, row)?;
    push_left(alloc, text, run, shown_of(row))?;
    push_late(text, late)
}

/// Adds what a run of words leaves.
fn push_words<R: Threads + Wait + Sync>(
    rt: &R,
    alloc: Global,
    text: &mut String,
    row: &Json,
) -> Result<(), NoMemory> {
    let mut run = Run::new(alloc);
    push_run(rt, alloc, text, &mut run, row)
}

/// Adds what a row gives.
pub(crate) fn push_answer<R: Threads + Wait + Sync>(
    rt: &R,
    alloc: Global,
    text: &mut String,
    row: &Json,
) -> Result<(), NoMemory> {
    match kind_of_row(&KINDS, row) {
        Some("words") => push_words(rt, alloc, text, row),
        Some(_) => push_many(
            rt,
            alloc,
            text,
            number_of(row, "from"),
            number_of(row, "count"),
        ),
        None => Ok(text.push_str("no such row\n")?),
    }
}
