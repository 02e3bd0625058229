//! What is loaded as text.

use entry_model::restored::{LiveList, Restored};
use osq_value::NoMemory;

/// Adds the entries, sessions, moment, last number and floors. The floors are those of processes, sockets and files.
fn push_numbers(text: &mut String, restored: &Restored) -> Result<(), NoMemory> {
    let [processes, sockets, files] = restored.floors;
    write!(text, "entries {} ", restored.position)?;
    write!(text, "sessions {} ", restored.sessions)?;
    write!(text, "moment {} last {} ", restored.moment, restored.last)?;
    Ok(writeln!(text, "floors {processes} {sockets} {files}")?)
}

/// Adds how many sources, tables and runs there are.
fn push_sizes(text: &mut String, restored: &Restored) -> Result<(), NoMemory> {
    let (sources, tables) = (restored.taken.len(), restored.tables.len());
    Ok(write!(
        text,
        "sources {sources} tables {tables} runs {} ",
        restored.runs.len()
    )?)
}

/// Adds the numbers of the events that are kept, where there are any.
fn push_live(text: &mut String, live: &LiveList) -> Result<(), NoMemory> {
    if live.as_slice().is_empty() {
        return Ok(());
    }
    text.push_str("events")?;
    for event in live.as_slice() {
        write!(text, " {}", event.number)?;
    }
    text.push_str("\n")?;
    Ok(())
}

/// Adds what is loaded.
pub fn push_restored(text: &mut String, restored: &Restored) -> Result<(), NoMemory> {
    push_numbers(text, restored)?;
    push_sizes(text, restored)?;
    writeln!(
        text,
        "batches {} acknowledged {}",
        restored.batches, restored.acked
    )?;
    push_live(text, &restored.live)
}
