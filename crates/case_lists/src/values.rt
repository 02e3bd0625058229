//! All that is loaded as text.

use crate::loaded::push_restored;
use case_text::{push_row, push_rows};
use entry_model::restored::{Live, Restored, Run, SetTable, Taken};
use osq_value::NoMemory;
use pack_rules::schedule::Mode;

fn push_event(text: &mut String, event: &Live) -> Result<(), NoMemory> {
    let (number, table, moment) = (event.number, event.table.0, event.moment);
    write!(text, "event {number} of {table} at {moment} ")?;
    push_row(text, &event.row)?;
    Ok(text.push_str("\n")?)
}

fn push_taken(text: &mut String, taken: &Taken) -> Result<(), NoMemory> {
    Ok(writeln!(
        text,
        "source {} up to {}",
        taken.source.as_str(),
        taken.offset
    )?)
}

fn push_table(text: &mut String, table: &SetTable) -> Result<(), NoMemory> {
    write!(text, "table {}", table.table.0)?;
    push_rows(text, &table.rows)?;
    Ok(text.push_str("\n")?)
}

fn mode_word(mode: Mode) -> &'static str {
    match mode {
        Mode::Evented => "evented",
        Mode::Snapshot => "snapshot",
    }
}

fn push_run(text: &mut String, run: &Run) -> Result<(), NoMemory> {
    let (name, query, mode) = (
        run.key.name.as_str(),
        run.key.text.as_str(),
        mode_word(run.key.mode),
    );
    write!(text, "run {name} {mode} {query}: {} batches, ", run.count)?;
    Ok(writeln!(
        text,
        "last {} up to {} at {}",
        run.number, run.hi, run.moment
    )?)
}

fn push_events(text: &mut String, events: &[Live]) -> Result<(), NoMemory> {
    for event in events {
        push_event(text, event)?;
    }
    Ok(())
}

fn push_sources(text: &mut String, sources: &[Taken]) -> Result<(), NoMemory> {
    for taken in sources {
        push_taken(text, taken)?;
    }
    Ok(())
}

fn push_tables(text: &mut String, tables: &[SetTable]) -> Result<(), NoMemory> {
    for table in tables {
        push_table(text, table)?;
    }
    Ok(())
}

fn push_runs(text: &mut String, runs: &[Run]) -> Result<(), NoMemory> {
    for run in runs {
        push_run(text, run)?;
    }
    Ok(())
}

/// Adds every value that is loaded, so that two texts are one exactly where the values are.
pub fn push_all(text: &mut String, restored: &Restored) -> Result<(), NoMemory> {
    push_restored(text, restored)?;
    push_events(text, restored.live.as_slice())?;
    push_sources(text, restored.taken.as_slice())?;
    push_tables(text, restored.tables.as_slice())?;
    push_runs(text, restored.runs.as_slice())
}
