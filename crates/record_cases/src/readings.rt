//! Readings and events as text.

use case_text::push_row;
use osq_value::{Copied, Event, NoMemory, Reading, ReadingList, Value};
use publisher_core::error::StepError;
use std::alloc::Global;

/// Adds an event, or that there is none, as a line.
pub(crate) fn push_maybe_event(text: &mut String, event: Option<&Event>) -> Result<(), NoMemory> {
    match event {
        Some(event) => {
            write!(text, "  {} ", event.table.0)?;
            push_row(text, &event.row)?;
            Ok(text.push_str("\n")?)
        }
        None => Ok(text.push_str("  no event\n")?),
    }
}

/// Adds the first value of a row in parentheses: the path of a change, the process of a program that was run.
fn push_first(text: &mut String, first: Option<&Value>) -> Result<(), NoMemory> {
    text.push_str("(")?;
    match first {
        Some(Value::Int(number)) => write!(text, "{number}")?,
        Some(Value::Text(part)) => text.push_str(part.as_str())?,
        _ => text.push_str("-")?,
    }
    Ok(text.push_str(")")?)
}

fn push_events(text: &mut String, events: &[Event], is_whole: bool) -> Result<(), NoMemory> {
    for event in events {
        if is_whole {
            push_row(text, &event.row)?;
        } else {
            push_first(text, event.row.get(0))?;
        }
    }
    Ok(())
}

fn push_reading(text: &mut String, reading: &Reading, is_whole: bool) -> Result<(), NoMemory> {
    match reading {
        Reading::Events {
            taken,
            events,
            skipped,
        } => {
            write!(text, " {taken}+{skipped}")?;
            push_events(text, events.as_slice(), is_whole)
        }
        Reading::Table { taken, table, rows } => {
            write!(text, " {taken}:{}", table.0)?;
            Ok(write!(text, "x{}", rows.len())?)
        }
    }
}

fn push_all(text: &mut String, readings: &[Reading], is_whole: bool) -> Result<(), NoMemory> {
    for reading in readings {
        push_reading(text, reading, is_whole)?;
    }
    Ok(())
}

/// Adds a copy of readings, so that copying them is tried too.
pub(crate) fn push_readings(
    alloc: Global,
    text: &mut String,
    readings: &ReadingList,
    is_whole: bool,
) -> Result<(), NoMemory> {
    let copy = readings.copy(alloc)?;
    push_all(text, copy.as_slice(), is_whole)
}

/// Adds a mark where the source is at its end.
pub(crate) fn push_end(text: &mut String, is_at_end: bool) -> Result<(), NoMemory> {
    if is_at_end {
        text.push_str("!")?;
    }
    Ok(())
}

/// Says why a step or a start is refused, or that memory is wanting.
pub(crate) fn push_refusal(text: &mut String, error: StepError) -> Result<(), NoMemory> {
    match error {
        StepError::SourceFault => Ok(text.push_str(" fault")?),
        StepError::SourceShrank { kept, found } => Ok(write!(text, " {found} of {kept}")?),
        StepError::NoMemory => Err(NoMemory),
    }
}
