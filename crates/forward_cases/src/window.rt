//! Calls of a forwarder.

use batch_forwarder::Forwarder;
use case_text::items_of;
use osq_value::NoMemory;
use serde_json::Value as Json;

/// The number at a place of an array, or 0.
fn number_at(items: &[Json], at: usize) -> u64 {
    items.get(at).and_then(Json::as_u64).unwrap_or(0)
}

/// Adds a number, or that there is none.
fn push_option(text: &mut String, number: Option<u64>) -> Result<(), NoMemory> {
    match number {
        Some(number) => Ok(write!(text, " {number}")?),
        None => Ok(text.push_str(" none")?),
    }
}

/// Makes a call with a number.
fn push_told(text: &mut String, forwarder: &mut Forwarder, call: &Json) -> Result<(), NoMemory> {
    if let Some(count) = call.get("sealed").and_then(Json::as_u64) {
        forwarder.sealed(count);
    }
    match call.get("recorded").and_then(Json::as_u64) {
        Some(recorded) => push_option(text, forwarder.on_answer(recorded)),
        None => Ok(()),
    }
}

/// Makes a call, and adds what it gives.
fn push_call(text: &mut String, forwarder: &mut Forwarder, call: &Json) -> Result<(), NoMemory> {
    match call.as_str() {
        Some("next") => push_option(text, forwarder.next()),
        Some("restart") => {
            forwarder.restart();
            Ok(())
        }
        _ => push_told(text, forwarder, call),
    }
}

/// Adds what the calls of a row give.
pub(crate) fn push_calls(text: &mut String, row: &Json) -> Result<(), NoMemory> {
    let window = items_of(row.get("window"));
    let mut forwarder = Forwarder::new(number_at(window, 0), number_at(window, 1));
    text.push_str("gives")?;
    for call in items_of(row.get("calls")) {
        push_call(text, &mut forwarder, call)?;
    }
    Ok(writeln!(text, "; mark {}", forwarder.acked())?)
}
