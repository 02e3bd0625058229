//! Rounds of sending and polling.

use crate::given::{answers_of, entries_of};
use batch_forwarder::{ForwardError, Forwarder, MemoryLink, poll_marks, send_frames};
use batch_frames::decode_frame;
use batch_keeper::MemoryKeeper;
use case_text::{fails_of, member_text};
use entry_model::entry::Entry;
use osq_value::{Bytes, NoMemory, Sequence};
use serde_json::Value as Json;
use std::alloc::Global;

/// Adds the host and the number of a frame.
fn push_frame(alloc: Global, text: &mut String, frame: &Bytes) -> Result<(), NoMemory> {
    match decode_frame(alloc, frame.as_slice()) {
        Ok(frame) => Ok(write!(text, " {}:{}", frame.host.as_str(), frame.batch.number)?),
        Err(_) => Ok(text.push_str(" no frame")?),
    }
}

/// Adds the frames that were sent, from a place on.
fn push_sent(
    alloc: Global,
    text: &mut String,
    link: &MemoryLink,
    from: usize,
) -> Result<(), NoMemory> {
    text.push_str("sent")?;
    for frame in link.sent().as_slice().iter().skip(from) {
        push_frame(alloc, text, frame)?;
    }
    Ok(())
}

/// Adds what stopped the sending.
fn push_stop(text: &mut String, stop: Result<(), ForwardError>) -> Result<(), NoMemory> {
    match stop {
        Ok(()) => Ok(()),
        Err(ForwardError::KeeperFault) => Ok(text.push_str("; KeeperFault")?),
        Err(ForwardError::NoMemory) => Err(NoMemory),
    }
}

/// Polls, and adds the marks that this gave.
fn push_marks(
    alloc: Global,
    text: &mut String,
    forwarder: &mut Forwarder,
    link: &mut MemoryLink,
    host: &str,
) -> Result<(), NoMemory> {
    let mut marks = Sequence::new(alloc);
    poll_marks(alloc, forwarder, link, host, &mut marks)?;
    text.push_str("; marks")?;
    for mark in marks.as_slice() {
        write!(text, " {mark}")?;
    }
    Ok(writeln!(text, "; faults {}", link.failures.faults)?)
}

/// The forwarder of a list: its mark, and the count of its batches.
fn forwarder_of(entries: &[Entry]) -> Forwarder {
    let mut acked = 0;
    let mut sealed = 0u64;
    for entry in entries {
        match entry {
            Entry::Committed { .. } => sealed = sealed.saturating_add(1),
            Entry::Acked { upto } => acked = *upto,
            _ => {}
        }
    }
    Forwarder::new(acked, sealed)
}

/// Adds what each round of a row sends and polls.
pub(crate) fn push_rounds(alloc: Global, text: &mut String, row: &Json) -> Result<(), NoMemory> {
    let host = member_text(row, "forward");
    let entries = entries_of(alloc, row)?;
    let mut forwarder = forwarder_of(entries.as_slice());
    let mut keeper = MemoryKeeper::new(entries, fails_of(alloc, row.get("keeper"))?, true);
    let fails = fails_of(alloc, row.get("link"))?;
    let mut link = MemoryLink::new(alloc, answers_of(alloc, row)?, fails);
    for _ in 0..row.get("rounds").and_then(Json::as_u64).unwrap_or(1) {
        let before = link.sent().len();
        let stop = send_frames(alloc, &mut forwarder, &mut keeper, &mut link, host);
        push_sent(alloc, text, &link, before)?;
        push_stop(text, stop)?;
        push_marks(alloc, text, &mut forwarder, &mut link, host)?;
    }
    Ok(())
}
