//! Writes to a sink in memory.

use crate::answer::push_bytes;
use case_text::{bytes_of, fails_of, items_of};
use osq_outside::{MemorySink, Sink, SinkFault, write_all};
use osq_value::NoMemory;
use serde_json::Value as Json;
use std::alloc::Global;

/// Writes by one call, and tells how many bytes it took.
fn push_write(text: &mut String, sink: &mut MemorySink, piece: &[u8]) -> Result<(), NoMemory> {
    match sink.write(piece) {
        Ok(count) => Ok(writeln!(text, "{count}")?),
        Err(SinkFault) => Ok(text.push_str("Fault\n")?),
    }
}

/// Writes the whole, and tells that it is done.
fn push_whole(text: &mut String, sink: &mut MemorySink, whole: &[u8]) -> Result<(), NoMemory> {
    match write_all(sink, whole) {
        Ok(()) => Ok(text.push_str("all\n")?),
        Err(SinkFault) => Ok(text.push_str("Fault\n")?),
    }
}

/// Writes what an item says, and tells what is answered.
fn push_item(
    alloc: Global,
    text: &mut String,
    sink: &mut MemorySink,
    item: &Json,
) -> Result<(), NoMemory> {
    match item.get("all") {
        Some(whole) => push_whole(text, sink, bytes_of(alloc, whole)?.as_slice()),
        None => push_write(text, sink, bytes_of(alloc, item)?.as_slice()),
    }
}

/// Writes to a sink, and tells of each write and of what was written.
pub(crate) fn push_writes(alloc: Global, text: &mut String, row: &Json) -> Result<(), NoMemory> {
    let mut sink = MemorySink::new(alloc, fails_of(alloc, row.get("fails"))?);
    for item in items_of(row.get("writes")) {
        push_item(alloc, text, &mut sink, item)?;
    }
    text.push_str("written ")?;
    push_bytes(text, sink.written().as_slice())
}
