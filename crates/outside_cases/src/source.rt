//! Reads of a source in memory.

use crate::answer::push_bytes;
use case_text::{bytes_of, fails_of, items_of};
use osq_outside::{MemorySource, Source, SourceFault};
use osq_value::NoMemory;
use serde_json::Value as Json;
use std::alloc::Global;

/// The most bytes that a read has room for.
const ROOM: usize = 16;

/// The room that a read asks for.
fn width_of(read: &Json) -> usize {
    let width = read.as_u64().unwrap_or(0);
    usize::try_from(width).unwrap_or(ROOM)
}

fn push_read(
    text: &mut String,
    source: &mut MemorySource,
    room: &mut [u8],
) -> Result<(), NoMemory> {
    match source.read(room) {
        Ok(count) => {
            write!(text, "{count} ")?;
            push_bytes(text, room)
        }
        Err(SourceFault) => Ok(text.push_str("Fault\n")?),
    }
}

/// Reads a source, and tells of each read and of their numbers.
pub(crate) fn push_reads(alloc: Global, text: &mut String, row: &Json) -> Result<(), NoMemory> {
    let fails = fails_of(alloc, row.get("fails"))?;
    let left = bytes_of(alloc, row.get("source").unwrap_or(row))?;
    let mut source = MemorySource::new(left, fails);
    let mut room = [b'.'; ROOM];
    for read in items_of(row.get("reads")) {
        let width = width_of(read).min(room.len());
        let (front, _) = room.split_at_mut(width);
        push_read(text, &mut source, front)?;
    }
    let (calls, faults) = (source.failures.calls, source.failures.faults);
    Ok(writeln!(text, "calls {calls} faults {faults}")?)
}
