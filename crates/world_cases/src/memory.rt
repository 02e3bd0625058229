//! What the outside in memory is given.

use crate::outside::Memory;
use osq_outside::{FailList, MemoryFiles, MemorySink, MemorySource, NamedFile, NamedFileList};
use osq_value::{Bytes, NoMemory, Str};
use std::alloc::Global;

/// One file.
pub(crate) fn one_file(alloc: Global, path: &str, text: Bytes) -> Result<MemoryFiles, NoMemory> {
    let mut files = NamedFileList::new(alloc);
    files.push(NamedFile {
        path: Str::of(alloc, path)?,
        text,
    })?;
    Ok(MemoryFiles::new(files, FailList::new(alloc)))
}

/// Gives the outside sinks to which nothing was written, and whose writes don't fail.
pub(crate) fn clear_sinks(alloc: Global, outside: &mut Memory) {
    outside.results = MemorySink::new(alloc, FailList::new(alloc));
    outside.status = MemorySink::new(alloc, FailList::new(alloc));
    outside.ledger = MemorySink::new(alloc, FailList::new(alloc));
}

/// One source, whose reads don't fail.
pub(crate) fn one_source(alloc: Global, text: Bytes) -> Result<Vec<MemorySource>, NoMemory> {
    let mut sources = Vec::new(alloc);
    sources.push(MemorySource::new(text, FailList::new(alloc)))?;
    Ok(sources)
}

/// A copy of these bytes.
pub(crate) fn copied(alloc: Global, bytes: &[u8]) -> Result<Bytes, NoMemory> {
    let mut copy = Bytes::new(alloc);
    copy.extend(bytes)?;
    Ok(copy)
}

/// Adds copies of what was sent.
pub(crate) fn add_copies(
    alloc: Global,
    pool: &mut Vec<Bytes>,
    sent: &[Bytes],
) -> Result<(), NoMemory> {
    for bytes in sent {
        pool.push(copied(alloc, bytes.as_slice())?)?;
    }
    Ok(())
}
