//! The outside in memory.

use batch_forwarder::MemoryLink;
use batch_keeper::MemoryKeeper;
use entry_model::entry::EntryList;
use osq_outside::{
    FailList, MemoryFiles, MemorySink, MemorySource, NamedFile, NamedFileList, StepClock,
};
use osq_program::Outside;
use osq_value::{Bytes, NoMemory, Sequence, Str};
use std::alloc::Global;

/// The outside in memory.
pub(crate) type Memory = Outside<
    MemorySource,
    MemorySink,
    MemoryFiles,
    StepClock,
    MemoryKeeper,
    MemoryLink,
>;

/// An outside with nothing in it, over an empty kept list.
pub(crate) fn nothing(alloc: Global) -> Memory {
    Outside {
        sources: Vec::new(alloc),
        results: MemorySink::new(alloc, FailList::new(alloc)),
        status: MemorySink::new(alloc, FailList::new(alloc)),
        ledger: MemorySink::new(alloc, FailList::new(alloc)),
        files: MemoryFiles::new(NamedFileList::new(alloc), FailList::new(alloc)),
        clock: StepClock {
            next: 1000,
            step: 60,
        },
        keeper: MemoryKeeper::new(EntryList::new(alloc), FailList::new(alloc), false),
        link: MemoryLink::new(alloc, Sequence::new(alloc), FailList::new(alloc)),
    }
}

/// The file of this text at the path `c`.
fn file_of(alloc: Global, text: Bytes) -> Result<NamedFile, NoMemory> {
    Ok(NamedFile {
        path: Str::of(alloc, "c")?,
        text,
    })
}

/// Gives the outside this configuration at the path `c`.
pub(crate) fn give_config(
    alloc: Global,
    outside: &mut Memory,
    text: Bytes,
) -> Result<(), NoMemory> {
    let mut files = NamedFileList::new(alloc);
    files.push(file_of(alloc, text)?)?;
    outside.files = MemoryFiles::new(files, FailList::new(alloc));
    Ok(())
}

/// Gives the outside one source more.
pub(crate) fn add_source(
    outside: &mut Memory,
    text: Bytes,
    fails: FailList,
) -> Result<(), NoMemory> {
    outside.sources.push(MemorySource::new(text, fails))?;
    Ok(())
}

/// Gives the outside a link at which these answers wait.
pub(crate) fn give_link(alloc: Global, outside: &mut Memory, answers: Sequence<Bytes>) {
    outside.link = MemoryLink::new(alloc, answers, FailList::new(alloc));
}
