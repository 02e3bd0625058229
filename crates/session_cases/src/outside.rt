//! The outside in memory, and runs over it.

use batch_forwarder::MemoryLink;
use batch_keeper::MemoryKeeper;
use entry_model::entry::EntryList;
use osq_outside::{FailList, MemoryFiles, MemorySink, MemorySource, NamedFileList, StepClock};
use osq_program::Outside;
use osq_program::run::run_plain;
use osq_value::Sequence;
use std::alloc::Global;

/// The outside in memory.
pub(crate) type Memory = Outside<
    MemorySource,
    MemorySink,
    MemoryFiles,
    StepClock,
    MemoryKeeper,
    MemoryLink,
>;

/// An outside with nothing in it.
pub(crate) fn nothing(alloc: Global) -> Memory {
    Outside {
        sources: Vec::new(alloc),
        results: MemorySink::new(alloc, FailList::new(alloc)),
        status: MemorySink::new(alloc, FailList::new(alloc)),
        ledger: MemorySink::new(alloc, FailList::new(alloc)),
        files: MemoryFiles::new(NamedFileList::new(alloc), FailList::new(alloc)),
        clock: StepClock { next: 0, step: 0 },
        keeper: MemoryKeeper::new(EntryList::new(alloc), FailList::new(alloc), false),
        link: MemoryLink::new(alloc, Sequence::new(alloc), FailList::new(alloc)),
    }
}

/// Runs these words, and gives the number of the status.
pub(crate) fn run(alloc: Global, words: &[&str], outside: &mut Memory) -> u8 {
    run_plain(alloc, words, outside).number()
}
