//! Runs over the outside in memory.

use crate::outside::{Memory, nothing};
use entry_model::entry::Entry;
use osq_outside::Gate;
use osq_program::run::{run_daemon, run_plain};
use osq_value::{Bytes, NoMemory};
use std::alloc::Global;
use std::str;
use std::sync::Wait;
use std::thread::Threads;

/// A run: what it is over and leaves.
#[derive(Drop)]
pub(crate) struct Run {
    /// What it reaches outside of itself.
    pub(crate) outside: Memory,
    /// The number of its status, 0 before it was run.
    pub(crate) status: u8,
}

/// The text of bytes; an empty one where they aren't UTF-8.
fn text_of(bytes: &Bytes) -> &str {
    str::from_utf8(bytes.as_slice()).unwrap_or("")
}

/// Runs these words by threads that pass the gate, and gives the number of the status.
fn status_by_threads<R: Threads + Wait + Sync, G: Gate>(
    rt: &R,
    alloc: Global,
    words: &[&str],
    outside: &mut Memory,
    gate: &G,
) -> u8 {
    run_daemon(rt, alloc, words, outside, gate).number()
}

/// Runs these words on one thread, and gives the number of the status.
fn status_alone(alloc: Global, words: &[&str], outside: &mut Memory) -> u8 {
    run_plain(alloc, words, outside).number()
}

impl Run {
    /// A run over nothing yet.
    pub(crate) fn new(alloc: Global) -> Run {
        Run {
            outside: nothing(alloc),
            status: 0,
        }
    }

    /// The kept list.
    pub(crate) fn entries(&self) -> &[Entry] {
        self.outside.keeper.entries().as_slice()
    }

    /// The result lines.
    pub(crate) fn results(&self) -> &str {
        text_of(self.outside.results.written())
    }

    /// How many frames were sent.
    pub(crate) fn sent(&self) -> usize {
        self.outside.link.sent().len()
    }

    /// The status lines.
    pub(crate) fn told(&self) -> &str {
        text_of(self.outside.status.written())
    }

    /// Runs these words by threads that pass the gate.
    pub(crate) fn go_by_threads<R: Threads + Wait + Sync, G: Gate>(
        &mut self,
        rt: &R,
        alloc: Global,
        words: &str,
        gate: &G,
    ) -> Result<(), NoMemory> {
        let words: Vec<&str> = words.split(' ').collect(alloc)?;
        self.status = status_by_threads(rt, alloc, words.as_slice(), &mut self.outside, gate);
        Ok(())
    }

    /// Runs these words on one thread.
    pub(crate) fn go_alone(&mut self, alloc: Global, words: &str) -> Result<(), NoMemory> {
        let words: Vec<&str> = words.split(' ').collect(alloc)?;
        self.status = status_alone(alloc, words.as_slice(), &mut self.outside);
        Ok(())
    }
}
