//! A run by threads, and the same run on one thread.

use crate::alike::have_same_batches;
use crate::entries::{is_reading, last_number};
use crate::list::fault_of;
use crate::made::Made;
use crate::run::Run;
use crate::seen::Seen;
use osq_value::NoMemory;
use std::alloc::Global;
use std::sync::Wait;
use std::thread::Threads;

/// A run by threads, and the same run on one thread.
#[derive(Drop)]
struct Pair {
    by_threads: Made,
    alone: Made,
}

/// Where `replay` leaves another status, tells otherwise, or has other events.
fn end_fault(run: &Run, alone: &Run) -> Option<&'static str> {
    if run.status != 0 && run.status != 11 {
        return Some("a status that isn't 0 or 11");
    }
    if run.status != alone.status || run.told() != alone.told() {
        return Some("another end");
    }
    if last_number(run.entries()) != last_number(alone.entries()) {
        return Some("other events");
    }
    None
}

/// Where nothing is read, and `replay` has other batches.
fn batches_fault(alloc: Global, run: &Run, alone: &Run) -> Result<Option<&'static str>, NoMemory> {
    if run.entries().iter().any(is_reading)
        || have_same_batches(alloc, run.entries(), alone.entries())?
    {
        Ok(None)
    } else {
        Ok(Some("other batches"))
    }
}

impl Pair {
    /// The two runs that are made of this number, of which nothing is made yet.
    fn new(alloc: Global, seed: u64) -> Pair {
        Pair {
            by_threads: Made::new(alloc, seed),
            alone: Made::new(alloc, seed),
        }
    }

    /// Makes and runs both.
    fn go<R: Threads + Wait + Sync>(&mut self, rt: &R, alloc: Global) -> Result<(), NoMemory> {
        self.by_threads.make(alloc)?;
        self.by_threads.go_by_threads(rt, alloc)?;
        self.alone.make(alloc)?;
        self.alone.go_alone(alloc)
    }

    /// What is wrong with what the threads leave.
    fn fault(&self, alloc: Global) -> Result<Option<&'static str>, NoMemory> {
        let run = &self.by_threads.run;
        let alone = &self.alone.run;
        match fault_of(alloc, run.entries())?.or(end_fault(run, alone)) {
            Some(fault) => Ok(Some(fault)),
            None => batches_fault(alloc, run, alone),
        }
    }

    /// Runs both, and answers what is wrong with what the threads leave.
    fn tried<R: Threads + Wait + Sync>(
        &mut self,
        rt: &R,
        alloc: Global,
        seen: &mut Seen,
    ) -> Result<Option<&'static str>, NoMemory> {
        self.go(rt, alloc)?;
        seen.add(&self.by_threads.run);
        self.fault(alloc)
    }
}

/// Runs what is made of this number by threads and on one thread, and answers what is wrong with what the threads leave.
pub(crate) fn tried<R: Threads + Wait + Sync>(
    rt: &R,
    alloc: Global,
    seed: u64,
    seen: &mut Seen,
) -> Result<Option<&'static str>, NoMemory> {
    let mut pair = Pair::new(alloc, seed);
    pair.tried(rt, alloc, seen)
}
