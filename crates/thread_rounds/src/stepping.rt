//! The threads of a tick.

ghost use Rattle.std.specs.Prelude.{◌≡◌, ◌≢◌, ◌+◌, ◌<◌, ◌≤◌, ◌^◌, ℕ, All, Err, IfSome, OnOk, length, map, bytes_eq};
ghost use Rattle.entry_model.specs.Fits.{IsDistinct};
ghost use Rattle.turn_lock.specs.Words.{seen};
ghost use Rattle.shared_store.specs.Turns.{notes_of};
ghost use Rattle.shared_store.specs.Words.{most_seats, start_of};
ghost use Rattle.daemon_rounds.specs.Rounding.{AllCount, FailsAt};
ghost use Rattle.thread_jobs.specs.Publishing.{IsGoingFrom};
ghost use Rattle.thread_jobs.specs.declared.error.JobError.{JobError};
ghost use Rattle.thread_rounds.specs.Ends.{ended_by};
ghost use Rattle.thread_rounds.specs.Seats.{IsAlone};
ghost use Rattle.thread_rounds.specs.Stepping.{IsStepDone, SpendsStep};
ghost use Rattle.thread_rounds.specs.declared.error.StepRefusal.{StepRefusal};

use crate::error::StepRefusal;
use crate::seats::{join_jobs, split_jobs};
use osq_outside::{Gate, Source};
use osq_value::NoMemory;
use shared_store::{Store, StoreSeat};
use source_feeds::Feed;
use std::sync::Wait;
use std::thread::Threads;
use thread_jobs::{JobError, Terms, do_all};

/// How a step ends whose first refused job is this one.
fn ended(refused: Option<(usize, JobError)>) -> Result<(), StepRefusal>
    requires { IfSome refused (λ at. at.1 ≢ JobError.Intruded) }
    ensures { result ≡ ended_by refused }
{
    match refused {
        None => Ok(()),
        Some((place, JobError::SourceFault)) => Err(StepRefusal::SourceFault { place }),
        Some((_, JobError::NumbersSpent)) => Err(StepRefusal::NumbersSpent),
        Some((_, JobError::NoMemory)) => Err(StepRefusal::NoMemory),
        Some((_, JobError::Intruded)) => unreachable!(),
    }
}

/// The threads of a tick: a publisher for each source and so many workers, each with a seat of its own, which is split off before and joined behind.
/// No two sources have one name.
///
/// Each thread ends its part, whatever comes of the others. Of those that are refused the first source is told, and a worker only where no source
/// is refused. That another seat has added readings of a source is ruled out by the joins.
pub fn work_step<R: Threads + Wait + Sync, S: Source, G: Gate>(
    rt: &R,
    terms: &Terms,
    store: &Store,
    gate: &G,
    first: &mut StoreSeat,
    feeds: &mut [Feed],
    sources: &mut [S],
    workers: u32,
) -> Result<(), StepRefusal>
    requires seat { IsAlone store.now first.old }
    requires workers { 1 ≤ workers }
    requires room { 1 + (length feeds.old + workers) ≤ most_seats store.now }
    requires few { length feeds.old + workers < 2 ^ 32 }
    requires paired { length sources.old ≡ length feeds.old }
    requires going { All (IsGoingFrom (start_of store.now) (notes_of first.old)) feeds.old }
    requires names { IsDistinct bytes_eq (map (λ feed. feed.name) feeds.old) }
    ensures seat { IsAlone store.now first.new }
    ensures done { OnOk result (IsStepDone S.tells S.left S.faults terms.now.most (start_of store.now) (seen first.old) (seen first.new) feeds.old feeds.new sources.old sources.new) }
    ensures going { OnOk result (All (IsGoingFrom (start_of store.now) (notes_of first.new)) feeds.new) }
    ensures counts { AllCount S.tells S.left feeds.old feeds.new sources.old }
    ensures fault { (place : ℕ) → result ≡ Err (StepRefusal.SourceFault place) → FailsAt S.faults place sources.old sources.new }
    ensures spent { result ≡ Err StepRefusal.NumbersSpent → SpendsStep S.tells S.left terms.now.most (start_of store.now) (seen first.old) (seen first.new) feeds.old feeds.new sources.old sources.new }
{
    let publishers = feeds.len();
    let Ok(mut jobs) = Vec::with_capacity(terms.alloc, publishers + workers as usize) else {
        return Err(StepRefusal::NoMemory);
    };
    match split_jobs(store, first, &mut jobs, publishers as u32 + workers) {
        Ok(()) => {
            let (front, back) = jobs.as_mut_slice().split_at_mut(publishers);
            do_all(rt, terms, store, gate, front, feeds, sources, back);
            ended(join_jobs(store, first, jobs))
        }
        Err(NoMemory) => {
            let _refused = join_jobs(store, first, jobs);
            Err(StepRefusal::NoMemory)
        }
    }
}
