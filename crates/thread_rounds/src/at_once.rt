//! A round of the sources and of workers who answer what is due, all at once.

ghost use Rattle.std.specs.Prelude.{◌≡◌, ◌+◌, ◌≤◌, IfSome, length};
ghost use Rattle.session_model.specs.Orders.{at_once};
ghost use Rattle.daemon_rounds.specs.Orders.{EndsRound};
ghost use Rattle.daemon_rounds.specs.Rounding.{AreGoing};
ghost use Rattle.thread_rounds.specs.AtOnce.{taken_by, untaken_by};

use crate::error::StepRefusal;
use crate::stepping::work_step;
use daemon_rounds::TakeError;
use entry_model::restored::Restored;
use osq_outside::{Gate, Source};
use session_state::State;
use shared_store::Store;
use source_feeds::Feed;
use std::alloc::Global;
use std::mem;
use std::sync::Wait;
use std::thread::Threads;
use thread_jobs::Terms;

/// How many seats so many publishers and workers need beside the first one, or nothing where that can't be counted.
fn seats_for(publishers: usize, workers: u32) -> Option<u32>
    ensures { IfSome result (λ seats. seats ≡ 1 + (publishers + workers)) }
{
    let Ok(publishers) = u32::try_from(publishers) else {
        return None;
    };
    match publishers.checked_add(workers) {
        Some(threads) => threads.checked_add(1),
        None => None,
    }
}

/// Why a round isn't done whose step is refused.
fn untaken(refusal: StepRefusal) -> TakeError
    ensures { result ≡ untaken_by refusal }
{
    match refusal {
        StepRefusal::SourceFault { place } => TakeError::SourceFault { place },
        StepRefusal::NumbersSpent => TakeError::NumbersSpent,
        StepRefusal::NoMemory => TakeError::NoMemory,
    }
}

/// How a round ends, where its step ended so.
fn taken(done: Result<(), StepRefusal>) -> Result<(), TakeError>
    ensures { result ≡ taken_by done }
{
    match done {
        Ok(()) => Ok(()),
        Err(refusal) => Err(untaken(refusal)),
    }
}

/// A round of the sources and of so many workers by threads, over a store that is made over the state and gives it back. No two sources have one name.
///
/// Each source takes one step, of at most so many records, in a thread of its own, and the workers answer what is due meanwhile. Where memory is wanting
/// the state is lost: an empty one stands in its place.
/// SourceFault with the place of the first source that failed; NumbersSpent where the next event's or batch's number would pass 2^62.
pub fn round_at_once<R: Threads + Wait + Sync, S: Source, G: Gate>(
    rt: &R,
    gate: &G,
    workers: u32,
    alloc: Global,
    state: &mut State,
    feeds: &mut [Feed],
    sources: &mut [S],
    most: u64,
) -> Result<(), TakeError>
    requires workers { 1 ≤ workers }
    requires paired { length sources.old ≡ length feeds.old }
    requires going { AreGoing state.old.counts.taken feeds.old }
    ensures { EndsRound at_once S.tells S.left S.faults most feeds.old feeds.new sources.old sources.new state.old state.new result }
{
    let Some(seats) = seats_for(feeds.len(), workers) else {
        return Err(TakeError::NoMemory);
    };
    let Ok(empty) = State::begin(alloc, Restored::empty(alloc)) else {
        return Err(TakeError::NoMemory);
    };
    let given = mem::replace(state, empty);
    let Ok((store, mut first)) = Store::over(alloc, given, seats) else {
        return Err(TakeError::NoMemory);
    };
    let terms = Terms { alloc, most };
    let done = work_step(
        rt, &terms, &store, gate, &mut first, feeds, sources, workers,
    );
    *state = store.close(first);
    taken(done)
}
