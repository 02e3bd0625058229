//! A round of the sources.

ghost use Rattle.std.specs.Prelude.{◌≡◌, ℕ, length, Err, OnOk};
ghost use Rattle.daemon_rounds.specs.Rounding.{AllCount, AreGoing, FailsAt, Overflows, Rounds};
ghost use Rattle.daemon_rounds.specs.declared.error.TakeError.{TakeError};

use crate::error::{TakeError, TurnError};
use crate::turning::{Which, take_turn};
use osq_outside::Source;
use session_state::State;
use source_feeds::Feed;
use std::alloc::Global;

/// A round of the sources: each that takes part takes one step, of at most so many records, and its readings are appended, in the order of
/// the sources. Each feed goes on from the state's offset of its source, and does so afterwards. After a refusal the session ends.
/// SourceFault with the place of the source that failed; NumbersSpent where the next event's number would pass 2^62.
pub fn take_round<S: Source>(
    alloc: Global,
    state: &mut State,
    feeds: &mut [Feed],
    sources: &mut [S],
    which: Which,
    most: u64,
) -> Result<(), TakeError>
    requires paired { length sources.old ≡ length feeds.old }
    requires going { AreGoing state.old.counts.taken feeds.old }
    ensures round { OnOk result (Rounds S.tells S.left S.faults which most feeds.old feeds.new sources.old sources.new state.old state.new) }
    ensures going { OnOk result (AreGoing state.new.counts.taken feeds.new) }
    ensures counts { AllCount S.tells S.left feeds.old feeds.new sources.old }
    ensures fault { (place : ℕ) → result ≡ Err (TakeError.SourceFault place) → FailsAt S.faults place sources.old sources.new }
    ensures spent { result ≡ Err TakeError.NumbersSpent → Overflows S.tells S.left S.faults which most feeds.old feeds.new sources.old sources.new state.old state.new }
{
    for at in 0..feeds.len() {
        let feed = &mut feeds[at];
        let source = &mut sources[at];
        match take_turn(alloc, state, feed, source, which, most) {
            Ok(()) => {}
            Err(TurnError::SourceFault) => return Err(TakeError::SourceFault { place: at }),
            Err(TurnError::NumbersSpent) => return Err(TakeError::NumbersSpent),
            Err(TurnError::NoMemory) => return Err(TakeError::NoMemory),
        }
    }
    Ok(())
}
