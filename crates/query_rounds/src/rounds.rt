//! Rounds of the sources, one after another.

ghost use Rattle.std.specs.Prelude.{◌≡◌, ℕ, length, Err, IfOk};
ghost use Rattle.daemon_rounds.specs.Rounding.{AreGoing, FailsAt};
ghost use Rattle.daemon_rounds.specs.declared.error.TakeError.{TakeError};
ghost use Rattle.query_rounds.specs.Running.{RunsOut, RunsOver, place_of};

use daemon_rounds::{TakeError, Which, take_round};
use osq_outside::Source;
use replay_rounds::all_over;
use session_state::State;
use source_feeds::Feed;
use std::alloc::Global;

/// Runs rounds, each of one step of every source, of at most `most` records, until each source is at its end or `rounds` of them were run. It
/// answers whether each is at its end.
pub(crate) fn take_rounds<S: Source>(
    alloc: Global,
    state: &mut State,
    feeds: &mut [Feed],
    sources: &mut [S],
    most: u64,
    rounds: u64,
) -> Result<bool, TakeError>
    requires paired { length sources.old ≡ length feeds.old }
    requires going { AreGoing state.old.counts.taken feeds.old }
    ensures out { IfOk result (λ is_end. RunsOut S.tells S.left S.faults most rounds (place_of feeds.old sources.old state.old) (place_of feeds.new sources.new state.new) is_end) }
    ensures fault { (place : ℕ) → result ≡ Err (TakeError.SourceFault place) → FailsAt S.faults place sources.old sources.new }
    ensures over { result ≡ Err TakeError.NumbersSpent → RunsOver S.tells S.left S.faults most rounds (place_of feeds.old sources.old state.old) (place_of feeds.new sources.new state.new) }
{
    for _ in 0..rounds {
        if all_over(feeds) {
            return Ok(true);
        }
        match take_round(alloc, state, feeds, sources, Which::Every, most) {
            Ok(()) => {}
            Err(error) => return Err(error),
        }
    }
    Ok(all_over(feeds))
}
