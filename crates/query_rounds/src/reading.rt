//! What the sources have behind a kept list.

ghost use Rattle.std.specs.Prelude.{◌≡◌, ◌≢◌, ℕ, length, map, bytes_eq, Err, IfOk};
ghost use Rattle.entry_model.specs.Fits.{Fits, IsDistinct};
ghost use Rattle.daemon_rounds.specs.Rounding.{FailsAt};
ghost use Rattle.daemon_rounds.specs.Starting.{HasShrunk, source_names};
ghost use Rattle.query_rounds.specs.Reading.{HasRead, IsOverfull};
ghost use Rattle.query_rounds.specs.Skipping.{TellsSkipped};
ghost use Rattle.query_rounds.specs.declared.error.AskError.{AskError};

use crate::error::{AskError, unstarted, untaken};
use crate::rounds::take_rounds;
use daemon_rounds::start_sources;
use entry_model::restored::Restored;
use osq_outside::Source;
use osq_value::{Bytes, CategoryList, SourceName};
use replay_rounds::skipped_lines;
use session_state::State;
use std::alloc::Global;

/// A state that no one seals.
#[derive(Drop)]
pub(crate) struct Behind {
    pub(crate) state: State,
    /// A line for each source of which lines were skipped.
    pub(crate) skipped: Bytes,
    /// Every source was read to its end.
    pub(crate) is_end: bool,
}

/// Begins a session over these values of a kept list, starts each source where earlier sessions left it, and reads them on in rounds, until
/// each is at its end or `rounds` of them were run. No two sources have one name.
pub(crate) fn read_behind<S: Source>(
    alloc: Global,
    restored: Restored,
    names: &[SourceName],
    paths: &CategoryList,
    records: u64,
    rounds: u64,
    sources: &mut [S],
) -> Result<Behind, AskError>
    requires fits { Fits restored }
    requires paired { length sources.old ≡ length names.now }
    requires distinct { IsDistinct bytes_eq (source_names names.now) }
    ensures read { IfOk result (λ behind. HasRead S.tells S.left S.faults names.now paths.now records rounds restored sources.old sources.new behind.state behind.is_end) }
    ensures skipped { IfOk result (λ behind. TellsSkipped S.tells paths.now restored.taken names.now (map S.left sources.old) behind.is_end behind.skipped) }
    ensures fault { (place : ℕ) → result ≡ Err (AskError.SourceFault place) → FailsAt S.faults place sources.old sources.new }
    ensures shrank { (place kept found : ℕ) → result ≡ Err (AskError.SourceShrank place kept found) → HasShrunk S.tells S.left restored.taken names.now place kept found sources.old }
    ensures over { result ≡ Err AskError.NumbersSpent → IsOverfull S.tells S.left S.faults names.now paths.now records rounds restored sources.old sources.new }
    ensures itself { (result ≢ Err AskError.KeeperFault) × (result ≢ Err AskError.KeeperRefused) × ((moment : ℕ) → result ≢ Err (AskError.MomentTooLarge moment)) }
{
    let mut feeds = match start_sources(alloc, names, restored.taken.as_slice(), paths, sources) {
        Ok(feeds) => feeds,
        Err(error) => return Err(unstarted(error)),
    };
    let Ok(mut state) = State::begin(alloc, restored) else {
        return Err(AskError::NoMemory);
    };
    let feeds = feeds.as_mut_slice();
    let is_end = match take_rounds(alloc, &mut state, feeds, sources, records, rounds) {
        Ok(is_end) => is_end,
        Err(error) => return Err(untaken(error)),
    };
    let Ok(skipped) = skipped_lines(alloc, feeds) else {
        return Err(AskError::NoMemory);
    };
    Ok(Behind {
        state,
        skipped,
        is_end,
    })
}
