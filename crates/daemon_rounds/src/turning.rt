//! The turn of one source in a round.

ghost use Rattle.std.specs.Prelude.{◌≡◌, ℕ, List, false, Err, OnOk};
ghost use Rattle.std.specs.Str.{bytes_eq};
ghost use Rattle.osq_outside.specs.Causes.{FaultHasCause};
ghost use Rattle.osq_value.specs.declared.reading.Reading.{Reading};
ghost use Rattle.entry_model.specs.Next.{offset_at};
ghost use Rattle.daemon_rounds.specs.Adding.{AddsEntries};
ghost use Rattle.daemon_rounds.specs.Appending.{Exceeds, entries_of};
ghost use Rattle.daemon_rounds.specs.Turns.{Gave, HasTooMuch, HasTurn, IsGoing, StillCounts, takes_part};
ghost use Rattle.daemon_rounds.specs.declared.error.TurnError.{TurnError};

use crate::appending::append_all;
use crate::error::{RoundError, TurnError};
use osq_outside::Source;
use osq_value::SourceKind;
use publisher_core::error::StepError;
use session_state::State;
use source_feeds::Feed;
use std::alloc::Global;

/// Which sources take a step in a round.
#[derive(Clone, Copy)]
pub enum Which {
    /// All sources.
    Every,
    /// Those of recorded tables.
    Tables,
}

/// Whether a source of this kind takes a step.
fn takes_part(which: Which, kind: SourceKind) -> bool
    ensures { result ≡ takes_part which kind }
{
    match which {
        Which::Every => true,
        Which::Tables => match kind {
            SourceKind::Audit => false,
            SourceKind::Changes => false,
            SourceKind::Tables => true,
        },
    }
}

/// Takes one step of a source, of at most so many records, and appends its readings.
fn take_step<S: Source>(
    alloc: Global,
    state: &mut State,
    feed: &mut Feed,
    source: &mut S,
    most: u64,
) -> Result<(), TurnError>
    requires going { IsGoing state.old.counts.taken feed.old }
    ensures gave { OnOk result ((readings : List Reading) × Gave S.tells (S.left source.old) (S.left source.new) feed.old feed.new most readings × AddsEntries state.old (entries_of feed.old.name state.old.counts.moment readings) state.new) }
    ensures going { OnOk result (IsGoing state.new.counts.taken feed.new) }
    ensures others { (other : List ℕ) → bytes_eq feed.old.name other ≡ false → OnOk result (offset_at state.new.counts.taken other ≡ offset_at state.old.counts.taken other) }
    ensures counts { StillCounts S.tells (S.left source.old) feed.old feed.new }
    ensures spent { result ≡ Err TurnError.NumbersSpent → (readings : List Reading) × Gave S.tells (S.left source.old) (S.left source.new) feed.old feed.new most readings × Exceeds feed.old.name readings state.old state.new }
    ensures cause { FaultHasCause TurnError.SourceFault (S.faults source.old) (S.faults source.new) result }
{
    let readings = match feed.step(source, most) {
        Ok(readings) => readings,
        Err(StepError::SourceFault) => return Err(TurnError::SourceFault),
        Err(StepError::NoMemory) => return Err(TurnError::NoMemory),
        Err(StepError::SourceShrank { kept: _, found: _ }) => unreachable!(),
    };
    match append_all(alloc, state, feed.name(), readings) {
        Ok(()) => Ok(()),
        Err(RoundError::NumbersSpent) => Err(TurnError::NumbersSpent),
        Err(RoundError::NoMemory) => Err(TurnError::NoMemory),
    }
}

/// The turn of a source: where it takes part, one step of it, of at most so many records, whose readings are appended.
pub(crate) fn take_turn<S: Source>(
    alloc: Global,
    state: &mut State,
    feed: &mut Feed,
    source: &mut S,
    which: Which,
    most: u64,
) -> Result<(), TurnError>
    requires going { IsGoing state.old.counts.taken feed.old }
    ensures turn { OnOk result (HasTurn S.tells S.left S.faults which most feed.old feed.new source.old source.new state.old state.new) }
    ensures going { OnOk result (IsGoing state.new.counts.taken feed.new) }
    ensures name { OnOk result (feed.new.name ≡ feed.old.name) }
    ensures others { (other : List ℕ) → bytes_eq feed.old.name other ≡ false → OnOk result (offset_at state.new.counts.taken other ≡ offset_at state.old.counts.taken other) }
    ensures counts { StillCounts S.tells (S.left source.old) feed.old feed.new }
    ensures spent { result ≡ Err TurnError.NumbersSpent → HasTooMuch S.tells S.left S.faults which most feed.old feed.new source.old source.new state.old state.new }
    ensures cause { FaultHasCause TurnError.SourceFault (S.faults source.old) (S.faults source.new) result }
{
    if takes_part(which, feed.kind()) {
        take_step(alloc, state, feed, source, most)
    } else {
        Ok(())
    }
}
