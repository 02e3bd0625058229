//! The readings of a source are appended.

ghost use Rattle.std.specs.Prelude.{◌<◌, ◌+◌, ◌^◌, Err, ◌≡◌, ◌∷◌, [], ℕ, All, List, false, OnOk, OnErr};
ghost use Rattle.std.specs.Str.{bytes_eq};
ghost use Rattle.entry_model.specs.Next.{offset_at};
ghost use Rattle.session_state.specs.Readings.{IsReading, event_count};
ghost use Rattle.daemon_rounds.specs.declared.error.RoundError.{RoundError};
ghost use Rattle.daemon_rounds.specs.Adding.{AddsEntries};
ghost use Rattle.daemon_rounds.specs.Appending.{AreRising, Exceeds, end_behind, entries_of};

use crate::error::RoundError;
use event_store::Steps;
use osq_value::{Reading, ReadingList, Str};
use session_state::{AppendError, State};
use std::alloc::Global;
use std::collections::VecDeque;
use std::marker::Brand;
use std::sync::ledger::{Blank, Ledger};

/// Appends a reading that ends behind the source's offset.
fn append_one<L: Ledger>(
    alloc: Global,
    state: &mut State,
    source: &Str,
    reading: Reading,
    steps: &mut Steps<L>,
) -> Result<(), RoundError>
    requires reading { IsReading reading }
    requires rising { AreRising (offset_at state.old.counts.taken source.now) (reading ∷ []) }
    ensures appended { OnOk result (AddsEntries state.old (entries_of source.now state.old.counts.moment (reading ∷ [])) state.new) }
    ensures spent { result ≡ Err RoundError.NumbersSpent → 2 ^ 62 < state.new.image.last + event_count reading }
    ensures err { OnErr result (state.new ≡ state.old) }
{
    match state.append(alloc, source, reading, steps) {
        Ok(_numbers) => Ok(()),
        Err(AppendError::NumbersSpent) => Err(RoundError::NumbersSpent),
        Err(AppendError::NoMemory) => Err(RoundError::NoMemory),
        Err(AppendError::Backwards { kept: _ }) => unreachable!(),
    }
}

/// Appends the readings of a source, one after another, with steps that nobody counts.
fn append_each<L: Ledger>(
    alloc: Global,
    state: &mut State,
    source: &Str,
    readings: ReadingList,
    blank: Blank,
) -> Result<(), RoundError>
    requires readings { All IsReading readings }
    requires rising { AreRising (offset_at state.old.counts.taken source.now) readings }
    requires name { blank.name ≡ L.name }
    requires parts { blank.parts ≡ L.parts }
    requires some { 0 < blank.parts }
    ensures appended { OnOk result (AddsEntries state.old (entries_of source.now state.old.counts.moment readings) state.new) }
    ensures offset { OnOk result (offset_at state.new.counts.taken source.now ≡ end_behind (offset_at state.old.counts.taken source.now) readings) }
    ensures spent { result ≡ Err RoundError.NumbersSpent → Exceeds source.now readings state.old state.new }
    ensures others { (other : List ℕ) → bytes_eq source.now other ≡ false → OnOk result (offset_at state.new.counts.taken other ≡ offset_at state.old.counts.taken other) }
{
    let mut steps = Steps::<L>::new(blank);
    let mut rest = VecDeque::from_vec(readings.into_vec());
    while let Some(reading) = rest.pop_front() {
        match append_one(alloc, state, source, reading, &mut steps) {
            Ok(()) => {}
            Err(error) => return Err(error),
        }
    }
    Ok(())
}

/// Appends the readings of a source, one after another. Each ends behind the one before it, and the first behind the source's offset.
/// NumbersSpent where the numbers of a reading's events would pass 2^62; the readings before it are added.
pub fn append_all(
    alloc: Global,
    state: &mut State,
    source: &Str,
    readings: ReadingList,
) -> Result<(), RoundError>
    requires readings { All IsReading readings }
    requires rising { AreRising (offset_at state.old.counts.taken source.now) readings }
    ensures appended { OnOk result (AddsEntries state.old (entries_of source.now state.old.counts.moment readings) state.new) }
    ensures offset { OnOk result (offset_at state.new.counts.taken source.now ≡ end_behind (offset_at state.old.counts.taken source.now) readings) }
    ensures spent { result ≡ Err RoundError.NumbersSpent → Exceeds source.now readings state.old state.new }
    ensures others { (other : List ℕ) → bytes_eq source.now other ≡ false → OnOk result (offset_at state.new.counts.taken other ≡ offset_at state.old.counts.taken other) }
{
    append_each::<Brand>(alloc, state, source, readings, Blank::new(1))
}
