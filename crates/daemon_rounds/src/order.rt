//! In which order the sources of a tick take their steps, and due queries are answered.

ghost use Rattle.std.specs.Prelude.{◌≡◌, length};
ghost use Rattle.session_model.specs.Orders.{in_turn};
ghost use Rattle.daemon_rounds.specs.Orders.{EndsRound};
ghost use Rattle.daemon_rounds.specs.Rounding.{AreGoing};

use crate::error::TakeError;
use crate::rounding::take_round;
use crate::turning::Which;
use osq_outside::Source;
use session_state::State;
use source_feeds::Feed;
use std::alloc::Global;

/// How a round of all sources is taken in a tick: each takes one step, and its readings are appended. Due queries may be answered beside them.
pub trait TakesRound<S: Source> {
    ghost use Rattle.std.specs.Prelude.{◌≡◌, ℕ, length, Err, OnOk};
    ghost use Rattle.session_model.specs.Orders.{Order};
    ghost use Rattle.daemon_rounds.specs.Orders.{RoundsIn, SpendsIn};
    ghost use Rattle.daemon_rounds.specs.Rounding.{AllCount, AreGoing, FailsAt};
    ghost use Rattle.daemon_rounds.specs.declared.error.TakeError.{TakeError};

    /// In which order what is added comes.
    ghost order: { Order };

    /// What is asked of the value itself.
    ghost takes: { Self → Type 0 };

    /// A round of the sources: each takes one step, of at most so many records. Each feed goes on from the state's offset of its source, and does so
    /// afterwards. After a refusal the session ends.
    /// SourceFault with the place of a source that failed; NumbersSpent where the next event's or batch's number would pass 2^62.
    fn round(
        &self,
        alloc: Global,
        state: &mut State,
        feeds: &mut [Feed],
        sources: &mut [S],
        most: u64,
    ) -> Result<(), TakeError>
        requires takes { Self.takes self.now }
        requires paired { length sources.old ≡ length feeds.old }
        requires going { AreGoing state.old.counts.taken feeds.old }
        ensures round { OnOk result (RoundsIn Self.order S.tells S.left S.faults most feeds.old feeds.new sources.old sources.new state.old state.new) }
        ensures going { OnOk result (AreGoing state.new.counts.taken feeds.new) }
        ensures counts { AllCount S.tells S.left feeds.old feeds.new sources.old }
        ensures fault { (place : ℕ) → result ≡ Err (TakeError.SourceFault place) → FailsAt S.faults place sources.old sources.new }
        ensures spent { result ≡ Err TakeError.NumbersSpent → SpendsIn Self.order S.tells S.left S.faults most feeds.old feeds.new sources.old sources.new state.old state.new };
}

/// A round of all sources, one after another, in their order.
/// SourceFault with the place of the source that failed; NumbersSpent where the next event's number would pass 2^62.
pub fn round_in_turn<S: Source>(
    alloc: Global,
    state: &mut State,
    feeds: &mut [Feed],
    sources: &mut [S],
    most: u64,
) -> Result<(), TakeError>
    requires paired { length sources.old ≡ length feeds.old }
    requires going { AreGoing state.old.counts.taken feeds.old }
    ensures { EndsRound in_turn S.tells S.left S.faults most feeds.old feeds.new sources.old sources.new state.old state.new result }
{
    take_round(alloc, state, feeds, sources, Which::Every, most)
}

/// Rounds that this call takes, one source after another; due queries are answered behind them. It is one of `round_in_turn`.
#[derive(Drop)]
pub struct InTurn<F> {
    pub call: F,
}

impl<
    S: Source,
    F: Fn(Global, &mut State, &mut [Feed], &mut [S], u64) -> Result<(), TakeError>,
> TakesRound<S> for InTurn<F> {
    ghost use Rattle.daemon_rounds.specs.Orders.{AreRounds};

    ghost order = { in_turn };

    ghost takes = { λ rounds. AreRounds in_turn S.tells S.left S.faults (F.pre rounds.call) (F.post rounds.call) };

    fn round(
        &self,
        alloc: Global,
        state: &mut State,
        feeds: &mut [Feed],
        sources: &mut [S],
        most: u64,
    ) -> Result<(), TakeError> {
        (self.call)(alloc, state, feeds, sources, most)
    }
}

/// Rounds that this call takes, at once, with workers who answer what is due. It is one made where the handle of the threads is.
#[derive(Drop)]
pub struct AtOnce<F> {
    pub call: F,
}

impl<
    S: Source,
    F: Fn(Global, &mut State, &mut [Feed], &mut [S], u64) -> Result<(), TakeError>,
> TakesRound<S> for AtOnce<F> {
    ghost use Rattle.session_model.specs.Orders.{at_once};
    ghost use Rattle.daemon_rounds.specs.Orders.{AreRounds};

    ghost order = { at_once };

    ghost takes = { λ rounds. AreRounds at_once S.tells S.left S.faults (F.pre rounds.call) (F.post rounds.call) };

    fn round(
        &self,
        alloc: Global,
        state: &mut State,
        feeds: &mut [Feed],
        sources: &mut [S],
        most: u64,
    ) -> Result<(), TakeError> {
        (self.call)(alloc, state, feeds, sources, most)
    }
}
