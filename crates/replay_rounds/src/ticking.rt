//! A whole tick.

ghost use Rattle.std.specs.Prelude.{◌≡◌, ◌≢◌, ◌≤◌, ◌+◌, ℕ, length, [], Some, Err, IfOk, IfErr, OnOk, OnErr, if◌then◌else◌};
ghost use Rattle.osq_value.specs.declared.moment.TheConstants.{LAST_MOMENT};
ghost use Rattle.osq_config.specs.Bounds.{IsBounded};
ghost use Rattle.batch_keeper.specs.Calling.{Fails, Passes};
ghost use Rattle.osq_outside.specs.Causes.{Rose};
ghost use Rattle.daemon_rounds.specs.Keeping.{GoesOn};
ghost use Rattle.daemon_rounds.specs.Rounding.{AllCount, FailsAt};
ghost use Rattle.replay_rounds.specs.OneTick.{ticks_of};
ghost use Rattle.replay_rounds.specs.Refusals.{tick_numbers};
ghost use Rattle.replay_rounds.specs.Standing.{IsReady};
ghost use Rattle.forward_rounds.specs.Forwarding.{AreBeyond};
ghost use Rattle.replay_rounds.specs.Ticked.{IsNextTickOf, IsPartlyNextOf, IsPartlyToldOf, IsSealedNextOf, IsSealedTickOf, IsTickOf, IsWholeNextOf, IsWholeTickOf, SpendsNextOf, SpendsTickOf};
ghost use Rattle.replay_rounds.specs.declared.refused.Refused.{Refused};
ghost use Rattle.replay_rounds.specs.declared.refused.RunError.{RunError};

use crate::basis::Basis;
use crate::refused::{Numbers, Refused, RunError, unfilled, unfinished};
use batch_keeper::Keeper;
use daemon_rounds::{TakesRound, fill_tick, finish_tick};
use forward_rounds::acknowledge_each;
use osq_outside::{Sink, Source};
use osq_value::{NoMemory, Sequence};
use session_state::State;
use source_feeds::Feed;
use std::alloc::Global;

/// What a tick begins with.
#[derive(Clone, Copy)]
pub struct Tick {
    /// Its moment.
    pub moment: u64,
    /// When the session was configured last.
    pub configured_at: u64,
    /// The numbers of the keeper's list.
    pub sealed: Numbers,
}

/// A whole tick: it begins at its moment, the session is configured again where discovery is asked again, each source takes one step and each due
/// query is answered, in this order, what is owed expires, and what the state gained is sealed and then told. It answers when the session was configured last.
///
/// SourceFault with the place of the source that failed; NumbersSpent where a number would pass 2^62; KeeperFault and SinkFault where the
/// keeper or a sink failed.
pub fn take_tick<T: TakesRound<S>, S: Source, K: Keeper, O: Sink>(
    order: &T,
    basis: &Basis,
    state: &mut State,
    feeds: &mut [Feed],
    sources: &mut [S],
    keeper: &mut K,
    results: &mut O,
    tick: Tick,
) -> Result<u64, Refused>
    requires takes { T.takes order.now }
    requires bounded { IsBounded basis.now.configured.config }
    requires later { state.old.counts.moment ≤ tick.moment }
    requires calendar { tick.moment ≤ LAST_MOMENT }
    requires paired { length sources.old ≡ length feeds.old }
    requires ready { IsReady feeds.old tick.configured_at state.old }
    requires goes_on { GoesOn K.tells (K.kept keeper.old) state.old }
    ensures done { IfOk result (λ last. IsTickOf T.order K.Keeper O.Sink S.Source basis.now tick last keeper.old keeper.new results.old results.new feeds.old feeds.new sources.old sources.new state.old state.new) }
    ensures ready { IfOk result (λ last. IsReady feeds.new last state.new) }
    ensures goes_on { IfOk result (λ last. GoesOn K.tells (K.kept keeper.new) state.new) }
    ensures kept { K.tells → OnErr result (IsWholeTickOf T.order K.Keeper S.Source basis.now tick keeper.old keeper.new feeds.old feeds.new sources.old sources.new state.old) }
    ensures sealed { (refused : Refused) → result ≡ Err refused → refused.error ≡ RunError.SinkFault → IsSealedTickOf T.order K.Keeper S.Source basis.now tick keeper.old keeper.new feeds.old feeds.new sources.old sources.new state.old state.new }
    ensures partly { O.tells → (refused : Refused) → result ≡ Err refused → refused.error ≡ RunError.SinkFault → IsPartlyToldOf T.order K.Keeper O.Sink S.Source basis.now tick keeper.old keeper.new results.old results.new feeds.old feeds.new sources.old sources.new state.old }
    ensures numbers { IfErr result (λ refused. refused.numbers ≡ Some (tick_numbers refused.error tick.sealed state.new)) }
    ensures counts { AllCount S.tells S.left feeds.old feeds.new sources.old }
    ensures unwritten { IfErr result (λ refused. refused.error ≢ RunError.SinkFault → results.new ≡ results.old) }
    ensures fault { (refused : Refused) (place : ℕ) → result ≡ Err refused → refused.error ≡ RunError.SourceFault place → FailsAt S.faults place sources.old sources.new }
    ensures opened { (refused : Refused) → result ≡ Err refused → (refused.error ≢ RunError.KeeperRefused) × ((moment : ℕ) → refused.error ≢ RunError.MomentTooLarge moment) × ((place kept found : ℕ) → refused.error ≢ RunError.SourceShrank place kept found) }
    ensures spent { (refused : Refused) → result ≡ Err refused → refused.error ≡ RunError.NumbersSpent → SpendsTickOf T.order S.Source basis.now tick feeds.old feeds.new sources.old sources.new state.old state.new }
    ensures unkept { K.tells → (refused : Refused) → result ≡ Err refused → refused.error ≢ RunError.KeeperFault → refused.error ≢ RunError.SinkFault → K.kept keeper.new ≡ K.kept keeper.old }
    ensures keeper_cause { (refused : Refused) → result ≡ Err refused → refused.error ≡ RunError.KeeperFault → Rose (K.faults keeper.old) (K.faults keeper.new) }
    ensures passed { K.counts → OnOk result (Passes (K.calls keeper.old) 1 (K.calls keeper.new)) }
    ensures failed { K.counts → (refused : Refused) → result ≡ Err refused → refused.error ≡ RunError.KeeperFault → Fails (K.calls keeper.old) 0 (K.calls keeper.new) }
    ensures failed_kept { K.counts → K.tells → (refused : Refused) → result ≡ Err refused → refused.error ≡ RunError.KeeperFault → ticks_of (K.kept keeper.new) ≡ ticks_of (K.kept keeper.old) + (if (K.calls keeper.old).is_whole then ticks_of state.old.tail + 1 else 0) }
    ensures sink_cause { (refused : Refused) → result ≡ Err refused → refused.error ≡ RunError.SinkFault → Rose (O.faults results.old) (O.faults results.new) }
    ensures later { (K.faults keeper.old ≤ K.faults keeper.new) × (O.faults results.old ≤ O.faults results.new) }
{
    let form = state.form();
    let last = match fill_tick(
        basis.alloc,
        order,
        &basis.setup,
        &basis.configured,
        state,
        feeds,
        sources,
        tick.configured_at,
        tick.moment,
    ) {
        Ok(last) => last,
        Err(error) => return Err(unfilled(error, tick.sealed)),
    };
    let host = basis.setup.host.identifier.as_str();
    match finish_tick(basis.alloc, state, keeper, results, host, form) {
        Ok(()) => Ok(last),
        Err(error) => Err(unfinished(error, state, tick.sealed)),
    }
}

/// A further tick: these marks, which the answers behind the tick before it gave, are acknowledged, and then it is taken. All of that is sealed at once.
pub(crate) fn take_next<T: TakesRound<S>, S: Source, K: Keeper, O: Sink>(
    order: &T,
    basis: &Basis,
    state: &mut State,
    feeds: &mut [Feed],
    sources: &mut [S],
    keeper: &mut K,
    results: &mut O,
    marks: &Sequence<u64>,
    tick: Tick,
) -> Result<u64, Refused>
    requires takes { T.takes order.now }
    requires bounded { IsBounded basis.now.configured.config }
    requires beyond { AreBeyond state.old.counts.acked state.old.counts.batches marks.now }
    requires sealed { state.old.tail ≡ [] }
    requires later { state.old.counts.moment ≤ tick.moment }
    requires calendar { tick.moment ≤ LAST_MOMENT }
    requires paired { length sources.old ≡ length feeds.old }
    requires ready { IsReady feeds.old tick.configured_at state.old }
    requires goes_on { GoesOn K.tells (K.kept keeper.old) state.old }
    ensures done { IfOk result (λ last. IsNextTickOf T.order K.Keeper O.Sink S.Source basis.now tick marks.now last keeper.old keeper.new results.old results.new feeds.old feeds.new sources.old sources.new state.old state.new) }
    ensures ready { IfOk result (λ last. IsReady feeds.new last state.new) }
    ensures goes_on { IfOk result (λ last. GoesOn K.tells (K.kept keeper.new) state.new) }
    ensures kept { K.tells → OnErr result (IsWholeNextOf T.order K.Keeper S.Source basis.now tick marks.now keeper.old keeper.new feeds.old feeds.new sources.old sources.new state.old) }
    ensures sealed { (refused : Refused) → result ≡ Err refused → refused.error ≡ RunError.SinkFault → IsSealedNextOf T.order K.Keeper S.Source basis.now tick marks.now keeper.old keeper.new feeds.old feeds.new sources.old sources.new state.old state.new }
    ensures partly { O.tells → (refused : Refused) → result ≡ Err refused → refused.error ≡ RunError.SinkFault → IsPartlyNextOf T.order K.Keeper O.Sink S.Source basis.now tick marks.now keeper.old keeper.new results.old results.new feeds.old feeds.new sources.old sources.new state.old }
    ensures numbers { IfErr result (λ refused. refused.numbers ≡ Some (tick_numbers refused.error tick.sealed state.new)) }
    ensures counts { AllCount S.tells S.left feeds.old feeds.new sources.old }
    ensures unwritten { IfErr result (λ refused. refused.error ≢ RunError.SinkFault → results.new ≡ results.old) }
    ensures fault { (refused : Refused) (place : ℕ) → result ≡ Err refused → refused.error ≡ RunError.SourceFault place → FailsAt S.faults place sources.old sources.new }
    ensures opened { (refused : Refused) → result ≡ Err refused → (refused.error ≢ RunError.KeeperRefused) × ((moment : ℕ) → refused.error ≢ RunError.MomentTooLarge moment) × ((place kept found : ℕ) → refused.error ≢ RunError.SourceShrank place kept found) }
    ensures spent { (refused : Refused) → result ≡ Err refused → refused.error ≡ RunError.NumbersSpent → SpendsNextOf T.order S.Source basis.now tick marks.now feeds.old feeds.new sources.old sources.new state.old state.new }
    ensures unkept { K.tells → (refused : Refused) → result ≡ Err refused → refused.error ≢ RunError.KeeperFault → refused.error ≢ RunError.SinkFault → K.kept keeper.new ≡ K.kept keeper.old }
    ensures keeper_cause { (refused : Refused) → result ≡ Err refused → refused.error ≡ RunError.KeeperFault → Rose (K.faults keeper.old) (K.faults keeper.new) }
    ensures passed { K.counts → OnOk result (Passes (K.calls keeper.old) 1 (K.calls keeper.new)) }
    ensures failed { K.counts → (refused : Refused) → result ≡ Err refused → refused.error ≡ RunError.KeeperFault → Fails (K.calls keeper.old) 0 (K.calls keeper.new) }
    ensures failed_kept { K.counts → K.tells → (refused : Refused) → result ≡ Err refused → refused.error ≡ RunError.KeeperFault → ticks_of (K.kept keeper.new) ≡ ticks_of (K.kept keeper.old) + (if (K.calls keeper.old).is_whole then 1 else 0) }
    ensures sink_cause { (refused : Refused) → result ≡ Err refused → refused.error ≡ RunError.SinkFault → Rose (O.faults results.old) (O.faults results.new) }
    ensures later { (K.faults keeper.old ≤ K.faults keeper.new) × (O.faults results.old ≤ O.faults results.new) }
{
    match acknowledge_each(state, marks.as_slice()) {
        Ok(()) => take_tick(order, basis, state, feeds, sources, keeper, results, tick),
        Err(NoMemory) => Err(Refused {
            error: RunError::NoMemory,
            numbers: Some(tick.sealed),
        }),
    }
}
