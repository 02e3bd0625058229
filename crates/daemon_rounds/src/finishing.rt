//! The end of a tick.

ghost use Rattle.std.specs.Prelude.{◌≡◌, ◌≢◌, ◌≤◌, ◌⊎◌, ◌++◌, Err, OnOk, OnErr, IfOk, if◌then◌else◌};
ghost use Rattle.osq_outside.specs.Causes.{Rose};
ghost use Rattle.session_state.specs.Kept.{Kept};
ghost use Rattle.batch_keeper.specs.Calling.{Fails, Passes};
ghost use Rattle.daemon_rounds.specs.Answering.{SpendsBatches};
ghost use Rattle.daemon_rounds.specs.Keeping.{Finishes, GoesOn, IsPartlyTold, IsWhole, Settles};
ghost use Rattle.daemon_rounds.specs.Refusals.{unsealed_by};
ghost use Rattle.daemon_rounds.specs.declared.error.FinishError.{FinishError};
ghost use Rattle.daemon_rounds.specs.Telling.{AreTellable};
ghost use Rattle.daemon_rounds.specs.declared.error.RoundError.{RoundError};

use crate::answering::answer_due;
use crate::error::{FinishError, RoundError};
use crate::sealing::{SealError, seal};
use crate::settling::settle;
use batch_keeper::Keeper;
use osq_outside::Sink;
use osq_value::NoMemory;
use pack_rules::schedule::Form;
use session_state::State;
use std::alloc::Global;

/// Answers each due query of the present tick by one batch, and then expires what the state owes.
/// Behind that no query is due and no floor is owed, so that the next tick may begin.
/// NumbersSpent where the next batch's number would pass 2^62.
pub fn answer_and_settle(alloc: Global, state: &mut State) -> Result<(), RoundError>
    ensures settled { IfOk result (λ _. Settles state.old state.new) }
    ensures spent { result ≡ Err RoundError.NumbersSpent → SpendsBatches state.old }
{
    answer_due(alloc, state)?;
    state.is_state();
    match settle(state) {
        Ok(()) => Ok(()),
        Err(NoMemory) => Err(RoundError::NoMemory),
    }
}

/// The same answer to a seal that failed.
fn unsealed(error: SealError) -> FinishError
    ensures { result ≡ unsealed_by error }
{
    match error {
        SealError::KeeperFault => FinishError::KeeperFault,
        SealError::SinkFault => FinishError::SinkFault,
        SealError::NoMemory => FinishError::NoMemory,
    }
}

/// Ends a tick whose readings are appended: answers each due query, expires what is owed, seals all that the state gained since the last seal,
/// and writes the result lines of its batches. Lines have this form before what was gained; `host` is the host's identifier. The state
/// goes on from the keeper's list, and does so afterwards. After a refusal the session ends: what the state gained isn't kept, but for a
/// fault of the keeper, which keeps all or nothing, and one of the sink, before which all was kept.
/// NumbersSpent where the next batch's number would pass 2^62; KeeperFault and SinkFault as `seal` gives them.
pub fn finish_tick<K: Keeper, O: Sink>(
    alloc: Global,
    state: &mut State,
    keeper: &mut K,
    results: &mut O,
    host: &str,
    form: Form,
) -> Result<(), FinishError>
    requires goes_on { GoesOn K.tells (K.kept keeper.old) state.old }
    requires tellable { AreTellable state.old.tail }
    ensures done { IfOk result (λ _. Finishes K.tells O.tells host.now form (K.kept keeper.old) (K.kept keeper.new) (O.written results.old) (O.written results.new) state.old state.new) }
    ensures spent { result ≡ Err FinishError.NumbersSpent → SpendsBatches state.old }
    ensures whole { K.tells → result ≡ Err FinishError.KeeperFault → IsWhole (K.kept keeper.old) (K.kept keeper.new) state.old }
    ensures partly { result ≡ Err FinishError.SinkFault → IsPartlyTold K.tells O.tells host.now form (K.kept keeper.old) (K.kept keeper.new) (O.written results.old) (O.written results.new) state.old state.new }
    ensures unkept { K.tells → (result ≡ Err FinishError.NumbersSpent) ⊎ (result ≡ Err FinishError.NoMemory) → K.kept keeper.new ≡ K.kept keeper.old }
    ensures unwritten { OnErr result (result ≢ Err FinishError.SinkFault → results.new ≡ results.old) }
    ensures keeper_cause { result ≡ Err FinishError.KeeperFault → Rose (K.faults keeper.old) (K.faults keeper.new) }
    ensures passed { K.counts → OnOk result (Passes (K.calls keeper.old) 1 (K.calls keeper.new)) }
    ensures failed { K.counts → result ≡ Err FinishError.KeeperFault → Fails (K.calls keeper.old) 0 (K.calls keeper.new) }
    ensures failed_kept { K.counts → K.tells → result ≡ Err FinishError.KeeperFault → (settled : Kept) × Settles state.old settled × (K.kept keeper.new ≡ (if (K.calls keeper.old).is_whole then K.kept keeper.old ++ settled.tail else K.kept keeper.old)) }
    ensures sink_cause { result ≡ Err FinishError.SinkFault → Rose (O.faults results.old) (O.faults results.new) }
    ensures later { (K.faults keeper.old ≤ K.faults keeper.new) × (O.faults results.old ≤ O.faults results.new) }
{
    match answer_and_settle(alloc, state) {
        Ok(()) => {}
        Err(RoundError::NumbersSpent) => return Err(FinishError::NumbersSpent),
        Err(RoundError::NoMemory) => return Err(FinishError::NoMemory),
    }
    match seal(alloc, state, keeper, results, host, form) {
        Ok(()) => Ok(()),
        Err(error) => Err(unsealed(error)),
    }
}
