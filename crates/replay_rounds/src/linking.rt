//! What a session forwards behind its ticks.

ghost use Rattle.std.specs.Prelude.{◌≡◌, ◌≢◌, ◌⊎◌, ◌≤◌, ◌++◌, true, false, [], map, Some, Err, IfOk, IfErr, OnOk, OnErr};
ghost use Rattle.osq_outside.specs.Causes.{FaultHasCause, Rose};
ghost use Rattle.entry_model.specs.declared.entry.Entry.TheVariants.{Acked};
ghost use Rattle.batch_keeper.specs.declared.keeper.KeeperError.{KeeperError};
ghost use Rattle.batch_frames.specs.Valid.{is_host};
ghost use Rattle.daemon_rounds.specs.Keeping.{GoesOn};
ghost use Rattle.forward_rounds.specs.Forwarding.{AreBeyond};
ghost use Rattle.replay_rounds.specs.Linking.{IsHeardOf, IsOverOf, IsPartlyOver, IsSealedBy, IsUnforwarded};
ghost use Rattle.replay_rounds.specs.Refusals.{numbers_of};
ghost use Rattle.replay_rounds.specs.declared.refused.Refused.{Refused};
ghost use Rattle.replay_rounds.specs.declared.refused.RunError.{RunError};

use crate::basis::Basis;
use crate::refused::{Refused, numbers_of, unforwarded, unsealed};
use batch_forwarder::Link;
use batch_keeper::{Keeper, KeeperError};
use forward_rounds::{acknowledge_each, forward, seal_acks};
use osq_value::{NoMemory, Sequence};
use session_state::State;
use std::alloc::Global;

/// Forwards what is sealed, where the session has a link, and answers the marks that are to be acknowledged.
pub(crate) fn forward_sealed<K: Keeper, L: Link>(
    basis: &Basis,
    state: &State,
    keeper: &mut K,
    link: &mut L,
) -> Result<Sequence<u64>, Refused>
    requires goes_on { GoesOn K.tells (K.kept keeper.old) state.now }
    requires sealed { state.now.tail ≡ [] }
    requires host { basis.now.setup.forward ≡ true → is_host basis.now.setup.host.identifier ≡ true }
    ensures heard { IfOk result (λ marks. IsHeardOf K.Keeper L.Link basis.now keeper.old marks link.old link.new) }
    ensures beyond { IfOk result (λ marks. AreBeyond state.now.counts.acked state.now.counts.batches marks) }
    ensures kept { K.tells → K.kept keeper.new ≡ K.kept keeper.old }
    ensures unlinked { basis.now.setup.forward ≡ false → link.new ≡ link.old }
    ensures still { basis.now.setup.forward ≡ false → keeper.new ≡ keeper.old }
    ensures forwards { OnErr result (basis.now.setup.forward ≡ true) }
    ensures cause { IfErr result (λ refused. IsUnforwarded (Rose (K.faults keeper.old) (K.faults keeper.new)) refused.error) }
    ensures numbers { IfErr result (λ refused. refused.numbers ≡ Some (numbers_of state.now)) }
    ensures later { (K.faults keeper.old ≤ K.faults keeper.new) × (L.faults link.old ≤ L.faults link.new) }
{
    if !basis.setup.forward {
        return Ok(Sequence::new(basis.alloc));
    }
    let host = basis.setup.host.identifier.as_str();
    match forward(basis.alloc, state, keeper, link, host) {
        Ok(marks) => Ok(marks),
        Err(error) => Err(unforwarded(error, numbers_of(state))),
    }
}

/// Acknowledges these marks, and seals that.
fn seal_marks<K: Keeper>(
    alloc: Global,
    state: &mut State,
    keeper: &mut K,
    marks: &Sequence<u64>,
) -> Result<(), KeeperError>
    requires beyond { AreBeyond state.old.counts.acked state.old.counts.batches marks.now }
    requires sealed { state.old.tail ≡ [] }
    requires goes_on { GoesOn K.tells (K.kept keeper.old) state.old }
    ensures done { OnOk result (IsSealedBy K.tells (K.kept keeper.old) (K.kept keeper.new) marks.now state.old state.new) }
    ensures whole { K.tells → result ≡ Err KeeperError.Fault → (K.kept keeper.new ≡ K.kept keeper.old) ⊎ (K.kept keeper.new ≡ K.kept keeper.old ++ map Acked marks.now) }
    ensures unkept { K.tells → result ≡ Err KeeperError.NoMemory → K.kept keeper.new ≡ K.kept keeper.old }
    ensures cause { FaultHasCause KeeperError.Fault (K.faults keeper.old) (K.faults keeper.new) result }
    ensures later { K.faults keeper.old ≤ K.faults keeper.new }
{
    match acknowledge_each(state, marks.as_slice()) {
        Ok(()) => seal_acks(alloc, state, keeper),
        Err(NoMemory) => Err(KeeperError::NoMemory),
    }
}

/// Behind the last tick: forwards what is sealed, and seals what the answers acknowledge, where that is anything.
pub(crate) fn forward_last<K: Keeper, L: Link>(
    basis: &Basis,
    state: &mut State,
    keeper: &mut K,
    link: &mut L,
) -> Result<(), Refused>
    requires goes_on { GoesOn K.tells (K.kept keeper.old) state.old }
    requires sealed { state.old.tail ≡ [] }
    requires host { basis.now.setup.forward ≡ true → is_host basis.now.setup.host.identifier ≡ true }
    ensures done { OnOk result (IsOverOf K.Keeper L.Link basis.now keeper.old keeper.new state.old state.new link.old link.new) }
    ensures kept { K.tells → OnErr result (IsPartlyOver K.Keeper L.Link basis.now keeper.old keeper.new link.old link.new) }
    ensures unkept { K.tells → IfErr result (λ refused. refused.error ≢ RunError.KeeperFault → K.kept keeper.new ≡ K.kept keeper.old) }
    ensures unlinked { basis.now.setup.forward ≡ false → link.new ≡ link.old }
    ensures still { basis.now.setup.forward ≡ false → keeper.new ≡ keeper.old }
    ensures forwards { OnErr result (basis.now.setup.forward ≡ true) }
    ensures cause { IfErr result (λ refused. IsUnforwarded (Rose (K.faults keeper.old) (K.faults keeper.new)) refused.error) }
    ensures numbers { IfErr result (λ refused. refused.numbers ≡ Some (numbers_of state.old)) }
    ensures later { (K.faults keeper.old ≤ K.faults keeper.new) × (L.faults link.old ≤ L.faults link.new) }
{
    let sealed = numbers_of(state);
    let marks = match forward_sealed(basis, &*state, keeper, link) {
        Ok(marks) => marks,
        Err(refused) => return Err(refused),
    };
    if marks.as_slice().is_empty() {
        return Ok(());
    }
    match seal_marks(basis.alloc, state, keeper, &marks) {
        Ok(()) => Ok(()),
        Err(error) => Err(unsealed(error, sealed)),
    }
}
