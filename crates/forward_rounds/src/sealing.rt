//! What is acknowledged is kept.

ghost use Rattle.std.specs.Prelude.{◌≡◌, ◌⊎◌, ◌≤◌, ◌++◌, [], Err, OnOk};
ghost use Rattle.osq_outside.specs.Causes.{FaultHasCause};
ghost use Rattle.entry_model.specs.Legal.{Legal};
ghost use Rattle.batch_keeper.specs.declared.keeper.KeeperError.{KeeperError};

use batch_keeper::{Keeper, KeeperError};
use session_state::State;
use std::alloc::Global;

/// Seals the acknowledgements that the state gained since the last seal. They have no result lines, so none are written.
///
/// Fault where the keeper failed, which has then all of the entries or none.
pub fn seal_acks<K: Keeper>(
    alloc: Global,
    state: &mut State,
    keeper: &mut K,
) -> Result<(), KeeperError>
    requires legal { K.tells → Legal (K.kept keeper.old) → Legal (K.kept keeper.old ++ state.old.tail) }
    ensures taken { OnOk result (state.new ≡ record state.old { tail = [] }) }
    ensures kept { K.tells → OnOk result (K.kept keeper.new ≡ K.kept keeper.old ++ state.old.tail) }
    ensures whole { K.tells → result ≡ Err KeeperError.Fault → (K.kept keeper.new ≡ K.kept keeper.old) ⊎ (K.kept keeper.new ≡ K.kept keeper.old ++ state.old.tail) }
    ensures unkept { K.tells → result ≡ Err KeeperError.NoMemory → K.kept keeper.new ≡ K.kept keeper.old }
    ensures cause { FaultHasCause KeeperError.Fault (K.faults keeper.old) (K.faults keeper.new) result }
    ensures later { K.faults keeper.old ≤ K.faults keeper.new }
{
    let entries = state.take_tail(alloc)?;
    keeper.seal(alloc, &entries)
}
