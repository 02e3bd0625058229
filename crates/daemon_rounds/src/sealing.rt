//! What was added since the last seal is kept, and its batches are told.

ghost use Rattle.std.specs.Prelude.{◌≡◌, ◌≢◌, ◌≤◌, ◌⊎◌, ◌++◌, ℕ, List, [], take, Err, OnOk, OnErr, if◌then◌else◌};
ghost use Rattle.entry_model.specs.Legal.{Legal};
ghost use Rattle.osq_outside.specs.Causes.{Rose};
ghost use Rattle.batch_keeper.specs.Calling.{Fails, Passes};
ghost use Rattle.daemon_rounds.specs.Telling.{AreTellable, AreLinesOf};
ghost use Rattle.daemon_rounds.specs.declared.sealing.SealError.{SealError};

use crate::telling::lines_of_entries;
use batch_keeper::{Keeper, KeeperError};
use osq_outside::{Sink, write_all};
use osq_value::NoMemory;
use pack_rules::schedule::Form;
use session_state::State;
use std::alloc::Global;
use thiserror::Error;

/// Why what was added is not kept and told.
#[derive(Clone, Copy, Debug, Error)]
pub enum SealError {
    /// The keeper failed: it has all of the entries, or none.
    #[error("failed to read or write the kept list")]
    KeeperFault,
    /// The entries are kept, and a front part of their lines was written.
    #[error("failed to write the result lines")]
    SinkFault,
    /// Memory was wanting.
    #[error("out of memory")]
    NoMemory,
}

/// Seals the entries that the state gained since the last seal, and then writes the result lines of their batches. Before these entries
/// lines have this form; `host` is the host's identifier. All lines are made before the seal, so that want of memory leaves the kept list
/// and the results as they were.
///
/// KeeperFault where the keeper failed, which has then all of the entries or none; SinkFault where the entries are kept and the sink
/// failed behind a front part of the lines.
pub fn seal<K: Keeper, O: Sink>(
    alloc: Global,
    state: &mut State,
    keeper: &mut K,
    results: &mut O,
    host: &str,
    form: Form,
) -> Result<(), SealError>
    requires legal { K.tells → Legal (K.kept keeper.old) → Legal (K.kept keeper.old ++ state.old.tail) }
    requires tellable { AreTellable state.old.tail }
    ensures taken { OnOk result (state.new ≡ record state.old { tail = [] }) }
    ensures kept { K.tells → OnOk result (K.kept keeper.new ≡ K.kept keeper.old ++ state.old.tail) }
    ensures told { O.tells → OnOk result ((lines : List ℕ) × AreLinesOf host.now form state.old.tail lines × (O.written results.new ≡ O.written results.old ++ lines)) }
    ensures whole { K.tells → result ≡ Err SealError.KeeperFault → (K.kept keeper.new ≡ K.kept keeper.old) ⊎ (K.kept keeper.new ≡ K.kept keeper.old ++ state.old.tail) }
    ensures sealed { K.tells → result ≡ Err SealError.SinkFault → K.kept keeper.new ≡ K.kept keeper.old ++ state.old.tail }
    ensures drained { result ≡ Err SealError.SinkFault → state.new ≡ record state.old { tail = [] } }
    ensures partly { O.tells → result ≡ Err SealError.SinkFault → (lines : List ℕ) × (count : ℕ) × AreLinesOf host.now form state.old.tail lines × (O.written results.new ≡ O.written results.old ++ take count lines) }
    ensures unkept { K.tells → result ≡ Err SealError.NoMemory → K.kept keeper.new ≡ K.kept keeper.old }
    ensures unwritten { OnErr result (result ≢ Err SealError.SinkFault → results.new ≡ results.old) }
    ensures keeper_cause { result ≡ Err SealError.KeeperFault → Rose (K.faults keeper.old) (K.faults keeper.new) }
    ensures passed { K.counts → OnOk result (Passes (K.calls keeper.old) 1 (K.calls keeper.new)) }
    ensures failed { K.counts → result ≡ Err SealError.KeeperFault → Fails (K.calls keeper.old) 0 (K.calls keeper.new) }
    ensures failed_kept { K.counts → K.tells → result ≡ Err SealError.KeeperFault → K.kept keeper.new ≡ (if (K.calls keeper.old).is_whole then K.kept keeper.old ++ state.old.tail else K.kept keeper.old) }
    ensures sink_cause { result ≡ Err SealError.SinkFault → Rose (O.faults results.old) (O.faults results.new) }
    ensures later { (K.faults keeper.old ≤ K.faults keeper.new) × (O.faults results.old ≤ O.faults results.new) }
{
    let Ok(entries) = state.take_tail(alloc) else {
        return Err(SealError::NoMemory);
    };
    let Ok(lines) = lines_of_entries(alloc, host, form, entries.as_slice()) else {
        return Err(SealError::NoMemory);
    };
    match keeper.seal(alloc, &entries) {
        Ok(()) => {}
        Err(KeeperError::Fault) => return Err(SealError::KeeperFault),
        Err(KeeperError::NoMemory) => return Err(SealError::NoMemory),
    }
    match write_all(results, lines.as_slice()) {
        Ok(()) => Ok(()),
        Err(_) => Err(SealError::SinkFault),
    }
}
