//! A session forwards what it has sealed.

ghost use Rattle.std.specs.Prelude.{◌≡◌, ◌≤◌, true, [], IfOk};
ghost use Rattle.osq_outside.specs.Causes.{FaultHasCause};
ghost use Rattle.entry_model.specs.Legal.{Legal};
ghost use Rattle.batch_frames.specs.Valid.{is_host};
ghost use Rattle.batch_forwarder.specs.Frames.{frames_due};
ghost use Rattle.batch_forwarder.specs.Sending.{SendsFront};
ghost use Rattle.batch_forwarder.specs.declared.sending.ForwardError.{ForwardError};
ghost use Rattle.daemon_rounds.specs.Keeping.{GoesOn};
ghost use Rattle.forward_rounds.specs.Forwarding.{AreBeyond, Forwarded, view_of};

use batch_forwarder::{ForwardError, Forwarder, Link, poll_marks, send_frames};
use batch_keeper::Keeper;
use osq_value::{NoMemory, Sequence};
use session_state::State;
use std::alloc::Global;

/// Behind a seal: sends the frames of the first 64 batches that aren't acknowledged, until the link fails, then polls at most 1000 answers, and answers
/// the marks of this host among them that are above what is acknowledged and no more than are sealed, each above the one before. The caller adds an
/// acknowledgement for each; the state and the kept list stay as they are.
///
/// A link that fails is no refusal. KeeperFault where the keeper failed; at a refusal a front part of the frames was sent.
pub fn forward<K: Keeper, L: Link>(
    alloc: Global,
    state: &State,
    keeper: &mut K,
    link: &mut L,
    host: &str,
) -> Result<Sequence<u64>, ForwardError>
    requires goes_on { GoesOn K.tells (K.kept keeper.old) state.now }
    requires sealed { state.now.tail ≡ [] }
    requires host { is_host host.now ≡ true }
    ensures done { IfOk result (λ marks. Forwarded (K.tells × Legal (K.kept keeper.old)) L.tells host.now (K.kept keeper.old) state.now marks (view_of L.Link link.old) (view_of L.Link link.new)) }
    ensures beyond { IfOk result (λ marks. AreBeyond state.now.counts.acked state.now.counts.batches marks) }
    ensures kept { K.tells → K.kept keeper.new ≡ K.kept keeper.old }
    ensures sent { K.tells → Legal (K.kept keeper.old) → L.tells → SendsFront (frames_due host.now (K.kept keeper.old)) (L.sent link.old) (L.sent link.new) }
    ensures cause { FaultHasCause ForwardError.KeeperFault (K.faults keeper.old) (K.faults keeper.new) result }
    ensures later { K.faults keeper.old ≤ K.faults keeper.new }
    ensures link_later { L.faults link.old ≤ L.faults link.new }
{
    state.is_state();
    let mut forwarder = Forwarder::new(state.acknowledged(), state.batch_count());
    send_frames(alloc, &mut forwarder, keeper, link, host)?;
    let mut marks = Sequence::new(alloc);
    match poll_marks(alloc, &mut forwarder, link, host, &mut marks) {
        Ok(()) => Ok(marks),
        Err(NoMemory) => Err(ForwardError::NoMemory),
    }
}
