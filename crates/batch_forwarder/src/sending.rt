//! The frames of sealed batches are sent.

ghost use Rattle.std.specs.Prelude.{◌≡◌, ◌⊎◌, ◌≤◌, ◌<◌, ◌++◌, ◌-◌, ◌^◌, true, length, slice_get, Some, Ok, IfOk, OnOk, OnErr};
ghost use Rattle.osq_outside.specs.Causes.{FaultHasCause, Rose};
ghost use Rattle.entry_model.specs.Legal.{Legal};
ghost use Rattle.entry_model.specs.Values.{commits};
ghost use Rattle.batch_frames.specs.Valid.{is_host};
ghost use Rattle.batch_forwarder.specs.Frames.{frame_for, frames_due};
ghost use Rattle.batch_forwarder.specs.Sending.{IsOver, SendsFront, SendsNext, next_frame};
ghost use Rattle.batch_forwarder.specs.Windows.{acked_of, after_next, sealed_of};
ghost use Rattle.batch_forwarder.specs.declared.sending.ForwardError.{ForwardError};

use crate::forwarder::{Forwarder, IN_FLIGHT};
use crate::framing::frame_for;
use crate::link::Link;
use batch_keeper::{Keeper, KeeperError};
use entry_model::entry::Batch;
use osq_value::NoMemory;
use std::alloc::Global;
use thiserror::Error;

/// Why not all frames are sent. A link that fails is no such cause.
#[derive(Clone, Copy, Debug, Error)]
pub enum ForwardError {
    /// The keeper failed.
    #[error("failed to read or write the kept list")]
    KeeperFault,
    /// Memory was wanting.
    #[error("out of memory")]
    NoMemory,
}

/// Sends the frame of the batch that has this number, and answers whether it was sent.
fn send_batch<K: Keeper, L: Link>(
    alloc: Global,
    keeper: &K,
    link: &mut L,
    host: &str,
    number: u64,
    batch: Batch,
) -> Result<bool, NoMemory>
    requires first { 1 ≤ number }
    requires at { K.tells → slice_get (commits (K.kept keeper.now)) (number - 1) ≡ Some batch }
    ensures sent { L.tells → IfOk result (SendsNext (frame_for host.now batch) (Rose (L.faults link.old) (L.faults link.new)) (L.sent link.old) (L.sent link.new)) }
    ensures err { L.tells → OnErr result (L.sent link.new ≡ L.sent link.old) }
    ensures waiting { L.tells → L.waiting link.new ≡ L.waiting link.old }
    ensures later { L.faults link.old ≤ L.faults link.new }
{
    match frame_for(alloc, host, batch)? {
        None => Ok(false),
        Some(frame) => Ok(link.send(keeper, host, number, frame.as_slice()).is_ok()),
    }
}

/// Sends the next frame, and answers whether one was sent.
fn send_next<K: Keeper, L: Link>(
    alloc: Global,
    forwarder: &mut Forwarder,
    keeper: &mut K,
    link: &mut L,
    host: &str,
) -> Result<bool, ForwardError>
    ensures forwarder { forwarder.new ≡ after_next forwarder.old }
    ensures kept { K.tells → K.kept keeper.new ≡ K.kept keeper.old }
    ensures sent { K.tells → L.tells → IfOk result (SendsNext (next_frame host.now forwarder.old (K.kept keeper.old)) (Rose (L.faults link.old) (L.faults link.new)) (L.sent link.old) (L.sent link.new)) }
    ensures err { L.tells → OnErr result (L.sent link.new ≡ L.sent link.old) }
    ensures waiting { L.tells → L.waiting link.new ≡ L.waiting link.old }
    ensures cause { FaultHasCause ForwardError.KeeperFault (K.faults keeper.old) (K.faults keeper.new) result }
    ensures later { L.faults link.old ≤ L.faults link.new }
{
    let Some(number) = forwarder.next() else {
        return Ok(false);
    };
    match keeper.fetch(alloc, number) {
        Ok(None) => Ok(false),
        Ok(Some(batch)) => match send_batch(alloc, &*keeper, link, host, number, batch) {
            Ok(is_sent) => Ok(is_sent),
            Err(NoMemory) => Err(ForwardError::NoMemory),
        },
        Err(KeeperError::Fault) => Err(ForwardError::KeeperFault),
        Err(KeeperError::NoMemory) => Err(ForwardError::NoMemory),
    }
}

/// Restarts the forwarder and sends the frames of the host's batches, from the first that isn't acknowledged on: until no number may be
/// given, the link fails, or no frame can be made of a batch. Where the kept list is legal and the link doesn't fail, all are sent that are
/// due.
///
/// At an error the frames before it were sent. KeeperFault where the keeper failed.
pub fn send_frames<K: Keeper, L: Link>(
    alloc: Global,
    forwarder: &mut Forwarder,
    keeper: &mut K,
    link: &mut L,
    host: &str,
) -> Result<(), ForwardError>
    ensures forwarder { (acked_of forwarder.new ≡ acked_of forwarder.old) × (sealed_of forwarder.new ≡ sealed_of forwarder.old) }
    ensures kept { K.tells → K.kept keeper.new ≡ K.kept keeper.old }
    ensures sent { K.tells → L.tells → IsOver (K.kept keeper.old) forwarder.old → SendsFront (frames_due host.now (K.kept keeper.old)) (L.sent link.old) (L.sent link.new) }
    ensures whole { K.tells → L.tells → IsOver (K.kept keeper.old) forwarder.old → Legal (K.kept keeper.old) → length (K.kept keeper.old) < 2 ^ 63 → is_host host.now ≡ true
        → OnOk result ((L.sent link.new ≡ L.sent link.old ++ frames_due host.now (K.kept keeper.old)) ⊎ Rose (L.faults link.old) (L.faults link.new)) }
    ensures waiting { L.tells → L.waiting link.new ≡ L.waiting link.old }
    ensures cause { FaultHasCause ForwardError.KeeperFault (K.faults keeper.old) (K.faults keeper.new) result }
    ensures later { L.faults link.old ≤ L.faults link.new }
{
    forwarder.restart();
    for _ in 0..IN_FLIGHT {
        if !send_next(alloc, forwarder, keeper, link, host)? {
            return Ok(());
        }
    }
    Ok(())
}
