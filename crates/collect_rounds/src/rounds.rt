//! Rounds over a stream of frames.

ghost use Rattle.std.specs.Prelude.{◌≡◌, ◌≢◌, ◌⊎◌, ◌≤◌, ℕ, Bool, List, ◌++◌, length, Err, IfOk, vec_len};
ghost use Rattle.osq_outside.specs.Causes.{FaultHasCause, Rose};
ghost use Rattle.collector_core.specs.Ledgers.{digests_of};
ghost use Rattle.collector_core.specs.Received.{HostDigests};
ghost use Rattle.collect_rounds.specs.Rounds.{IsAt, TakesNext, TakesRound};
ghost use Rattle.record_lines.specs.Limits.{PIECE_BYTES};
ghost use Rattle.collect_rounds.specs.Runs.{Runs, Written};
ghost use Rattle.collect_rounds.specs.declared.error.CollectError.{CollectError};

use crate::collector::Collector;
use crate::error::CollectError;
use collector_ledger::OpenedLedger;
use osq_outside::{Sink, Source, write_all};
use osq_value::NoMemory;
use record_lines::{PIECE_BYTES, STEP_BYTES};
use std::alloc::Global;

/// Room for a piece.
fn room(alloc: Global) -> Result<Vec<u8>, NoMemory>
    ensures { IfOk result (λ room. vec_len room ≡ PIECE_BYTES) }
{
    Ok(vec![in alloc; 0u8; PIECE_BYTES]?)
}

/// Takes the next piece of the stream: what its lines add to the ledger's file is written whole before what is answered to them.
fn take_piece<O: Sink>(
    collector: &mut Collector,
    piece: &[u8],
    ledger: &mut O,
    answers: &mut O,
) -> Result<(), CollectError>
    ensures next { O.tells → (recorded : HostDigests) → (has_rest : Bool) → (given : List ℕ) → (before : Written)
        → IsAt recorded has_rest given before (record { ledger = O.written ledger.old; answers = O.written answers.old }) collector.old
        → TakesNext recorded has_rest (given ++ piece.now) before (record { ledger = O.written ledger.new; answers = O.written answers.new }) collector.new result }
    ensures source { result ≢ Err CollectError.SourceFault }
    ensures sinks { result ≡ Err CollectError.SinkFault → Rose (O.faults ledger.old) (O.faults ledger.new) ⊎ Rose (O.faults answers.old) (O.faults answers.new) }
    ensures later { (O.faults ledger.old ≤ O.faults ledger.new) × (O.faults answers.old ≤ O.faults answers.new) }
{
    collector.take_piece(piece)?;
    write_all(ledger, collector.added.as_slice())?;
    Ok(write_all(answers, collector.answers.as_slice())?)
}

/// Reads on until the round has its bytes, and answers whether the stream is at its end.
fn take_round<S: Source, O: Sink>(
    collector: &mut Collector,
    room: &mut [u8],
    source: &mut S,
    ledger: &mut O,
    answers: &mut O,
) -> Result<bool, CollectError>
    requires room { length room.old ≡ PIECE_BYTES }
    ensures round { S.tells → O.tells → (recorded : HostDigests) → (has_rest : Bool) → (given : List ℕ) → (before : Written)
        → IsAt recorded has_rest given before (record { ledger = O.written ledger.old; answers = O.written answers.old }) collector.old
        → TakesRound recorded has_rest given (S.left source.old) (S.left source.new) before (record { ledger = O.written ledger.new; answers = O.written answers.new }) collector.new result }
    ensures source { FaultHasCause CollectError.SourceFault (S.faults source.old) (S.faults source.new) result }
    ensures sinks { result ≡ Err CollectError.SinkFault → Rose (O.faults ledger.old) (O.faults ledger.new) ⊎ Rose (O.faults answers.old) (O.faults answers.new) }
    ensures later { (O.faults ledger.old ≤ O.faults ledger.new) × (O.faults answers.old ≤ O.faults answers.new) }
{
    let mut read = 0u64;
    while read < STEP_BYTES {
        let count = source.read(room)?;
        if count == 0 {
            return Ok(true);
        }
        read += count as u64;
        let (piece, _) = room.split_at(count);
        take_piece(collector, piece, ledger, answers)?;
    }
    Ok(false)
}

/// Takes the lines of a stream of frames, from the ledger of a file on. A frame that is recorded now adds its line to that file, and each
/// line has one answer; what a piece of the stream adds to the file is written whole before what is answered to it. It ends with the
/// stream, or after so many rounds, each of at least 16777216 bytes, and answers whether the stream is at its end. What stands behind the
/// last line feed is no line.
pub fn collect<S: Source, O: Sink>(
    alloc: Global,
    opened: OpenedLedger,
    source: &mut S,
    rounds: u64,
    ledger: &mut O,
    answers: &mut O,
) -> Result<bool, CollectError>
    ensures runs { S.tells → O.tells → Runs (digests_of opened.ledger) opened.has_rest (S.left source.old) (S.left source.new) rounds
        (record { ledger = O.written ledger.old; answers = O.written answers.old }) (record { ledger = O.written ledger.new; answers = O.written answers.new }) result }
    ensures source { FaultHasCause CollectError.SourceFault (S.faults source.old) (S.faults source.new) result }
    ensures sinks { result ≡ Err CollectError.SinkFault → Rose (O.faults ledger.old) (O.faults ledger.new) ⊎ Rose (O.faults answers.old) (O.faults answers.new) }
{
    let mut room = room(alloc)?;
    let mut collector = Collector::new(alloc, opened);
    for _ in 0..rounds {
        if take_round(&mut collector, room.as_mut_slice(), source, ledger, answers)? {
            return Ok(true);
        }
    }
    Ok(false)
}
