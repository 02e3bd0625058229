//! The command `collect`: the frames of a stream are recorded in a ledger's file, and answered.

ghost use Rattle.std.specs.Prelude.{◌≡◌, ◌⊎◌, ◌<◌, Err, map, vec_len, length};
ghost use Rattle.osq_outside.specs.Causes.{Rose};
ghost use Rattle.collector_core.specs.Ledgers.{digests_of};
ghost use Rattle.collect_rounds.specs.Runs.{Runs};
ghost use Rattle.daemon_rounds.specs.Rounding.{FailsAt};
ghost use Rattle.program_words.specs.Bounds.{CollectBounds};
ghost use Rattle.osq_program.specs.Answers.{IsUsageStatus};
ghost use Rattle.osq_program.specs.Collecting.{IsCollect, IsStoppedBy, stream};
ghost use Rattle.osq_program.specs.Telling.{TellsCollect};

use crate::ending::answer_to;
use crate::outside::{Observes, Outside};
use crate::status::Status;
use crate::stop::{refuse, refuse_unread, starve};
use batch_forwarder::Link;
use batch_keeper::Keeper;
use collect_rounds::{CollectError, collect};
use collector_ledger::{OpenedLedger, open_ledger};
use osq_outside::{Clock, Files, FilesError, Sink, Source};
use osq_value::SourceName;
use program_words::CollectWords;
use replay_rounds::RunError;
use std::alloc::Global;

/// The answer to a collector that stopped. The stream is named by its path.
fn stopped(alloc: Global, sources: &[SourceName], error: CollectError) -> Status
    requires { 0 < length sources.now }
    ensures { IsStoppedBy sources.now error result }
{
    match error {
        CollectError::SourceFault => {
            answer_to(alloc, sources, RunError::SourceFault { place: 0 })
        }
        CollectError::SinkFault => Status::SinkFault,
        CollectError::NoMemory => Status::OutOfMemory,
    }
}

/// Collects the stream of the one source, from this ledger on.
fn collect_stream<S: Source, O: Sink>(
    alloc: Global,
    opened: OpenedLedger,
    sources: &mut [S],
    rounds: u64,
    ledger: &mut O,
    answers: &mut O,
) -> Result<bool, CollectError>
    requires one { length sources.old ≡ 1 }
    ensures runs { S.tells → O.tells → Runs (digests_of opened.ledger) opened.has_rest (stream (map S.left sources.old)) (stream (map S.left sources.new)) rounds
        (record { ledger = O.written ledger.old; answers = O.written answers.old }) (record { ledger = O.written ledger.new; answers = O.written answers.new }) result }
    ensures source { result ≡ Err CollectError.SourceFault → FailsAt S.faults 0 sources.old sources.new }
    ensures sinks { result ≡ Err CollectError.SinkFault → Rose (O.faults ledger.old) (O.faults ledger.new) ⊎ Rose (O.faults answers.old) (O.faults answers.new) }
{
    let source = &mut sources[0];
    collect(alloc, opened, source, rounds, ledger, answers)
}

/// Records the frames of the one source in the ledger's file and answers its lines, and tells on the status stream why it doesn't, or that
/// the rounds are spent.
pub(crate) fn run_collect<S: Source, O: Sink, F: Files, C: Clock, K: Keeper, L: Link>(
    alloc: Global,
    words: &CollectWords,
    outside: &mut Outside<S, O, F, C, K, L>,
) -> Status
    requires sources { vec_len outside.old.sources ≡ length words.now.sources }
    requires bounded { CollectBounds words.now }
    ensures usage { ¬ IsUsageStatus result }
    ensures link { outside.new.link ≡ outside.old.link }
    ensures clock { outside.new.clock ≡ outside.old.clock }
    ensures keeper { outside.new.keeper ≡ outside.old.keeper }
    ensures sources { vec_len outside.new.sources ≡ vec_len outside.old.sources }
    ensures does { IsCollect words.now (⟦<Outside<S, O, F, C, K, L> as Observes>⟧.observed outside.old outside.new) result }
    ensures told { TellsCollect words.now (⟦<Outside<S, O, F, C, K, L> as Observes>⟧.observed outside.old outside.new) result }
{
    let opened = match open_ledger(alloc, &mut outside.files, words.ledger.as_str()) {
        Ok(opened) => opened,
        Err(FilesError::Fault) => {
            return refuse_unread(alloc, &mut outside.status, &words.ledger);
        }
        Err(FilesError::NoMemory) => {
            return starve(&mut outside.status);
        }
    };
    match collect_stream(
        alloc,
        opened,
        outside.sources.as_mut_slice(),
        words.ticks,
        &mut outside.ledger,
        &mut outside.results,
    ) {
        Ok(true) => Status::Ok,
        Ok(false) => refuse(alloc, &mut outside.status, Status::TicksSpent),
        Err(error) => {
            let status = stopped(alloc, words.sources.as_slice(), error);
            refuse(alloc, &mut outside.status, status)
        }
    }
}
