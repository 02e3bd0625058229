//! The command `generate`: change lines for a load that everybody can make again.

ghost use Rattle.std.specs.Prelude.{◌≡◌};
ghost use Rattle.osq_program.specs.Answers.{IsUsageStatus};
ghost use Rattle.osq_program.specs.Generating.{IsGenerate};
ghost use Rattle.osq_program.specs.Telling.{TellsAlone};

use crate::outside::{Observes, Outside};
use crate::status::Status;
use crate::stop::{refuse, starve};
use batch_forwarder::Link;
use batch_keeper::Keeper;
use generated_changes::{WriteError, write_lines};
use osq_outside::{Clock, Files, Sink, Source};
use program_words::GenerateWords;
use std::alloc::Global;

/// Writes the lines that the words ask for, and tells on the status stream why it doesn't. It reads nothing.
pub(crate) fn run_generate<S: Source, O: Sink, F: Files, C: Clock, K: Keeper, L: Link>(
    alloc: Global,
    words: &GenerateWords,
    outside: &mut Outside<S, O, F, C, K, L>,
) -> Status
    ensures usage { ¬ IsUsageStatus result }
    ensures unread { outside.new ≡ record outside.old { results = outside.new.results; status = outside.new.status } }
    ensures does { IsGenerate words.now (⟦<Outside<S, O, F, C, K, L> as Observes>⟧.observed outside.old outside.new) result }
    ensures told { TellsAlone (⟦<Outside<S, O, F, C, K, L> as Observes>⟧.observed outside.old outside.new) result }
{
    match write_lines(alloc, words.from, words.count, &mut outside.results) {
        Ok(()) => Status::Ok,
        Err(WriteError::SinkFault) => refuse(alloc, &mut outside.status, Status::SinkFault),
        Err(WriteError::NoMemory) => starve(&mut outside.status),
    }
}
