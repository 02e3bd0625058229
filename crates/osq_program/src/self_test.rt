//! The command `selftest`: a session over generated lines in memory, and the numbers that it left.

ghost use Rattle.std.specs.Prelude.{◌≡◌, IfOk};
ghost use Rattle.program_words.specs.Bounds.{GenerateBounds};
ghost use Rattle.osq_program.specs.Answers.{IsUsageStatus};
ghost use Rattle.osq_program.specs.SelfTesting.{HasTested, IsSelfTest};
ghost use Rattle.osq_program.specs.Telling.{TellsAlone};

use crate::outside::{Observes, Outside};
use crate::self_session::{Ran, START, run_over, self_numbers};
use crate::status::Status;
use crate::stop::{refuse, starve};
use batch_forwarder::Link;
use batch_keeper::{Keeper, MemoryKeeper};
use entry_model::entry::EntryList;
use generated_changes::lines_of;
use kept_report::numbers_line;
use osq_outside::{Clock, FailList, Files, Sink, Source, write_all};
use osq_value::{Bytes, NoMemory};
use program_words::GenerateWords;
use std::alloc::Global;

/// The line of a self test. Over objects in memory that never fail, a session ends early only for want of memory.
fn tested(alloc: Global, words: &GenerateWords) -> Result<Bytes, NoMemory>
    requires { GenerateBounds words.now }
    ensures { IfOk result (HasTested words.now) }
{
    let lines = lines_of(alloc, words.from, words.count)?;
    let keeper = MemoryKeeper::new(EntryList::new(alloc), FailList::new(alloc), false);
    let Ran { status, keeper } = run_over(alloc, lines, words.count, START, keeper)?;
    match status {
        Status::Ok => numbers_line(alloc, self_numbers(alloc, keeper.entries())?),
        _ => Err(NoMemory),
    }
}

/// Writes the line of a self test, and tells on the status stream why it doesn't. It reads nothing.
pub(crate) fn run_self_test<S: Source, O: Sink, F: Files, C: Clock, K: Keeper, L: Link>(
    alloc: Global,
    words: &GenerateWords,
    outside: &mut Outside<S, O, F, C, K, L>,
) -> Status
    requires bounded { GenerateBounds words.now }
    ensures usage { ¬ IsUsageStatus result }
    ensures unread { outside.new ≡ record outside.old { results = outside.new.results; status = outside.new.status } }
    ensures does { IsSelfTest words.now (⟦<Outside<S, O, F, C, K, L> as Observes>⟧.observed outside.old outside.new) result }
    ensures told { TellsAlone (⟦<Outside<S, O, F, C, K, L> as Observes>⟧.observed outside.old outside.new) result }
{
    let Ok(line) = tested(alloc, words) else {
        return starve(&mut outside.status);
    };
    match write_all(&mut outside.results, line.as_slice()) {
        Ok(()) => Status::Ok,
        Err(_) => refuse(alloc, &mut outside.status, Status::SinkFault),
    }
}
