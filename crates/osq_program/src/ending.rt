//! How a session ends, and what is told of it.

ghost use Rattle.std.specs.Prelude.{◌≡◌, ◌≤◌, ◌<◌, ◌⊎◌, ◌++◌, ℕ, true, false, length, IfOk};
ghost use Rattle.osq_outside.specs.Causes.{Rose};
ghost use Rattle.osq_program.specs.Answers.{no_causes, IsCaused, IsDoneStatus, IsSpentStatus, IsUsageStatus, IsRefusal};
ghost use Rattle.osq_program.specs.Ending.{IsAnswerTo, IsNamedAt, ended_by};
ghost use Rattle.osq_program.specs.Report.{final_line, refusal_line};

use crate::report::final_line;
use crate::status::Status;
use crate::stop::{starve, stop};
use osq_outside::{Sink, write_all};
use osq_value::{Copied, NoMemory, SourceName, Str};
use query_rounds::AskError;
use replay_rounds::{Ended, Numbers, RunError};
use std::alloc::Global;

/// The path of the source at this place.
fn path_at(alloc: Global, sources: &[SourceName], place: usize) -> Result<Str, NoMemory>
    requires { place < length sources.now }
    ensures { IfOk result (IsNamedAt sources.now place) }
{
    sources[place].name.copy(alloc)
}

/// The answer to a session that ended before its last tick was done. A source is named by its path.
pub(crate) fn answer_to(alloc: Global, sources: &[SourceName], error: RunError) -> Status
    requires fault { (place : ℕ) → error ≡ RunError.SourceFault place → place < length sources.now }
    requires shrank { (place kept found : ℕ) → error ≡ RunError.SourceShrank place kept found → place < length sources.now }
    ensures { IsAnswerTo sources.now error result }
{
    match error {
        RunError::KeeperFault => Status::KeeperFault,
        RunError::KeeperRefused => Status::KeeperRefused,
        RunError::MomentTooLarge { moment } => Status::MomentTooLarge { moment },
        RunError::SourceFault { place } => match path_at(alloc, sources, place) {
            Ok(source) => Status::SourceFault { source },
            Err(NoMemory) => Status::OutOfMemory,
        },
        RunError::SourceShrank { place, kept, found } => match path_at(alloc, sources, place) {
            Ok(source) => Status::SourceShrank {
                source,
                kept,
                found,
            },
            Err(NoMemory) => Status::OutOfMemory,
        },
        RunError::NumbersSpent => Status::NumbersSpent,
        RunError::SinkFault => Status::SinkFault,
        RunError::NoMemory => Status::OutOfMemory,
    }
}

/// The same refusal of a question as that of a session.
pub(crate) fn ended(error: AskError) -> RunError
    ensures { result ≡ ended_by error }
{
    match error {
        AskError::KeeperFault => RunError::KeeperFault,
        AskError::KeeperRefused => RunError::KeeperRefused,
        AskError::MomentTooLarge { moment } => RunError::MomentTooLarge { moment },
        AskError::SourceFault { place } => RunError::SourceFault { place },
        AskError::SourceShrank { place, kept, found } => {
            RunError::SourceShrank { place, kept, found }
        }
        AskError::NumbersSpent => RunError::NumbersSpent,
        AskError::NoMemory => RunError::NoMemory,
    }
}

/// Writes the final line of a session that read its sources to their ends.
fn finish_whole<O: Sink>(alloc: Global, sink: &mut O, kept: Numbers, faults: u64) -> Status
    ensures done { IsDoneStatus result → O.tells → O.written sink.new ≡ O.written sink.old ++ final_line 0 kept faults }
    ensures spent { ¬ IsSpentStatus result }
    ensures usage { ¬ IsUsageStatus result }
    ensures cause { IsRefusal result → IsCaused (record no_causes { sink = Rose (O.faults sink.old) (O.faults sink.new) }) result }
    ensures told { IsRefusal result → O.tells → ((result ≡ Status.OutOfMemory) × (O.written sink.new ≡ O.written sink.old ++ refusal_line result)) ⊎ Rose (O.faults sink.old) (O.faults sink.new) }
{
    let Ok(line) = final_line(alloc, Status::Ok.number(), kept, faults) else {
        return starve(sink);
    };
    match write_all(sink, line.as_slice()) {
        Ok(()) => Status::Ok,
        Err(_) => Status::SinkFault,
    }
}

/// Writes the lines of a session that came not to the ends of its sources. A fault of the sink there changes nothing in the answer.
fn finish_spent<O: Sink>(alloc: Global, sink: &mut O, kept: Numbers, faults: u64) -> Status
    ensures spent { IsSpentStatus result → O.tells → (O.written sink.new ≡ O.written sink.old ++ (refusal_line Status.TicksSpent ++ final_line 11 kept faults))
        ⊎ Rose (O.faults sink.old) (O.faults sink.new) }
    ensures done { ¬ IsDoneStatus result }
    ensures usage { ¬ IsUsageStatus result }
    ensures cause { IsRefusal result → IsCaused no_causes result }
    ensures told { IsRefusal result → O.tells → ((result ≡ Status.OutOfMemory) × (O.written sink.new ≡ O.written sink.old ++ refusal_line result)) ⊎ Rose (O.faults sink.old) (O.faults sink.new) }
{
    stop(alloc, sink, Status::TicksSpent, Some(kept), faults)
}

/// Writes the last lines of a session that did all its ticks, and whose link failed so often.
pub(crate) fn finish<O: Sink>(alloc: Global, sink: &mut O, ended: Ended, faults: u64) -> Status
    ensures done { IsDoneStatus result → (ended.is_end ≡ true) × (O.tells → O.written sink.new ≡ O.written sink.old ++ final_line 0 ended.numbers faults) }
    ensures spent { IsSpentStatus result → (ended.is_end ≡ false) × (O.tells → (O.written sink.new ≡ O.written sink.old ++ (refusal_line Status.TicksSpent ++ final_line 11 ended.numbers faults))
        ⊎ Rose (O.faults sink.old) (O.faults sink.new)) }
    ensures usage { ¬ IsUsageStatus result }
    ensures cause { IsRefusal result → IsCaused (record no_causes { sink = Rose (O.faults sink.old) (O.faults sink.new) }) result }
    ensures told { IsRefusal result → O.tells → ((result ≡ Status.OutOfMemory) × (O.written sink.new ≡ O.written sink.old ++ refusal_line result)) ⊎ Rose (O.faults sink.old) (O.faults sink.new) }
{
    if ended.is_end {
        finish_whole(alloc, sink, ended.numbers, faults)
    } else {
        finish_spent(alloc, sink, ended.numbers, faults)
    }
}
