//! The command `report`: the values of the kept list.

ghost use Rattle.std.specs.Prelude.{◌≡◌, IfOk, IfErr};
ghost use Rattle.osq_outside.specs.Causes.{Rose};
ghost use Rattle.osq_program.specs.Answers.{IsCaused, IsUsageStatus};
ghost use Rattle.osq_program.specs.Reporting.{HasReport, IsShown, loading_causes};
ghost use Rattle.osq_program.specs.Telling.{TellsAlone};

use crate::outside::{Observes, Outside};
use crate::status::Status;
use crate::stop::refuse;
use batch_forwarder::Link;
use batch_keeper::Keeper;
use kept_report::report_text;
use osq_outside::{Clock, Files, Sink, Source, write_all};
use osq_value::{Bytes, NoMemory};
use replay_rounds::{LoadError, load_values};
use std::alloc::Global;

/// The text that shows the values of the kept list, from which a session might go on.
fn told<K: Keeper>(alloc: Global, keeper: &mut K) -> Result<Bytes, Status>
    ensures text { IfOk result (HasReport K.tells (K.kept keeper.old)) }
    ensures same { K.tells → K.kept keeper.new ≡ K.kept keeper.old }
    ensures cause { IfErr result (IsCaused (loading_causes K.tells (K.kept keeper.old) (Rose (K.faults keeper.old) (K.faults keeper.new)))) }
{
    match load_values(alloc, keeper) {
        Ok(values) => match report_text(alloc, values) {
            Ok(text) => Ok(text),
            Err(NoMemory) => Err(Status::OutOfMemory),
        },
        Err(LoadError::KeeperFault) => Err(Status::KeeperFault),
        Err(LoadError::KeeperRefused { kept: _ }) => Err(Status::KeeperRefused),
        Err(LoadError::NoMemory) => Err(Status::OutOfMemory),
    }
}

/// Writes the values of the kept list, and tells on the status stream why it doesn't. Nothing else is read, and nothing is added to the list.
pub(crate) fn run_report<S: Source, O: Sink, F: Files, C: Clock, K: Keeper, L: Link>(
    alloc: Global,
    outside: &mut Outside<S, O, F, C, K, L>,
) -> Status
    ensures usage { ¬ IsUsageStatus result }
    ensures unread { outside.new ≡ record outside.old { results = outside.new.results; status = outside.new.status; keeper = outside.new.keeper } }
    ensures does { IsShown (⟦<Outside<S, O, F, C, K, L> as Observes>⟧.observed outside.old outside.new) result }
    ensures told { TellsAlone (⟦<Outside<S, O, F, C, K, L> as Observes>⟧.observed outside.old outside.new) result }
{
    let text = match told(alloc, &mut outside.keeper) {
        Ok(text) => text,
        Err(status) => return refuse(alloc, &mut outside.status, status),
    };
    match write_all(&mut outside.results, text.as_slice()) {
        Ok(()) => Status::Ok,
        Err(_) => refuse(alloc, &mut outside.status, Status::SinkFault),
    }
}
