//! The command `fleet`: the answer to one text over the frames that a ledger records of a host.

ghost use Rattle.std.specs.Prelude.{◌≡◌, IfOk, IfErr};
ghost use Rattle.fleet_query.specs.Tables.{fleet_derived, fleet_view};
ghost use Rattle.sql_meaning.specs.Meaning.{meaning_of};
ghost use Rattle.sql_query.specs.Answers.{result_names};
ghost use Rattle.sql_query.specs.Resolved.{query_of};
ghost use Rattle.osq_program.specs.Answers.{no_causes, IsCaused, IsUsageStatus};
ghost use Rattle.osq_program.specs.Fleets.{IsFleet, ShowsRows};
ghost use Rattle.osq_program.specs.Querying.{IsRefusedOver, row_lines};
ghost use Rattle.osq_program.specs.Telling.{TellsFleet};

use crate::outside::{Observes, Outside};
use crate::query::{answer_lines, asked_over};
use crate::status::Status;
use crate::stop::{refuse, refuse_unread, starve};
use batch_forwarder::Link;
use batch_frames::Frame;
use batch_keeper::Keeper;
use collector_ledger::open_frames;
use fleet_query::{derived_of, rows_of_fleet};
use osq_outside::{Clock, Files, FilesError, Sink, Source, write_all};
use osq_value::{Bytes, NoMemory};
use program_words::FleetWords;
use sql_query::query::Query;
use std::alloc::Global;

/// A line for each row that the query means over these frames' tables.
fn rows_shown(alloc: Global, frames: &[Frame], query: &Query) -> Result<Bytes, NoMemory>
    ensures { IfOk result (λ lines. lines ≡ row_lines (result_names (query_of query.now)) (meaning_of (query_of query.now) (fleet_view frames.now))) }
{
    let rows = rows_of_fleet(alloc, frames, query)?;
    answer_lines(alloc, query, &rows)
}

/// A line for each row that the text means over these frames' tables.
fn text_shown(alloc: Global, frames: &[Frame], text: &str) -> Result<Bytes, Status>
    ensures shows { IfOk result (ShowsRows frames.now text.now) }
    ensures cause { IfErr result (IsCaused (record no_causes { query = IsRefusedOver (fleet_derived frames.now) text.now })) }
{
    let Ok(derived) = derived_of(alloc, frames) else {
        return Err(Status::OutOfMemory);
    };
    let query = match asked_over(alloc, derived.as_slice(), text) {
        Ok(query) => query,
        Err(status) => return Err(status),
    };
    match rows_shown(alloc, frames, &query) {
        Ok(lines) => Ok(lines),
        Err(_) => Err(Status::OutOfMemory),
    }
}

/// Answers the text over the frames that the ledger's file records of the host, and tells on the status stream why there is no answer. The
/// file is read alone; where there is none, no frame is recorded.
pub(crate) fn run_fleet<S: Source, O: Sink, F: Files, C: Clock, K: Keeper, L: Link>(
    alloc: Global,
    words: &FleetWords,
    outside: &mut Outside<S, O, F, C, K, L>,
) -> Status
    ensures usage { ¬ IsUsageStatus result }
    ensures unread { outside.new ≡ record outside.old { results = outside.new.results; status = outside.new.status; files = outside.new.files } }
    ensures does { IsFleet words.now (⟦<Outside<S, O, F, C, K, L> as Observes>⟧.observed outside.old outside.new) result }
    ensures told { TellsFleet words.now (⟦<Outside<S, O, F, C, K, L> as Observes>⟧.observed outside.old outside.new) result }
{
    let frames = match open_frames(
        alloc,
        &mut outside.files,
        words.ledger.as_str(),
        words.host.as_str(),
    ) {
        Ok(frames) => frames,
        Err(FilesError::Fault) => {
            return refuse_unread(alloc, &mut outside.status, &words.ledger);
        }
        Err(FilesError::NoMemory) => {
            return starve(&mut outside.status);
        }
    };
    let lines = match text_shown(alloc, frames.as_slice(), words.text.as_str()) {
        Ok(lines) => lines,
        Err(status) => return refuse(alloc, &mut outside.status, status),
    };
    match write_all(&mut outside.results, lines.as_slice()) {
        Ok(()) => Status::Ok,
        Err(_) => refuse(alloc, &mut outside.status, Status::SinkFault),
    }
}
