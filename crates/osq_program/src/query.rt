//! The command `query`: the answer to one text over the kept list and what its sources have behind it.

ghost use Rattle.std.specs.Prelude.{◌≡◌, ◌≤◌, List, ◌∷◌, [], ◌++◌, ℕ, vec_len, length, None, Some, IfOk, IfErr, OnOk};
ghost use Rattle.osq_outside.specs.Causes.{Rose};
ghost use Rattle.program_words.specs.Bounds.{RunBounds};
ghost use Rattle.osq_program.specs.Answers.{no_causes, IsCaused, IsDoneStatus, IsUsageStatus};
ghost use Rattle.osq_program.specs.Querying.{IsQuery, IsRefusedAt, IsRefusedOver, Writes, labelled_lines, row_lines};
ghost use Rattle.osq_program.specs.Report.{Tells, refusal_line};
ghost use Rattle.osq_program.specs.Telling.{EndsShort, TellsQuery};
ghost use Rattle.sql_query.specs.Answers.{result_names};
ghost use Rattle.sql_query.specs.Resolved.{query_of};
ghost use Rattle.sql_texts.specs.TextFaults.{text_fault, text_fault_with};
ghost use Rattle.sql_texts.specs.Texts.{query_in, query_with_in};

use crate::ending::{answer_to, ended};
use crate::outside::{Observes, Outside};
use crate::status::Status;
use crate::stop::{refuse, refuse_unconfigured, starve};
use crate::watching::watched_by;
use batch_forwarder::Link;
use batch_keeper::Keeper;
use osq_outside::{Clock, Files, Sink, Source, write_all};
use osq_value::{Bytes, NoMemory, RowList, TextList};
use program_words::QueryWords;
use query_rounds::{Asked, ask_kept};
use result_batches::labels::{Labels, labels_of};
use result_batches::object::push_object;
use sql_query::answers::names_of;
use sql_query::derived::Derived;
use sql_query::query::Query;
use sql_texts::text::{TextError, query_with};
use std::alloc::Global;

/// The query that the text asks for where FROM may mean these tables too.
pub(crate) fn asked_over(alloc: Global, derived: &[Derived], text: &str) -> Result<Query, Status>
    requires few { length derived.now ≤ 100 }
    ensures query { IfOk result (λ query. query_with_in derived.now text.now ≡ Some (query_of query)) }
    ensures accepted { OnOk result (text_fault_with derived.now text.now ≡ None) }
    ensures cause { IfErr result (IsCaused (record no_causes { query = IsRefusedOver derived.now text.now })) }
{
    match query_with(alloc, text, derived) {
        Ok(query) => Ok(query),
        Err(TextError::NoMemory) => Err(Status::OutOfMemory),
        Err(error) => Err(Status::QueryRefused {
            place: error.place() as u64,
            kind: error.name(),
        }),
    }
}

/// The query that the text asks for where FROM means the catalogue's tables alone.
#[tactic(auto, unfolding(sql_texts::specs::TextFaults::text_fault, sql_texts::specs::Texts::query_in))]
pub(crate) fn asked(alloc: Global, text: &str) -> Result<Query, Status>
    ensures query { IfOk result (λ query. query_in text.now ≡ Some (query_of query)) }
    ensures accepted { OnOk result (text_fault text.now ≡ None) }
    ensures cause { IfErr result (IsCaused (record no_causes { query = IsRefusedAt text.now })) }
{
    asked_over(alloc, &[], text)
}

/// A line for each row: its object, by the labels of the names.
fn labelled_lines(alloc: Global, labels: &Labels, rows: &RowList) -> Result<Bytes, NoMemory>
    ensures { IfOk result (λ lines. lines ≡ labelled_lines labels.now rows.now) }
{
    let mut lines = Bytes::new(alloc);
    for row in rows.as_slice() {
        push_object(&mut lines, labels, row)?;
        lines.extend(b"\n")?;
    }
    Ok(lines)
}

/// A line for each row: its object.
fn lines_of(alloc: Global, names: &TextList, rows: &RowList) -> Result<Bytes, NoMemory>
    ensures { IfOk result (λ lines. lines ≡ row_lines names.now rows.now) }
{
    let labels = labels_of(alloc, names)?;
    labelled_lines(alloc, &labels, rows)
}

/// The lines that show these rows of a query.
pub(crate) fn answer_lines(alloc: Global, query: &Query, rows: &RowList) -> Result<Bytes, NoMemory>
    ensures { IfOk result (λ lines. lines ≡ row_lines (result_names (query_of query.now)) rows.now) }
{
    let names = names_of(alloc, query)?;
    lines_of(alloc, &names, rows)
}

/// Writes the rows of an answer, or tells on the status stream why it doesn't.
fn write_answer<O: Sink>(
    alloc: Global,
    query: &Query,
    asked: Asked,
    results: &mut O,
    status: &mut O,
) -> Status
    ensures writes { Writes O.tells asked.is_end (O.written results.old) (O.written results.new) (row_lines (result_names (query_of query.now)) asked.rows)
        (Rose (O.faults results.old) (O.faults results.new)) result }
    ensures quiet { IsDoneStatus result → status.new ≡ status.old }
    ensures told { O.tells → EndsShort result → Tells (Rose (O.faults status.old) (O.faults status.new)) (O.written status.old) (O.written status.new) (refusal_line result) }
    ensures later { O.faults status.old ≤ O.faults status.new }
{
    if !asked.is_end {
        return refuse(alloc, status, Status::TicksSpent);
    }
    let Ok(lines) = answer_lines(alloc, query, &asked.rows) else {
        return starve(status);
    };
    match write_all(results, lines.as_slice()) {
        Ok(()) => Status::Ok,
        Err(_) => refuse(alloc, status, Status::SinkFault),
    }
}

/// Answers the text over the kept list and what the sources have behind it, and tells on the status stream which packs of a configuration are
/// left out and of which sources lines were skipped, or why there is no answer.
pub(crate) fn run_query<S: Source, O: Sink, F: Files, C: Clock, K: Keeper, L: Link>(
    alloc: Global,
    words: &QueryWords,
    outside: &mut Outside<S, O, F, C, K, L>,
) -> Status
    requires sources { vec_len outside.old.sources ≡ length words.now.sources }
    requires bounded { RunBounds words.now.start words.now.step words.now.ticks words.now.records words.now.sources }
    ensures usage { ¬ IsUsageStatus result }
    ensures link { outside.new.link ≡ outside.old.link }
    ensures ledger { outside.new.ledger ≡ outside.old.ledger }
    ensures sources { vec_len outside.new.sources ≡ vec_len outside.old.sources }
    ensures files { words.now.config ≡ None → outside.new.files ≡ outside.old.files }
    ensures does { IsQuery words.now (⟦<Outside<S, O, F, C, K, L> as Observes>⟧.observed outside.old outside.new) result }
    ensures told { TellsQuery words.now (⟦<Outside<S, O, F, C, K, L> as Observes>⟧.observed outside.old outside.new) result }
{
    let text = words.text.as_str();
    let query = match asked(alloc, text) {
        Ok(query) => query,
        Err(status) => return refuse(alloc, &mut outside.status, status),
    };
    let watched = match watched_by(alloc, &mut outside.files, &words.config) {
        Ok(watched) => watched,
        Err(refused) => return refuse_unconfigured(alloc, &mut outside.status, refused),
    };
    let Ok(()) = write_all(&mut outside.status, watched.notes.as_slice()) else {
        return Status::SinkFault;
    };
    match ask_kept(
        alloc,
        text,
        words.sources.as_slice(),
        &watched.paths,
        words.records,
        words.ticks,
        &mut outside.clock,
        outside.sources.as_mut_slice(),
        &mut outside.keeper,
    ) {
        Ok(asked) => {
            let Ok(()) = write_all(&mut outside.status, asked.skipped.as_slice()) else {
                return Status::SinkFault;
            };
            write_answer(
                alloc,
                &query,
                asked,
                &mut outside.results,
                &mut outside.status,
            )
        }
        Err(error) => {
            let status = answer_to(alloc, words.sources.as_slice(), ended(error));
            refuse(alloc, &mut outside.status, status)
        }
    }
}
