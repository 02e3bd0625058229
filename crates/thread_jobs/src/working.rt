//! A worker: cuts of due queries, each of which is evaluated outside any turn and committed.

ghost use Rattle.std.specs.Prelude.{◌≡◌, ◌≢◌, ◌<◌, false, Err, Ok, OnOk};
ghost use Rattle.sql_texts.specs.Meaning.{meaning};
ghost use Rattle.event_store.specs.Contents.{rows_in};
ghost use Rattle.turn_lock.specs.Words.{number, seen, IsAtRest, IsSame};
ghost use Rattle.shared_store.specs.Notes.{WasGiven};
ghost use Rattle.shared_store.specs.Turns.{notes_of};
ghost use Rattle.shared_store.specs.Words.{start_of, IsSeatOf};
ghost use Rattle.thread_laws.specs.Reached.{NoneDue};
ghost use Rattle.thread_jobs.specs.Working.{AnswersOf, BatchesSpent};
ghost use Rattle.thread_jobs.specs.declared.error.JobError.{JobError};

use crate::error::JobError;
use event_store::Steps;
use osq_outside::{Gate, Point};
use osq_value::{NoMemory, RowList};
use query_answers::answer_accepted;
use session_state::{CommitRefusal, Cut};
use shared_store::{Store, StoreSeat};
use std::alloc::Global;
use std::marker::Brand;
use std::sync::Wait;
use std::sync::ledger::{Blank, Ledger};

/// Commits the rows that answer a cut. A cut that is refused is given back, and says whether that ends the worker.
fn commit<R: Wait>(
    rt: &R,
    store: &Store,
    seat: &mut StoreSeat,
    cut: Cut,
    rows: RowList,
) -> Result<(), JobError>
    requires seat { IsSeatOf store.now seat.old × IsAtRest seat.old }
    requires given { WasGiven cut (notes_of seat.old) }
    requires rows { rows ≡ meaning cut.key.text (rows_in cut.view) }
    ensures seat { IsSame seat.old seat.new × IsAtRest seat.new }
    ensures own { AnswersOf (start_of store.now) (number seat.old) (seen seat.old) (seen seat.new) }
    ensures spent { result ≡ Err JobError.NumbersSpent → BatchesSpent (start_of store.now) (notes_of seat.new) }
    ensures only { (result ≢ Err JobError.SourceFault) × (result ≢ Err JobError.Intruded) }
{
    match store.commit(rt, seat, cut, rows) {
        Ok(_number) => Ok(()),
        Err(CommitRefusal::Superseded { number: _, cut }) => {
            store.release(rt, seat, cut);
            Ok(())
        }
        Err(CommitRefusal::Stale { position: _, cut }) => {
            store.release(rt, seat, cut);
            Ok(())
        }
        Err(CommitRefusal::NumbersSpent { cut }) => {
            store.release(rt, seat, cut);
            Err(JobError::NumbersSpent)
        }
    }
}

/// Answers one due query, and says whether one was due.
fn answer_next<R: Wait, G: Gate, L: Ledger>(
    rt: &R,
    alloc: Global,
    store: &Store,
    gate: &G,
    who: u32,
    seat: &mut StoreSeat,
    steps: &mut Steps<L>,
) -> Result<bool, JobError>
    requires seat { IsSeatOf store.now seat.old × IsAtRest seat.old }
    ensures seat { IsSame seat.old seat.new × IsAtRest seat.new }
    ensures own { AnswersOf (start_of store.now) (number seat.old) (seen seat.old) (seen seat.new) }
    ensures none { result ≡ Ok false → NoneDue (start_of store.now) (notes_of seat.new) }
    ensures spent { result ≡ Err JobError.NumbersSpent → BatchesSpent (start_of store.now) (notes_of seat.new) }
    ensures only { (result ≢ Err JobError.SourceFault) × (result ≢ Err JobError.Intruded) }
{
    let cut = match store.claim_cut(rt, alloc, seat, steps) {
        Err(NoMemory) => return Err(JobError::NoMemory),
        Ok(None) => return Ok(false),
        Ok(Some(cut)) => cut,
    };
    gate.at(who, Point::AfterCut);
    let Ok(rows) = answer_accepted(alloc, &cut.key().text, cut.view()) else {
        store.release(rt, seat, cut);
        return Err(JobError::NoMemory);
    };
    gate.at(who, Point::BeforeCommit);
    match commit(rt, store, seat, cut, rows) {
        Ok(()) => Ok(true),
        Err(error) => Err(error),
    }
}

/// Answers due queries until none is due, with steps that nobody counts.
fn answer_each<R: Wait, G: Gate, L: Ledger>(
    rt: &R,
    alloc: Global,
    store: &Store,
    gate: &G,
    who: u32,
    seat: &mut StoreSeat,
    blank: Blank,
) -> Result<(), JobError>
    requires seat { IsSeatOf store.now seat.old × IsAtRest seat.old }
    requires name { blank.name ≡ L.name }
    requires parts { blank.parts ≡ L.parts }
    requires some { 0 < blank.parts }
    ensures seat { IsSame seat.old seat.new × IsAtRest seat.new }
    ensures own { AnswersOf (start_of store.now) (number seat.old) (seen seat.old) (seen seat.new) }
    ensures none { OnOk result (NoneDue (start_of store.now) (notes_of seat.new)) }
    ensures spent { result ≡ Err JobError.NumbersSpent → BatchesSpent (start_of store.now) (notes_of seat.new) }
    ensures only { (result ≢ Err JobError.SourceFault) × (result ≢ Err JobError.Intruded) }
{
    let mut steps = Steps::<L>::new(blank);
    for _ in rt.forever() {
        if !answer_next(rt, alloc, store, gate, who, seat, &mut steps)? {
            return Ok(());
        }
    }
    unreachable!()
}

/// A worker: cuts due queries, evaluates each outside any turn and commits its rows, between the gate's points behind the cut and before the
/// commit, until no query is due. A cut that is refused is given back, and where another batch of its query, another schedule or another tick
/// came before it, the next one is cut. Whatever comes of it, the seat adds batches alone, each of which can be sent and was made at the moment of its turn.
///
/// NumbersSpent where the next batch's number would pass 2^62.
pub fn work<R: Wait, G: Gate>(
    rt: &R,
    alloc: Global,
    store: &Store,
    gate: &G,
    who: u32,
    seat: &mut StoreSeat,
) -> Result<(), JobError>
    requires seat { IsSeatOf store.now seat.old × IsAtRest seat.old }
    ensures seat { IsSame seat.old seat.new × IsAtRest seat.new }
    ensures own { AnswersOf (start_of store.now) (number seat.old) (seen seat.old) (seen seat.new) }
    ensures none { OnOk result (NoneDue (start_of store.now) (notes_of seat.new)) }
    ensures spent { result ≡ Err JobError.NumbersSpent → BatchesSpent (start_of store.now) (notes_of seat.new) }
    ensures only { (result ≢ Err JobError.SourceFault) × (result ≢ Err JobError.Intruded) }
{
    answer_each::<R, G, Brand>(rt, alloc, store, gate, who, seat, Blank::new(1))
}
