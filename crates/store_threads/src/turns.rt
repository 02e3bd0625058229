//! Single turns of a seat.

ghost use Rattle.std.specs.Prelude.{◌≡◌, ◌+◌, ◌<◌, IfOk, IfSome, OnOk, OnErr};
ghost use Rattle.session_state.specs.Readings.{IsReading};
ghost use Rattle.sql_texts.specs.Meaning.{meaning};
ghost use Rattle.event_store.specs.Contents.{rows_in};
ghost use Rattle.turn_lock.specs.Words.{IsAtRest, IsSame};
ghost use Rattle.shared_store.specs.Words.{IsSeatOf};
ghost use Rattle.shared_store.specs.Seats.{own_count};
ghost use Rattle.shared_store.specs.Notes.{WasGiven};
ghost use Rattle.shared_store.specs.Turns.{notes_of};

use crate::given::reading;
use event_store::Steps;
use osq_value::{NoMemory, Reading, RowList, Str};
use session_state::{AppendError, CommitRefusal, Cut};
use shared_store::{Store, StoreSeat};
use sql_meaning::plain_rows;
use sql_texts::text::query_of_text;
use std::alloc::Global;
use std::marker::Brand;
use std::sync::Wait;
use std::sync::ledger::{Blank, Ledger};

/// Adds a reading, with steps that nobody counts.
fn append_counted<R: Wait, L: Ledger>(
    rt: &R,
    alloc: Global,
    store: &Store,
    seat: &mut StoreSeat,
    source: &Str,
    reading: Reading,
    blank: Blank,
) -> Result<(u64, u64), AppendError>
    requires seat { IsSeatOf store.now seat.old × IsAtRest seat.old }
    requires reading { IsReading reading }
    requires name { blank.name ≡ L.name }
    requires parts { blank.parts ≡ L.parts }
    requires some { 0 < blank.parts }
    ensures seat { IsSame seat.old seat.new × IsAtRest seat.new }
    ensures added { OnOk result (own_count seat.new ≡ own_count seat.old + 1) }
    ensures refused { OnErr result (own_count seat.new ≡ own_count seat.old) }
{
    store.append(
        rt,
        alloc,
        seat,
        source,
        reading,
        &mut Steps::<L>::new(blank),
    )
}

/// Adds a reading of one file, which ends at this byte of the source.
pub(crate) fn add_one<R: Wait>(
    rt: &R,
    alloc: Global,
    store: &Store,
    seat: &mut StoreSeat,
    source: &str,
    taken: u64,
) -> Result<(u64, u64), AppendError>
    requires { IsSeatOf store.now seat.old × IsAtRest seat.old }
    ensures seat { IsSame seat.old seat.new × IsAtRest seat.new }
    ensures added { OnOk result (own_count seat.new ≡ own_count seat.old + 1) }
    ensures refused { OnErr result (own_count seat.new ≡ own_count seat.old) }
{
    let Ok(source) = Str::of(alloc, source) else {
        return Err(AppendError::NoMemory);
    };
    let Ok(reading) = reading(alloc, taken) else {
        return Err(AppendError::NoMemory);
    };
    append_counted::<R, Brand>(rt, alloc, store, seat, &source, reading, Blank::new(1))
}

/// The next cut, with steps that nobody counts.
fn claim_counted<R: Wait, L: Ledger>(
    rt: &R,
    alloc: Global,
    store: &Store,
    seat: &mut StoreSeat,
    blank: Blank,
) -> Result<Option<Cut>, NoMemory>
    requires seat { IsSeatOf store.now seat.old × IsAtRest seat.old }
    requires name { blank.name ≡ L.name }
    requires parts { blank.parts ≡ L.parts }
    requires some { 0 < blank.parts }
    ensures seat { IsSame seat.old seat.new × IsAtRest seat.new }
    ensures given { IfOk result (λ given. IfSome given (λ cut. WasGiven cut (notes_of seat.new))) }
{
    store.claim_cut(rt, alloc, seat, &mut Steps::<L>::new(blank))
}

/// The next cut, where a query is due; want of memory stands for none.
pub(crate) fn claimed<R: Wait>(
    rt: &R,
    alloc: Global,
    store: &Store,
    seat: &mut StoreSeat,
) -> Result<Cut, NoMemory>
    requires { IsSeatOf store.now seat.old × IsAtRest seat.old }
    ensures seat { IsSame seat.old seat.new × IsAtRest seat.new }
    ensures given { IfOk result (λ cut. WasGiven cut (notes_of seat.new)) }
{
    match claim_counted::<R, Brand>(rt, alloc, store, seat, Blank::new(1))? {
        None => Err(NoMemory),
        Some(cut) => Ok(cut),
    }
}

/// The rows that answer a cut.
#[tactic(auto, unfolding(sql_texts::specs::Meaning::meaning))]
fn answer(alloc: Global, cut: &Cut) -> Result<RowList, NoMemory>
    ensures { IfOk result (λ rows. rows ≡ meaning cut.now.key.text (rows_in cut.now.view)) }
{
    let Ok(query) = query_of_text(alloc, cut.key().text.as_str()) else {
        return Err(NoMemory);
    };
    plain_rows(alloc, &query, cut.view())
}

/// What becomes of a cut, with the number of a batch.
#[derive(Clone, Copy)]
pub(crate) enum Outcome {
    Committed(u64),
    Superseded(u64),
    Other,
}

/// Each arm takes the cut that came back, so that it's dropped there alone.
fn refused(refusal: CommitRefusal) -> Outcome {
    match refusal {
        CommitRefusal::Superseded { number, cut: _cut } => Outcome::Superseded(number),
        CommitRefusal::Stale {
            position: _,
            cut: _cut,
        } => Outcome::Other,
        CommitRefusal::NumbersSpent { cut: _cut } => Outcome::Other,
    }
}

fn outcome_of(committed: Result<u64, CommitRefusal>) -> Outcome {
    match committed {
        Ok(number) => Outcome::Committed(number),
        Err(refusal) => refused(refusal),
    }
}

/// Answers a cut, and says what becomes of it.
pub(crate) fn commit<R: Wait>(
    rt: &R,
    alloc: Global,
    store: &Store,
    seat: &mut StoreSeat,
    cut: Cut,
) -> Result<Outcome, NoMemory>
    requires seat { IsSeatOf store.now seat.old × IsAtRest seat.old }
    requires given { WasGiven cut (notes_of seat.old) }
    ensures { IsSame seat.old seat.new × IsAtRest seat.new }
{
    let rows = answer(alloc, &cut)?;
    Ok(outcome_of(store.commit(rt, seat, cut, rows)))
}

/// Answers the next cut at once, and says what becomes of it.
pub(crate) fn answer_next<R: Wait>(
    rt: &R,
    alloc: Global,
    store: &Store,
    seat: &mut StoreSeat,
) -> Result<Outcome, NoMemory>
    requires { IsSeatOf store.now seat.old × IsAtRest seat.old }
    ensures { IsSame seat.old seat.new × IsAtRest seat.new }
{
    let cut = claimed(rt, alloc, store, seat)?;
    commit(rt, alloc, store, seat, cut)
}

/// The last number that a seat's cut has, which is then given back.
pub(crate) fn last_cut<R: Wait>(
    rt: &R,
    alloc: Global,
    store: &Store,
    seat: &mut StoreSeat,
) -> Result<u64, NoMemory>
    requires { IsSeatOf store.now seat.old × IsAtRest seat.old }
    ensures { IsSame seat.old seat.new × IsAtRest seat.new }
{
    let cut = claimed(rt, alloc, store, seat)?;
    let last = cut.hi();
    store.release(rt, seat, cut);
    Ok(last)
}
