//! The due queries of a tick, each answered by one batch.

ghost use Rattle.std.specs.Prelude.{◌<◌, ◌^◌, Err, ◌≡◌, ◌+◌, ◌≤◌, ℕ, true, false, IfOk, IfSome, Ok, None, Some, [], ◌∷◌};
ghost use Rattle.entry_model.specs.declared.entry.Batch.{Batch};
ghost use Rattle.entry_model.specs.declared.entry.Entry.TheVariants.{Committed};
ghost use Rattle.session_state.specs.Kept.{IsState, due_count};
ghost use Rattle.session_state.specs.Ticks.{first_due};
ghost use Rattle.daemon_rounds.specs.Adding.{AreFree, AddsEntries};
ghost use Rattle.daemon_rounds.specs.declared.error.RoundError.{RoundError};
ghost use Rattle.daemon_rounds.specs.Answering.{AnswersDue, AnswersFirst, IsTellable, SpendsBatches};

use crate::error::RoundError;
use event_store::Steps;
use osq_value::NoMemory;
use query_answers::answer_accepted;
use session_state::{CommitRefusal, State};
use std::alloc::Global;
use std::marker::Brand;
use std::sync::ledger::{Blank, Ledger};

/// Answers the first due query by its batch, and says whether one was due.
fn answer_next<L: Ledger>(
    alloc: Global,
    state: &mut State,
    steps: &mut Steps<L>,
) -> Result<bool, RoundError>
    ensures answered { IfOk result (λ more. more ≡ true → (batch : Batch) × AddsEntries state.old (Committed batch ∷ []) state.new × (batch.cut ≡ state.old.counts.position) × IsTellable batch × AnswersFirst state.old batch) }
    ensures fewer { IfOk result (λ more. more ≡ true → due_count state.new + 1 ≤ due_count state.old) }
    ensures none { IfOk result (λ more. more ≡ false → (first_due state.new ≡ None) × AddsEntries state.old [] state.new) }
    ensures spent { result ≡ Err RoundError.NumbersSpent → IsState state.old × (AreFree state.old.claims → (place : ℕ) × (first_due state.old ≡ Some place)) × (2 ^ 62 < state.old.counts.batches + 1) }
{
    state.is_state();
    let cut = match state.claim_cut(alloc, steps) {
        Err(NoMemory) => return Err(RoundError::NoMemory),
        Ok(None) => return Ok(false),
        Ok(Some(cut)) => cut,
    };
    let Ok(rows) = answer_accepted(alloc, &cut.key().text, cut.view()) else {
        return Err(RoundError::NoMemory);
    };
    match state.commit(cut, rows) {
        Ok(_number) => Ok(true),
        Err(CommitRefusal::NumbersSpent { cut: _cut }) => Err(RoundError::NumbersSpent),
        Err(
            CommitRefusal::Superseded {
                number: _,
                cut: _cut,
            },
        ) => unreachable!(),
        Err(
            CommitRefusal::Stale {
                position: _,
                cut: _cut,
            },
        ) => unreachable!(),
    }
}

/// Answers each due query of the present tick by one batch, with steps that nobody counts.
fn answer_each<L: Ledger>(alloc: Global, state: &mut State, blank: Blank) -> Result<(), RoundError>
    requires name { blank.name ≡ L.name }
    requires parts { blank.parts ≡ L.parts }
    requires some { 0 < blank.parts }
    ensures answered { IfOk result (λ _. AnswersDue state.old state.new) }
    ensures spent { result ≡ Err RoundError.NumbersSpent → SpendsBatches state.old }
{
    let mut steps = Steps::<L>::new(blank);
    while answer_next(alloc, state, &mut steps)? {}
    Ok(())
}

/// Answers each due query of the present tick by one batch, made from all entries before its own.
/// NumbersSpent where the next batch's number would pass 2^62; the batches before it are added.
pub fn answer_due(alloc: Global, state: &mut State) -> Result<(), RoundError>
    ensures answered { IfOk result (λ _. AnswersDue state.old state.new) }
    ensures spent { result ≡ Err RoundError.NumbersSpent → SpendsBatches state.old }
{
    answer_each::<Brand>(alloc, state, Blank::new(1))
}
