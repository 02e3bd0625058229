//! A question over a kept list and what its sources have behind it.

ghost use Rattle.std.specs.Prelude.{◌≡◌, ◌<◌, ◌≤◌, ℕ, true, List, length, map, bytes_eq, Err, IfErr, IfOk};
ghost use Rattle.osq_value.specs.declared.moment.TheConstants.{LAST_MOMENT};
ghost use Rattle.osq_outside.specs.Causes.{Rose};
ghost use Rattle.sql_texts.specs.Meaning.{is_accepted};
ghost use Rattle.entry_model.specs.Fits.{Fits, IsDistinct};
ghost use Rattle.entry_model.specs.Legal.{Legal};
ghost use Rattle.entry_model.specs.Summary.{summary};
ghost use Rattle.entry_model.specs.declared.restored.Restored.{Restored};
ghost use Rattle.entry_model.specs.declared.restored.Taken.{Taken};
ghost use Rattle.session_model.specs.Given.{Given};
ghost use Rattle.daemon_rounds.specs.Rounding.{FailsAt};
ghost use Rattle.daemon_rounds.specs.Starting.{HasShrunk, source_names};
ghost use Rattle.query_rounds.specs.Asking.{IsAnswer, IsGivenFrom, AnswersSomeContinuation, Spends};
ghost use Rattle.query_rounds.specs.Reading.{IsOverfull};
ghost use Rattle.query_rounds.specs.Refusals.{IsBehindLoading};
ghost use Rattle.query_rounds.specs.Skipping.{TellsSkipped};
ghost use Rattle.query_rounds.specs.declared.error.AskError.{AskError};

use crate::answering::answer_behind;
use crate::error::{AskError, unloaded};
use crate::reading::{Behind, read_behind};
use batch_keeper::Keeper;
use daemon_rounds::{MomentTooLarge, read_moment};
use osq_outside::{Clock, Source};
use osq_value::{Bytes, CategoryList, RowList, SourceName};
use replay_rounds::load_values;
use std::alloc::Global;

/// The answer to a question.
#[derive(Drop)]
pub struct Asked {
    /// The rows of the answer, in its order.
    pub rows: RowList,
    /// Every source was read to its end.
    pub is_end: bool,
    /// A line for each source of which lines were skipped, as the end of a session tells them.
    pub skipped: Bytes,
}

/// Answers an accepted text over the keeper's list and what the sources have behind it. The list is loaded, the clock is read once, and the
/// sources are read on from where the list has them, in rounds of one step of each, of at most `records` records, until each is at its end or
/// `rounds` of them were run. The rows are those over all live events and the tables at the clock's moment. The keeper's list stays as it is. No two
/// sources have one name.
///
/// KeeperFault where the keeper failed, KeeperRefused where no session may go on from its list; MomentTooLarge where the clock is beyond
/// the year 9999; SourceFault and SourceShrank with the place of the source; NumbersSpent where the next event's number would pass 2^62.
pub fn ask_kept<S: Source, K: Keeper, C: Clock>(
    alloc: Global,
    text: &str,
    names: &[SourceName],
    paths: &CategoryList,
    records: u64,
    rounds: u64,
    clock: &mut C,
    sources: &mut [S],
    keeper: &mut K,
) -> Result<Asked, AskError>
    requires accepted { is_accepted text.now ≡ true }
    requires paired { length sources.old ≡ length names.now }
    requires distinct { IsDistinct bytes_eq (source_names names.now) }
    ensures answer { IfOk result (λ asked. (moment : ℕ) × C.reads clock.old moment clock.new × (moment ≤ LAST_MOMENT) × AnswersSomeContinuation K.tells (K.kept keeper.old) names.now text.now moment asked.rows × (K.tells → S.tells → Legal (K.kept keeper.old) → (given : Given) → IsGivenFrom S.left names.now sources.old paths.now records given → IsAnswer given (K.kept keeper.old) text.now rounds moment asked)) }
    ensures skipped { IfOk result (λ asked. (taken : List Taken) × (K.tells → taken ≡ (summary (K.kept keeper.old)).taken) × TellsSkipped S.tells paths.now taken names.now (map S.left sources.old) asked.is_end asked.skipped) }
    ensures fit { K.tells → IfOk result (λ asked. Fits (summary (K.kept keeper.old))) }
    ensures fit_behind { K.tells → IfErr result (λ error. IsBehindLoading error → Fits (summary (K.kept keeper.old))) }
    ensures same { K.tells → K.kept keeper.new ≡ K.kept keeper.old }
    ensures keeper_cause { result ≡ Err AskError.KeeperFault → Rose (K.faults keeper.old) (K.faults keeper.new) }
    ensures refused { K.tells → result ≡ Err AskError.KeeperRefused → ¬ Fits (summary (K.kept keeper.old)) }
    ensures illegal { K.tells → result ≡ Err AskError.KeeperRefused → ¬ Legal (K.kept keeper.old) }
    ensures moment { (moment : ℕ) → result ≡ Err (AskError.MomentTooLarge moment) → C.reads clock.old moment clock.new × (LAST_MOMENT < moment) }
    ensures fault { (place : ℕ) → result ≡ Err (AskError.SourceFault place) → FailsAt S.faults place sources.old sources.new }
    ensures shrank { (place kept found : ℕ) → result ≡ Err (AskError.SourceShrank place kept found) → (taken : List Taken) × (K.tells → taken ≡ (summary (K.kept keeper.old)).taken) × HasShrunk S.tells S.left taken names.now place kept found sources.old }
    ensures over { result ≡ Err AskError.NumbersSpent → (restored : Restored) × (K.tells → restored ≡ summary (K.kept keeper.old)) × IsOverfull S.tells S.left S.faults names.now paths.now records rounds restored sources.old sources.new }
    ensures spent { result ≡ Err AskError.NumbersSpent → K.tells → S.tells → Legal (K.kept keeper.old) → (given : Given) → IsGivenFrom S.left names.now sources.old paths.now records given → Spends given (K.kept keeper.old) rounds }
    ensures later { K.faults keeper.old ≤ K.faults keeper.new }
{
    let restored = match load_values(alloc, keeper) {
        Ok(restored) => restored,
        Err(error) => return Err(unloaded(error)),
    };
    let moment = match read_moment(clock, 0) {
        Ok(moment) => moment,
        Err(MomentTooLarge { moment }) => return Err(AskError::MomentTooLarge { moment }),
    };
    let Behind {
        state,
        skipped,
        is_end,
    } = match read_behind(alloc, restored, names, paths, records, rounds, sources) {
        Ok(behind) => behind,
        Err(error) => return Err(error),
    };
    let Ok(rows) = answer_behind(alloc, text, &state, moment) else {
        return Err(AskError::NoMemory);
    };
    Ok(Asked {
        rows,
        is_end,
        skipped,
    })
}
