//! The rows of a text behind a kept list.

ghost use Rattle.std.specs.Prelude.{◌≡◌, ◌≤◌, IfOk, Some, true};
ghost use Rattle.osq_value.specs.declared.moment.TheConstants.{LAST_MOMENT};
ghost use Rattle.sql_texts.specs.Meaning.{is_accepted};
ghost use Rattle.sql_query.specs.Resolved.{query_of};
ghost use Rattle.sql_texts.specs.Texts.{query_in};
ghost use Rattle.query_rounds.specs.Asking.{AnswersBehind};

use kept_queries::rows_behind;
use osq_value::{NoMemory, RowList};
use session_state::State;
use sql_query::query::Query;
use sql_texts::text::{TextError, query_of_text};
use std::alloc::Global;

/// The query that an accepted text asks for.
#[tactic(auto, unfolding(sql_texts::specs::Meaning::is_accepted))]
fn asked(alloc: Global, text: &str) -> Result<Query, NoMemory>
    requires { is_accepted text.now ≡ true }
    ensures { IfOk result (λ query. query_in text.now ≡ Some (query_of query)) }
{
    match query_of_text(alloc, text) {
        Ok(query) => Ok(query),
        Err(TextError::NoMemory) => Err(NoMemory),
        Err(TextError::Parse(_)) => unreachable!(),
        Err(TextError::Name(_)) => unreachable!(),
    }
}

/// The rows that an accepted text means over all live events and the tables of each list for which the state stands, at this moment.
pub(crate) fn answer_behind(
    alloc: Global,
    text: &str,
    state: &State,
    moment: u64,
) -> Result<RowList, NoMemory>
    requires accepted { is_accepted text.now ≡ true }
    requires calendar { moment ≤ LAST_MOMENT }
    ensures { IfOk result (λ rows. AnswersBehind state.now text.now moment rows) }
{
    let query = asked(alloc, text)?;
    rows_behind(alloc, &query, state, moment)
}
