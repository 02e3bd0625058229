//! What a text answers.

ghost use Rattle.std.specs.Prelude.{◌≡◌, true, IfOk};
ghost use Rattle.std.specs.Option.{option_map};
ghost use Rattle.sql_meaning.specs.Meaning.{meaning_of};
ghost use Rattle.sql_query.specs.Resolved.{query_of};
ghost use Rattle.sql_texts.specs.Meaning.{is_accepted, meaning};
ghost use Rattle.sql_texts.specs.Texts.{query_in};
ghost use Rattle.query_answers.specs.Texts.{answer_of, names_in};

use osq_value::{NoMemory, RowList, Tables, TextList};
use sql_planner::{plan_of, run_plan};
use sql_query::answers::names_of;
use sql_query::query::Query;
use sql_texts::QueryText;
use sql_texts::text::{TextError, query_of_text};
use std::alloc::Global;

/// The query that the text asks for, where it is accepted.
fn asked(alloc: Global, text: &str) -> Result<Option<Query>, NoMemory>
    ensures { IfOk result (λ query. option_map query_of query ≡ query_in text.now) }
{
    match query_of_text(alloc, text) {
        Ok(query) => Ok(Some(query)),
        Err(TextError::NoMemory) => Err(NoMemory),
        Err(_) => Ok(None),
    }
}

/// The rows of the query over the view.
fn rows_of<V: Tables>(alloc: Global, query: &Query, view: &V) -> Result<RowList, NoMemory>
    ensures { IfOk result (λ rows. rows ≡ meaning_of (query_of query.now) (V.rows_of view.now)) }
{
    let plan = plan_of(alloc, query)?;
    run_plan(alloc, &plan, view)
}

/// The rows that the text means over the view, and nothing where it isn't accepted.
#[tactic(auto, unfolding(sql_texts::specs::Meaning::is_accepted, sql_texts::specs::Meaning::meaning))]
pub fn answer<V: Tables>(alloc: Global, text: &str, view: &V) -> Result<Option<RowList>, NoMemory>
    ensures { IfOk result (λ rows. rows ≡ answer_of text.now (V.rows_of view.now)) }
{
    match asked(alloc, text)? {
        None => Ok(None),
        Some(query) => Ok(Some(rows_of(alloc, &query, view)?)),
    }
}

/// The rows that the text means over the view, and nothing where it isn't accepted. A text that was accepted before isn't read again.
#[tactic(auto, unfolding(sql_texts::specs::Meaning::is_accepted, sql_texts::specs::Meaning::meaning))]
fn answer_again<V: Tables>(
    alloc: Global,
    text: &QueryText,
    view: &V,
) -> Result<Option<RowList>, NoMemory>
    ensures { IfOk result (λ rows. rows ≡ answer_of text.now (V.rows_of view.now)) }
{
    match text.query() {
        None => answer(alloc, text.as_str(), view),
        Some(accepted) => Ok(Some(rows_of(alloc, accepted.query(), view)?)),
    }
}

/// The rows that an accepted text means over the view. A text that was accepted before isn't read again.
#[tactic(auto, unfolding(sql_texts::specs::Meaning::is_accepted, sql_texts::specs::Meaning::meaning))]
pub fn answer_accepted<V: Tables>(
    alloc: Global,
    text: &QueryText,
    view: &V,
) -> Result<RowList, NoMemory>
    requires { is_accepted text.now ≡ true }
    ensures { IfOk result (λ rows. rows ≡ meaning text.now (V.rows_of view.now)) }
{
    match answer_again(alloc, text, view)? {
        Some(rows) => Ok(rows),
        None => unreachable!(),
    }
}

/// The names of the columns of the text's result, and nothing where it isn't accepted.
#[tactic(auto, unfolding(sql_texts::specs::Meaning::is_accepted, sql_texts::specs::Meaning::names_of))]
pub fn names(alloc: Global, text: &str) -> Result<Option<TextList>, NoMemory>
    ensures { IfOk result (λ names. names ≡ names_in text.now) }
{
    match asked(alloc, text)? {
        None => Ok(None),
        Some(query) => Ok(Some(names_of(alloc, &query)?)),
    }
}
