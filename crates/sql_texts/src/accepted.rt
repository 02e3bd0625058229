//! An accepted text with what is made of it.

ghost use Rattle.std.specs.Prelude.{◌≡◌, ◌≢◌, Some, None, IfOk, IfErr};
ghost use Rattle.sql_query.specs.Resolved.{query_of};
ghost use Rattle.sql_texts.specs.Meaning.{names_of as names_in, names_table as names_there};
ghost use Rattle.sql_texts.specs.TextFaults.{text_fault};
ghost use Rattle.sql_texts.specs.Texts.{query_in};
ghost use Rattle.sql_texts.specs.declared.text.TextError.TheVariants.{NoMemory as WantsMemory};

use crate::text::{TextError, query_of_text};
use osq_value::{NoMemory, Str, TableId, TextList};
use sql_query::answers::{names_of, names_table};
use sql_query::query::Query;
use std::alloc::Global;
use std::marker::Model;

/// An accepted text with its query and the names of its result, which contracts see as the text alone.
#[derive(Drop)]
pub struct AcceptedQuery {
    text: Str,
    query: Query,
    names: TextList,
}

impl Model for AcceptedQuery {
    ghost use Rattle.std.specs.Prelude.{List, ℕ};
    ghost use Rattle.sql_texts.specs.Accepted.{IsOfText};

    ghost Value = { List ℕ };

    ghost view = { λ a. a.text };

    ghost invariant = { λ a. IsOfText a.text a.query a.names };
}

impl AcceptedQuery {
    /// The text with what is made of it, or its fault, as `query_of_text` says it.
    pub fn of(alloc: Global, text: &str) -> Result<AcceptedQuery, TextError>
        ensures text { IfOk result (λ made. made ≡ text.now) }
        ensures fault { IfErr result (λ e. e ≢ WantsMemory → text_fault text.now ≡ Some e) }
        ensures refused { IfErr result (λ e. e ≢ WantsMemory → query_in text.now ≡ None) }
    {
        match query_of_text(alloc, text) {
            Err(error) => Err(error),
            Ok(query) => match AcceptedQuery::made(alloc, text, query) {
                Ok(made) => Ok(made),
                Err(NoMemory) => Err(TextError::NoMemory),
            },
        }
    }

    /// The text with the query that it asks for, which is moved.
    fn made(alloc: Global, text: &str, query: Query) -> Result<AcceptedQuery, NoMemory>
        requires asks { query_in text.now ≡ Some (query_of query) }
        requires sound { text_fault text.now ≡ None }
        ensures { IfOk result (λ made. made ≡ text.now) }
    {
        let names = names_of(alloc, &query)?;
        Ok(AcceptedQuery {
            text: Str::of(alloc, text)?,
            query,
            names,
        })
    }

    /// The text.
    pub fn as_str(&self) -> &str
        ensures { result.now ≡ self.now }
    {
        self.text.as_str()
    }

    /// The query that the text asks for.
    pub fn query(&self) -> &Query
        ensures asks { query_in self.now ≡ Some (query_of result.now) }
        ensures sound { text_fault self.now ≡ None }
    {
        &self.query
    }

    /// The names of the columns of the text's result.
    #[tactic(auto, unfolding(crate::specs::Meaning::names_of))]
    pub fn names(&self) -> &TextList
        ensures { result.now ≡ names_in self.now }
    {
        &self.names
    }

    /// Whether the text names this table.
    #[tactic(auto, unfolding(crate::specs::Meaning::names_table))]
    pub fn names_table(&self, table: TableId) -> bool
        ensures { result ≡ names_there self.now table.0 }
    {
        names_table(&self.query, table)
    }
}
