//! The text of a query, which may be one that was accepted before.

ghost use Rattle.std.specs.Prelude.{◌≡◌, bytes_eq, IfOk, IfSome};

use crate::accepted::AcceptedQuery;
use osq_value::{Copied, NoMemory, Str};
use std::alloc::Global;
use std::marker::Model;
use std::sync::Arc;

/// A text, which contracts see as the list of its bytes. Copies of an accepted one share what was made of it.
#[derive(Drop)]
pub struct QueryText {
    held: Held,
}

/// What is known of a text.
#[derive(Drop)]
enum Held {
    /// It was only read.
    Read(Str),
    /// It was accepted.
    Accepted(Arc<AcceptedQuery, Global>),
}

impl Model for QueryText {
    ghost use Rattle.std.specs.Prelude.{List, ℕ};
    ghost use Rattle.sql_texts.specs.Held.{held_text};

    ghost Value = { List ℕ };

    ghost view = { λ t. held_text t.held };
}

impl QueryText {
    /// A text of which nothing is known. It is moved.
    pub fn read(text: Str) -> QueryText
        ensures { result ≡ text }
    {
        QueryText {
            held: Held::Read(text),
        }
    }

    /// An accepted text, which is moved to where copies share it.
    pub fn accepted(alloc: Global, query: AcceptedQuery) -> Result<QueryText, NoMemory>
        ensures { IfOk result (λ made. made ≡ query) }
    {
        Ok(QueryText {
            held: Held::Accepted(Arc::new(alloc, query)?),
        })
    }

    /// What was made of the text, where it is known to be accepted.
    pub fn query(&self) -> Option<&AcceptedQuery>
        ensures { IfSome result (λ query. query.now ≡ self.now) }
    {
        match &self.held {
            Held::Read(_) => None,
            Held::Accepted(query) => Some(query),
        }
    }

    /// The text.
    pub fn as_str(&self) -> &str
        ensures { result.now ≡ self.now }
    {
        match &self.held {
            Held::Read(text) => text.as_str(),
            Held::Accepted(query) => query.as_str(),
        }
    }

    /// The two texts have the same bytes.
    pub fn is(&self, other: &QueryText) -> bool
        ensures { result ≡ bytes_eq self.now other.now }
    {
        self.as_str().as_bytes() == other.as_str().as_bytes()
    }
}

impl Copied for QueryText {
    fn copy(&self, alloc: Global) -> Result<Self, NoMemory> {
        let held = match &self.held {
            Held::Read(text) => Held::Read(text.copy(alloc)?),
            Held::Accepted(query) => Held::Accepted(Arc::try_clone(query)?),
        };
        Ok(QueryText { held })
    }
}
