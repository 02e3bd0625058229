//! Why the names of a text are refused.

ghost use Rattle.std.specs.Prelude.{◌≡◌};
ghost use Rattle.sql_names.specs.declared.error.NameKind.TheVariants.{NoMemory};

use osq_value::NoMemory;
use std::alloc::AllocError;
use std::fmt;
use thiserror::Error;

/// What is wrong with the names of a text. The kinds stand in the order in which they are tried.
#[derive(Clone, Copy, Debug, Error)]
pub enum NameKind {
    /// FROM has a 17th table.
    #[error("more than 16 tables")]
    TooManyTables,
    /// No table of the catalogue, or no table of FROM, has the name.
    #[error("no such table")]
    NoTable,
    /// No table that can be named there has the column, or the items have no such number.
    #[error("no such column")]
    NoColumn,
    /// Two tables have the name, or the column.
    #[error("ambiguous name")]
    Ambiguous,
    /// An aggregate where none may stand, or HAVING without groups.
    #[error("misplaced aggregate or HAVING")]
    BadAggregate,
    /// A column outside every aggregate and every expression of GROUP BY, beside MIN or MAX.
    #[error("column outside GROUP BY and every aggregate, beside MIN or MAX")]
    BareColumn,
    /// Memory ran out. The place says nothing.
    #[error("out of memory")]
    NoMemory,
}

/// The first kind of fault of a text, with that kind's least byte place.
#[derive(Clone, Copy, Debug, Error)]
pub struct NameError {
    /// The byte place in the text, from 0.
    pub place: usize,
    /// What is wrong there.
    pub kind: NameKind,
}

impl fmt::Display for NameError {
    fn fmt<W: fmt::Write>(&self, f: &mut fmt::Formatter<W>) -> fmt::Result {
        match self.kind {
            NameKind::NoMemory => write!(f, "{}", self.kind),
            kind => write!(f, "{kind} at byte {}", self.place),
        }
    }
}

impl From<NoMemory> for NameError {
    ghost from_gives = { λ _ e. e.kind ≡ NoMemory };

    fn from(_error: NoMemory) -> NameError {
        NameError {
            place: 0,
            kind: NameKind::NoMemory,
        }
    }
}

impl From<AllocError> for NameError {
    ghost from_gives = { λ _ e. e.kind ≡ NoMemory };

    fn from(_error: AllocError) -> NameError {
        NameError {
            place: 0,
            kind: NameKind::NoMemory,
        }
    }
}
