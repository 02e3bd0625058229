//! Why a text has no tree.

ghost use Rattle.std.specs.Prelude.{◌≡◌};
ghost use Rattle.sql_faults.specs.declared.error.ParseKind.TheVariants.{NoMemory};

use std::alloc::AllocError;
use std::fmt;
use thiserror::Error;

/// What is wrong with a text.
#[derive(Clone, Copy, Debug, Error)]
pub enum ParseKind {
    /// The text is not in the grammar. The place is that of the first token that cannot stand
    /// there, or of the name of a function or a type that cannot.
    #[error("syntax error")]
    NotInGrammar,
    /// A number is above 9223372036854775807.
    #[error("number too large")]
    NumberTooWide,
    /// The text has more than 65536 bytes.
    #[error("query longer than 65536 bytes")]
    TextTooLong,
    /// A token opens a 65th nesting, or is the 1001st operator of a chain.
    #[error("query nested too deeply")]
    TooDeep,
    /// Memory ran out. The place says nothing.
    #[error("out of memory")]
    NoMemory,
}

/// The least fault of a text, with its byte place.
#[derive(Clone, Copy, Debug, Error)]
pub struct ParseError {
    /// The byte place in the text, from 0.
    pub place: usize,
    /// What is wrong there.
    pub kind: ParseKind,
}

impl fmt::Display for ParseError {
    fn fmt<W: fmt::Write>(&self, f: &mut fmt::Formatter<W>) -> fmt::Result {
        match self.kind {
            ParseKind::NoMemory => write!(f, "{}", self.kind),
            kind => write!(f, "{kind} at byte {}", self.place),
        }
    }
}

impl From<AllocError> for ParseError {
    ghost from_gives = { λ _ e. e.kind ≡ NoMemory };

    fn from(_error: AllocError) -> ParseError {
        ParseError {
            place: 0,
            kind: ParseKind::NoMemory,
        }
    }
}
