//! The tokens of a query's text.

use sql_tree::functions::{Fold, Function};
use sql_tree::span::Span;

/// What a name, plain or quoted, names besides a column or a table.
#[derive(Clone, Copy)]
pub enum Word {
    Plain,
    Scalar(Function),
    Aggregate(Fold),
    IntegerType,
    TextType,
}

/// A keyword that stands between the parts of a select, and in no expression.
#[derive(Clone, Copy, PartialEq, Eq)]
pub enum Clause {
    Select,
    From,
    Where,
    Group,
    By,
    Having,
    Order,
    Asc,
    Desc,
    Limit,
    Offset,
    Join,
    Inner,
    Cross,
    Left,
    Outer,
    On,
    Using,
}

/// What a token is. Keywords, signs, and the kinds that carry more.
#[derive(Clone, Copy)]
pub enum Kind {
    /// A number's value, or nothing where it is above 9223372036854775807.
    Number(Option<i64>),
    Text,
    Name(Word),
    QuotedName(Word),
    Clause(Clause),
    Distinct,
    As,
    And,
    Or,
    Not,
    Is,
    In,
    Like,
    Between,
    Null,
    Cast,
    Comma,
    Dot,
    Open,
    Close,
    Star,
    Slash,
    Percent,
    Plus,
    Minus,
    Concat,
    Equal,
    NotEqual,
    Less,
    LessEqual,
    Greater,
    GreaterEqual,
    Semicolon,
    /// An open quote, or a byte that begins no token.
    Bad,
    End,
}

/// A token, and where the token before it ends.
#[derive(Clone, Copy)]
pub struct Token {
    /// What the token is.
    pub kind: Kind,
    /// Its byte places.
    pub span: Span,
    /// The byte place behind the token before it, 0 for the first one.
    pub previous_end: usize,
}

/// How many nestings may be open.
pub const MAX_DEPTH: usize = 64;

/// How many operators a chain may have.
pub const MAX_OPERATORS: usize = 1000;
