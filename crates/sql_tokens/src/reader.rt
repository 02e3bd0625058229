//! The tokens that are still to be read.

ghost use Rattle.std.specs.Prelude.{◌≡◌, List};
ghost use Rattle.sql_tokens.specs.Tokens.{next, after, is_all_of, is_name, is_dot, is_star};

use crate::token::{Kind, Token};
use sql_tree::span::Span;
use std::marker::Model;

/// Whether a token is a name.
pub fn is_name_kind(kind: Kind) -> bool
    ensures { result ≡ is_name kind }
{
    matches!(kind, Kind::Name(_) | Kind::QuotedName(_))
}

fn is_dot_kind(kind: Kind) -> bool
    ensures { result ≡ is_dot kind }
{
    matches!(kind, Kind::Dot)
}

fn is_star_kind(kind: Kind) -> bool
    ensures { result ≡ is_star kind }
{
    matches!(kind, Kind::Star)
}

/// A clause sees the tokens that are left. Past the last one stands the end.
#[derive(Drop)]
pub struct Reader<'a> {
    tokens: &'a [Token],
}

impl<'a> Model for Reader<'a> {
    ghost use Rattle.std.specs.Prelude.{List};
    ghost use Rattle.sql_tokens.specs.declared.token.Token.{Token};

    ghost Value = { List Token };

    ghost view = { λ r. r.tokens.now };
}

impl<'a> Reader<'a> {
    /// A reader before the first of these tokens.
    pub fn new(tokens: &'a [Token]) -> Reader<'a>
        ensures { result ≡ tokens.now }
    {
        Reader { tokens }
    }

    /// The next token. It is not taken; behind the last one it is the end of the text.
    pub fn peek(&self) -> Token
        ensures { result ≡ next self.now }
    {
        match self.tokens {
            [] => Token {
                kind: Kind::End,
                span: Span { start: 0, end: 0 },
                previous_end: 0,
            },
            [token, ..] => *token,
        }
    }

    /// Whether the next three tokens are a name, a dot and `*`.
    pub fn is_at_all_of(&self) -> bool
        ensures { result ≡ is_all_of self.now }
    {
        let mut ahead = Reader {
            tokens: self.tokens,
        };
        let first = ahead.peek().kind;
        ahead.advance();
        let second = ahead.peek().kind;
        ahead.advance();
        let third = ahead.peek().kind;
        is_name_kind(first) && is_dot_kind(second) && is_star_kind(third)
    }

    /// Takes the next token. At the end it stays there.
    pub fn advance(&mut self)
        ensures { self.new ≡ after self.old }
    {
        if let [_, rest @ ..] = self.tokens {
            self.tokens = rest;
        }
    }
}
