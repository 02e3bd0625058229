//! Tokens at places of a list.

ghost use Rattle.std.specs.Prelude.{◌≡◌, slice_get};
ghost use Rattle.std.specs.Option.{unwrap_or};
ghost use Rattle.custom_tables.specs.Calls.{is_close as closes, is_comma as parts, is_dot as dots, is_open as opens, is_quoted as quotes, is_text as is_literal, kind_in as kind_there, name_of as name_there, token_in as token_there};

use sql_tokens::token::{Kind, Token};
use sql_tree::span::Span;
use sql_tree::tree::Name;

/// The token at that place; behind the last one it is the end of the text.
pub(crate) fn token_in(tokens: &[Token], at: usize) -> Token
    ensures { result ≡ token_there tokens.now at }
{
    match tokens.get(at) {
        Some(token) => *token,
        None => Token {
            kind: Kind::End,
            span: Span { start: 0, end: 0 },
            previous_end: 0,
        },
    }
}

pub(crate) fn kind_in(tokens: &[Token], at: usize) -> Kind
    ensures { result ≡ kind_there tokens.now at }
{
    token_in(tokens, at).kind
}

/// A name's token as a name of a tree.
pub(crate) fn name_of(token: Token) -> Name
    ensures { result ≡ name_there token }
{
    Name {
        span: token.span,
        is_quoted: is_quoted(token.kind),
    }
}

pub(crate) fn is_quoted(kind: Kind) -> bool
    ensures { result ≡ quotes kind }
{
    matches!(kind, Kind::QuotedName(_))
}

pub(crate) fn is_open(kind: Kind) -> bool
    ensures { result ≡ opens kind }
{
    matches!(kind, Kind::Open)
}

pub(crate) fn is_close(kind: Kind) -> bool
    ensures { result ≡ closes kind }
{
    matches!(kind, Kind::Close)
}

pub(crate) fn is_comma(kind: Kind) -> bool
    ensures { result ≡ parts kind }
{
    matches!(kind, Kind::Comma)
}

pub(crate) fn is_dot(kind: Kind) -> bool
    ensures { result ≡ dots kind }
{
    matches!(kind, Kind::Dot)
}

pub(crate) fn is_text(kind: Kind) -> bool
    ensures { result ≡ is_literal kind }
{
    matches!(kind, Kind::Text)
}
