//! What a token is to the selects that a nested text joins.

ghost use Rattle.std.specs.Prelude.{◌≡◌};
ghost use Rattle.sql_tokens.specs.Tokens.{next};
ghost use Rattle.sql_nested.specs.Roles.{role_of_clause, role_of as role_in, piece, is_word, is_union as is_union_of, is_all as is_all_of, cuts as cuts_at, opens_part as opens_part_at};

use sql_tokens::reader::Reader;
use sql_tokens::token::{Clause, Kind, Token};
use sql_tree::span::Span;

/// What a token is to the selects that a nested text joins.
#[derive(Clone, Copy)]
pub enum Role {
    Open,
    Close,
    Semicolon,
    Comma,
    Select,
    From,
    Join,
    /// What begins with ORDER BY stands behind all selects.
    Order,
    /// So does LIMIT, behind which stands no table's name either.
    Limit,
    /// Another word behind which stands no table's name.
    Word,
    /// A plain name, which UNION and ALL are to a SELECT alone.
    Name,
    QuotedName,
    /// What says nothing here.
    Inner,
}

fn role_of_clause(clause: Clause) -> Role
    ensures { result ≡ role_of_clause clause }
{
    match clause {
        Clause::Select => Role::Select,
        Clause::From => Role::From,
        Clause::Where | Clause::By | Clause::Having | Clause::Offset => Role::Word,
        Clause::Order => Role::Order,
        Clause::Limit => Role::Limit,
        Clause::Join => Role::Join,
        Clause::Group
        | Clause::Asc
        | Clause::Desc
        | Clause::Inner
        | Clause::Cross
        | Clause::Left
        | Clause::Outer
        | Clause::On
        | Clause::Using => Role::Inner,
    }
}

/// The role of a token of that kind.
pub fn role_of(kind: Kind) -> Role
    ensures { result ≡ role_in kind }
{
    match kind {
        Kind::Open => Role::Open,
        Kind::Close => Role::Close,
        Kind::Semicolon => Role::Semicolon,
        Kind::Comma => Role::Comma,
        Kind::Clause(clause) => role_of_clause(clause),
        Kind::Name(_) => Role::Name,
        Kind::QuotedName(_) => Role::QuotedName,
        _ => Role::Inner,
    }
}

/// The bytes of a span.
pub(crate) fn bytes_at(text: &[u8], span: Span) -> &[u8]
    ensures { result.now ≡ piece text.now span }
{
    let end = span.end.min(text.len());
    let start = span.start.min(end);
    &text[start..end]
}

fn is_word(text: &[u8], word: &[u8], token: Token) -> bool
    ensures { result ≡ is_word text.now word.now token }
{
    matches!(token.kind, Kind::Name(_)) && bytes_at(text, token.span).eq_ignore_ascii_case(word)
}

/// The word UNION.
#[tactic(auto, unfolding(crate::specs::Roles::is_union))]
pub fn is_union(text: &[u8], token: Token) -> bool
    ensures { result ≡ is_union_of text.now token }
{
    is_word(text, b"union", token)
}

/// The word ALL.
#[tactic(auto, unfolding(crate::specs::Roles::is_all))]
pub fn is_all(text: &[u8], token: Token) -> bool
    ensures { result ≡ is_all_of text.now token }
{
    is_word(text, b"all", token)
}

/// The token behind which these stand.
pub(crate) fn next_of(tokens: &[Token]) -> Token
    ensures { result ≡ next tokens.now }
{
    Reader::new(tokens).peek()
}

/// The token is UNION with ALL behind it, which cuts a chain of selects.
#[tactic(auto, unfolding(crate::specs::Roles::cuts))]
pub(crate) fn cuts(text: &[u8], token: Token, rest: &[Token]) -> bool
    ensures { result ≡ cuts_at text.now token rest.now }
{
    is_union(text, token) && is_all(text, next_of(rest))
}

/// SELECT stands in front, so that the parenthesis before opens a part.
pub(crate) fn opens_part(rest: &[Token]) -> bool
    ensures { result ≡ opens_part_at rest.now }
{
    matches!(role_of(next_of(rest).kind), Role::Select)
}
