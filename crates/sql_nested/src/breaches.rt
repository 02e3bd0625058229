//! The first breach of the rules of a nested text, by place.

ghost use Rattle.std.specs.Prelude.{◌≡◌, ◌∷◌, List, IfOk};
ghost use Rattle.sql_nested.specs.Breaches.{unless, breach_of_part, breach_of_open, is_numbered as is_numbered_in, is_after_union, breach_of_name, breach_of_end, breach_of_order, breach_at as breach_there, first_breach as first_breach_of};
ghost use Rattle.sql_nested.specs.declared.outlook.Look.{Look};

use crate::level::{Enclosure, MAX_PARTS, Standing, is_chain_level};
use crate::outlook::{Look, looks};
use crate::role::{Role, bytes_at, is_all, is_union, next_of, opens_part, role_of};
use crate::stack::Stack;
use osq_value::NoMemory;
use sql_faults::error::{ParseError, ParseKind};
use sql_tokens::token::Token;
use std::alloc::Global;

fn unless(holds: bool, fault: ParseKind) -> Option<ParseKind>
    ensures { result ≡ unless holds fault }
{
    if holds { None } else { Some(fault) }
}

/// A part stands where a table's name may, and at most eight stand inside one another.
fn breach_of_part(standing: &Standing) -> Option<ParseKind>
    ensures { result ≡ breach_of_part standing.now }
{
    if !standing.may_name_table() {
        return Some(ParseKind::NotInGrammar);
    }
    unless(standing.level.depth < MAX_PARTS, ParseKind::TooDeep)
}

/// Each parenthesis is closed.
fn breach_of_open(standing: &Standing, rest: &[Token], look: Look) -> Option<ParseKind>
    ensures { result ≡ breach_of_open standing.now rest.now look }
{
    if !look.is_closed {
        return Some(ParseKind::NotInGrammar);
    }
    if opens_part(rest) {
        breach_of_part(standing)
    } else {
        None
    }
}

/// A name between quotes begins with `#`, as those do that stand for parts.
#[tactic(auto, unfolding(crate::specs::Breaches::is_numbered))]
fn is_numbered(text: &[u8], token: Token) -> bool
    ensures { result ≡ is_numbered_in text.now token }
{
    match bytes_at(text, token.span).get(1) {
        Some(byte) => *byte == b'#',
        None => false,
    }
}

fn is_after_union(text: &[u8], standing: &Standing) -> bool
    ensures { result ≡ is_after_union text.now standing.now }
{
    match standing.before() {
        Some(before) => is_union(text, before),
        None => false,
    }
}

/// UNION stands before ALL in a chain, and ALL behind UNION alone.
#[tactic(auto, unfolding(crate::specs::Breaches::breach_of_name))]
fn breach_of_name(
    text: &[u8],
    standing: &Standing,
    token: Token,
    rest: &[Token],
) -> Option<ParseKind>
    ensures { result ≡ breach_of_name text.now standing.now token rest.now }
{
    if is_union(text, token) {
        let is_joining = is_all(text, next_of(rest)) && is_chain_level(standing.level.enclosure);
        return unless(is_joining, ParseKind::NotInGrammar);
    }
    if is_all(text, token) {
        return unless(is_after_union(text, standing), ParseKind::NotInGrammar);
    }
    None
}

/// A semicolon stands in no part, and before no further select of the text.
fn breach_of_end(enclosure: Enclosure, look: Look) -> Option<ParseKind>
    ensures { result ≡ breach_of_end enclosure look }
{
    match enclosure {
        Enclosure::Text => unless(!look.is_cut, ParseKind::NotInGrammar),
        Enclosure::Part => Some(ParseKind::NotInGrammar),
        Enclosure::Plain => None,
    }
}

/// ORDER BY and LIMIT stand in no chain of several selects.
fn breach_of_order(standing: &Standing, look: Look) -> Option<ParseKind>
    ensures { result ≡ breach_of_order standing.now look }
{
    let is_cut = standing.level.is_cut || look.is_cut;
    let is_among_selects = is_chain_level(standing.level.enclosure) && is_cut;
    unless(!is_among_selects, ParseKind::NotInGrammar)
}

/// The breach of a token there, with these behind it.
#[tactic(auto, unfolding(crate::specs::Breaches::breach_at))]
fn breach_at(
    text: &[u8],
    standing: &Standing,
    token: Token,
    rest: &[Token],
    look: Look,
) -> Option<ParseKind>
    ensures { result ≡ breach_there text.now standing.now token rest.now look }
{
    match role_of(token.kind) {
        Role::Open => breach_of_open(standing, rest, look),
        Role::Close => unless(!standing.is_outermost(), ParseKind::NotInGrammar),
        Role::Semicolon => breach_of_end(standing.level.enclosure, look),
        Role::Order | Role::Limit => breach_of_order(standing, look),
        Role::Name => breach_of_name(text, standing, token, rest),
        Role::QuotedName => unless(!is_numbered(text, token), ParseKind::NotInGrammar),
        _ => None,
    }
}

/// Takes the look that stands in front.
fn take_look(looks: &mut Stack<Look>) -> Look
    ensures { (look : Look) (others : List Look) → looks.old ≡ look ∷ others → (result ≡ look) × (looks.new ≡ others) }
{
    looks.pop().unwrap_or(Look {
        is_closed: false,
        is_cut: false,
    })
}

/// The first breach of the rules of a nested text with these tokens.
///
/// Each parenthesis closes another. A part, which is SELECT in parentheses, stands where FROM may name a
/// table, and no nine of them stand inside one another. UNION ALL stands between the selects of the text
/// or of a part alone, and ORDER BY and LIMIT stand in no chain of several selects. A semicolon stands
/// behind all selects of the text. No name between quotes begins with `#`.
pub fn first_breach(
    alloc: Global,
    text: &[u8],
    tokens: &[Token],
) -> Result<Option<ParseError>, NoMemory>
    ensures { IfOk result (λ breach. breach ≡ first_breach_of text.now tokens.now) }
{
    let mut looks = looks(alloc, text, tokens)?;
    let mut standing = Standing::start(alloc);
    let mut rest = tokens;
    while let [token, tail @ ..] = rest {
        let look = take_look(&mut looks);
        if let Some(kind) = breach_at(text, &standing, *token, tail, look) {
            return Ok(Some(ParseError {
                place: token.span.start,
                kind,
            }));
        }
        standing.pass(text, *token, tail)?;
        rest = tail;
    }
    Ok(None)
}
