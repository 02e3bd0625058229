//! Whether a token is what was expected, and the faults that it then has.

ghost use Rattle.std.specs.Prelude.{◌≡◌, Some};
ghost use Rattle.sql_faults.specs.Reading.{fits, fault_at, name_fault, untyped, at_limit, lesser, wide, type_fault, found};
ghost use Rattle.sql_faults.specs.Calls.{type_of};
ghost use Rattle.sql_faults.specs.Stack.{found_fault, head_fault};

use crate::arguments::{is_allowed_call, is_function, type_of_word};
use crate::error::{ParseError, ParseKind};
use crate::part::Expected;
use sql_tokens::token::{Clause, Kind, MAX_DEPTH, MAX_OPERATORS, Token, Word};

#[tactic(auto, unfolding(crate::specs::Reading::fits))]
pub(crate) fn is_fitting(expected: Expected, kind: Kind) -> bool
    ensures { result ≡ fits expected kind }
{
    match expected {
        Expected::Chosen | Expected::Nesting(_) | Expected::Operator(_) | Expected::Call(_, _, _) =>
            true,
        Expected::Number => matches!(kind, Kind::Number(_)),
        Expected::Dot => matches!(kind, Kind::Dot),
        Expected::Star => matches!(kind, Kind::Star),
        Expected::Open => matches!(kind, Kind::Open),
        Expected::Select => matches!(kind, Kind::Clause(Clause::Select)),
        Expected::By => matches!(kind, Kind::Clause(Clause::By)),
        Expected::Join => matches!(kind, Kind::Clause(Clause::Join)),
        Expected::Name | Expected::Type => matches!(kind, Kind::Name(_) | Kind::QuotedName(_)),
        Expected::EndOfCall(_, _, _) => matches!(kind, Kind::Close),
        Expected::Parenthesis(_) => matches!(kind, Kind::Open),
        Expected::Close => matches!(kind, Kind::Close),
        Expected::And => matches!(kind, Kind::And),
        Expected::As => matches!(kind, Kind::As),
        Expected::End => matches!(kind, Kind::End),
        Expected::Nothing => false,
    }
}

/// The fault of a token that was expected.
#[tactic(auto, unfolding(crate::specs::Reading::found))]
pub(crate) fn fault_of(expected: Expected, token: Token) -> Option<ParseError>
    ensures { result ≡ found_fault expected token }
{
    match expected {
        Expected::Number => fault_of_number(token),
        Expected::Nesting(depth) | Expected::Parenthesis(depth) => too_deep(
            depth, MAX_DEPTH, token,
        ),
        Expected::Operator(count) => too_deep(count, MAX_OPERATORS, token),
        Expected::Call(_, place, word) if !is_function(word) => fault_of_name(place),
        Expected::Call(depth, _, _) => too_deep(depth, MAX_DEPTH, token),
        Expected::EndOfCall(place, word, shape) if !is_allowed_call(word, shape) => fault_of_name(
            place,
        ),
        Expected::Type => fault_of_type_name(token),
        Expected::Chosen
        | Expected::Close
        | Expected::And
        | Expected::As
        | Expected::Name
        | Expected::Dot
        | Expected::Star
        | Expected::Open
        | Expected::Select
        | Expected::By
        | Expected::Join
        | Expected::EndOfCall(_, _, _)
        | Expected::End
        | Expected::Nothing => None,
    }
}

/// The fault of a number that is too wide.
#[tactic(auto, unfolding(crate::specs::Reading::wide))]
fn fault_of_number(token: Token) -> Option<ParseError>
    ensures { result ≡ head_fault (wide token token.kind) }
{
    match token.kind {
        Kind::Number(None) => fault_here(token, ParseKind::NumberTooWide),
        _ => None,
    }
}

/// The fault of a token where a type's name stands.
#[tactic(auto, unfolding(crate::specs::Reading::type_fault))]
fn fault_of_type_name(token: Token) -> Option<ParseError>
    ensures { result ≡ head_fault (type_fault token token.kind) }
{
    match token.kind {
        Kind::Name(word) | Kind::QuotedName(word) => fault_of_type(token, word),
        _ => None,
    }
}

/// The fault of a name that is not that of a type.
fn fault_of_type(token: Token, word: Word) -> Option<ParseError>
    ensures { result ≡ head_fault (untyped token (type_of word)) }
{
    match type_of_word(word) {
        Some(_) => None,
        None => fault_here(token, ParseKind::NotInGrammar),
    }
}

fn fault_here(token: Token, kind: ParseKind) -> Option<ParseError>
    ensures { result ≡ Some (fault_at token kind) }
{
    Some(ParseError {
        place: token.span.start,
        kind,
    })
}

fn fault_of_name(place: usize) -> Option<ParseError>
    ensures { result ≡ Some (name_fault place) }
{
    Some(ParseError {
        place,
        kind: ParseKind::NotInGrammar,
    })
}

/// A fault where the limit is reached.
fn too_deep(count: usize, limit: usize, token: Token) -> Option<ParseError>
    ensures { result ≡ head_fault (at_limit count limit token) }
{
    if count < limit {
        None
    } else {
        fault_here(token, ParseKind::TooDeep)
    }
}

/// The fault of lesser place, the first of two at one place.
pub(crate) fn lesser_fault(least: Option<ParseError>, fault: ParseError) -> Option<ParseError>
    ensures { result ≡ lesser least fault }
{
    match least {
        Some(least) if fault.place >= least.place => Some(least),
        _ => Some(fault),
    }
}
