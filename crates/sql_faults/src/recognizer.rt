//! The reading of the tokens with all that is still expected on a stack, which finds the least fault.

ghost use Rattle.std.specs.Prelude.{List, ◌≡◌, ◌++◌, OnOk, IfOk};
ghost use Rattle.sql_faults.specs.Reading.{settled, faults, whole, whole_select, order_parts, middle_parts, beginning_parts, first_fault, least_from};
ghost use Rattle.sql_faults.specs.Stack.{expects, Settles, TakesFirst};
ghost use Rattle.sql_faults.specs.Turns.{Turns, fault_of_turn};

use crate::entering::enter;
use crate::error::{ParseError, ParseKind};
use crate::expecting::{expect_all, pop};
use crate::fitting::{fault_of, is_fitting, lesser_fault};
use crate::opening::open;
use crate::part::{Expected, Optional, Part, Rule};
use sql_tokens::level::Level;
use sql_tokens::reader::Reader;
use sql_tokens::token::{Kind, Token};
use sql_tree::span::Span;
use std::alloc::{AllocError, Global};

/// What the next token must be, with the rules in front of it replaced.
fn settle(
    parts: &mut Vec<Part>,
    token: Token,
    is_all_of: bool,
) -> Result<Option<Expected>, AllocError>
    ensures { IfOk result (λ expected. Settles (settled (expects parts.old.items) token is_all_of) expected (expects parts.new.items)) }
{
    while let Some(part) = pop(parts) {
        match part {
            Part::One(expected) => return Ok(Some(expected)),
            Part::Must(rule) => {
                open(parts, rule, token, is_all_of)?;
                return Ok(first_token(parts));
            }
            Part::May(optional) => {
                if enter(parts, optional, token.kind)? {
                    return Ok(first_token(parts));
                }
            }
        }
    }
    Ok(None)
}

fn first_token(parts: &mut Vec<Part>) -> Option<Expected>
    ensures { TakesFirst (expects parts.old.items) result (expects parts.new.items) }
{
    match pop(parts) {
        None => None,
        Some(part) => match part {
            Part::One(expected) => Some(expected),
            Part::Must(_) | Part::May(_) => None,
        },
    }
}

/// What became of a token.
#[derive(Clone, Copy)]
pub enum Turn {
    Taken(Option<ParseError>),
    Stopped(Option<ParseError>),
}

fn turn_fault(turn: Turn) -> Option<ParseError>
    ensures { result ≡ fault_of_turn turn }
{
    match turn {
        Turn::Taken(least) | Turn::Stopped(least) => least,
    }
}

/// Takes one token, and keeps the least fault so far.
fn take(
    parts: &mut Vec<Part>,
    least: Option<ParseError>,
    token: Token,
    is_all_of: bool,
) -> Result<Turn, AllocError>
    ensures { IfOk result (λ turn. Turns least (settled (expects parts.old.items) token is_all_of) token turn (expects parts.new.items)) }
{
    let Some(expected) = settle(parts, token, is_all_of)? else {
        return Ok(Turn::Stopped(least));
    };
    if !is_fitting(expected, token.kind) {
        let fault = ParseError {
            place: token.span.start,
            kind: ParseKind::NotInGrammar,
        };
        return Ok(Turn::Stopped(lesser_fault(least, fault)));
    }
    match fault_of(expected, token) {
        None => Ok(Turn::Taken(least)),
        Some(fault) => Ok(Turn::Taken(lesser_fault(least, fault))),
    }
}

/// The least fault of the tokens of an expression.
pub fn expression_fault(alloc: Global, tokens: &[Token]) -> Result<Option<ParseError>, AllocError>
    ensures { IfOk result (λ fault. fault ≡ first_fault whole tokens.now) }
{
    let mut parts = Vec::new(alloc);
    expect_all(
        &mut parts,
        &[
            Part::Must(Rule::Chain(Level::Or, 0)),
            Part::One(Expected::End),
        ],
    )?;
    least_fault(parts, tokens)
}

/// The least fault of the tokens of a select.
pub fn select_fault(alloc: Global, tokens: &[Token]) -> Result<Option<ParseError>, AllocError>
    ensures { IfOk result (λ fault. fault ≡ first_fault whole_select tokens.now) }
{
    let mut parts = Vec::new(alloc);
    expect_ending(&mut parts)?;
    expect_middle(&mut parts)?;
    expect_beginning(&mut parts)?;
    least_fault(parts, tokens)
}

/// ORDER BY and what may follow it.
fn expect_ending(parts: &mut Vec<Part>) -> Result<(), AllocError>
    ensures { OnOk result (expects parts.new.items ≡ order_parts ++ expects parts.old.items) }
{
    expect_all(
        parts,
        &[
            Part::May(Optional::Order),
            Part::May(Optional::Limit),
            Part::May(Optional::Semicolon),
            Part::One(Expected::End),
        ],
    )
}

/// From FROM to HAVING.
fn expect_middle(parts: &mut Vec<Part>) -> Result<(), AllocError>
    ensures { OnOk result (expects parts.new.items ≡ middle_parts ++ expects parts.old.items) }
{
    expect_all(
        parts,
        &[
            Part::May(Optional::From),
            Part::May(Optional::Where),
            Part::May(Optional::Group),
            Part::May(Optional::Having),
        ],
    )
}

/// SELECT and its items.
fn expect_beginning(parts: &mut Vec<Part>) -> Result<(), AllocError>
    ensures { OnOk result (expects parts.new.items ≡ beginning_parts ++ expects parts.old.items) }
{
    expect_all(
        parts,
        &[
            Part::One(Expected::Select),
            Part::May(Optional::Distinct),
            Part::Must(Rule::SelectItem),
            Part::May(Optional::SelectItems),
        ],
    )
}

/// The least fault of the tokens where these parts are expected.
fn least_fault(mut parts: Vec<Part>, tokens: &[Token]) -> Result<Option<ParseError>, AllocError>
    ensures { IfOk result (λ fault. fault ≡ first_fault (expects parts.items) tokens.now) }
{
    let mut least = None;
    let mut rest = tokens;
    while let [token, tail @ ..] = rest {
        let is_all_of = Reader::new(rest).is_at_all_of();
        match take(&mut parts, least, *token, is_all_of)? {
            Turn::Stopped(least) => return Ok(least),
            Turn::Taken(found) => least = found,
        }
        rest = tail;
    }
    let end = Token {
        kind: Kind::End,
        span: Span { start: 0, end: 0 },
        previous_end: 0,
    };
    Ok(turn_fault(take(&mut parts, least, end, false)?))
}
