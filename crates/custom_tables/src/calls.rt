//! The calls of `regex_match` in a text's tokens.

ghost use Rattle.std.specs.Prelude.{◌≡◌, ◌≤◌, if◌then◌else◌, Some, None, IfOk};
ghost use Rattle.sql_names.specs.Least.{lesser as lesser_of};
ghost use Rattle.sql_names.specs.Unmeant.{begins_by_number as begins_so};
ghost use Rattle.custom_tables.specs.Calls.{begins_call as begins_so_by_word, call_fault as fault_of_calls, call_fault_at as fault_of_call, call_of as call_there, calls_of as calls_there, column_at as column_there, fault_at as fault_there, group_of as group_named, has_rest as rest_there, is_call as call_formed, is_number as numbers, is_number_name as number_named, is_word as word_there, name_fault_at as fault_of_name};

use crate::call::{Call, CallList};
use crate::tokens::{
    is_close, is_comma, is_dot, is_open, is_quoted, is_text, kind_in, name_of, token_in,
};
use osq_value::{NoMemory, Sequence};
use sql_scope::spelling::{is_named, name_text};
use sql_tokens::reader::is_name_kind;
use sql_tokens::token::{Kind, Token};
use sql_tree::span::Span;
use std::alloc::Global;

/// The greatest group that a call may name.
const MOST_GROUP: i64 = 99;

fn is_number(kind: Kind) -> bool
    ensures { result ≡ numbers kind }
{
    matches!(kind, Kind::Number(_))
}

/// The token is the name `regex_match`, with quotes or without.
fn is_word(alloc: Global, text: &str, token: Token) -> Result<bool, NoMemory>
    ensures { IfOk result (λ is. is ≡ word_there text.now token) }
{
    if !is_name_kind(token.kind) {
        return Ok(false);
    }
    let name = name_text(alloc, text, name_of(token))?;
    Ok(is_named(name.as_str(), "regex_match"))
}

/// The tokens begin with that name and a parenthesis.
fn begins_call(alloc: Global, text: &str, tokens: &[Token]) -> Result<bool, NoMemory>
    ensures { IfOk result (λ is. is ≡ begins_so_by_word text.now tokens.now) }
{
    if !is_open(kind_in(tokens, 1)) {
        return Ok(false);
    }
    is_word(alloc, text, token_in(tokens, 0))
}

/// The place of the column's name in a call's tokens.
fn column_at(tokens: &[Token]) -> usize
    ensures place { result ≡ column_there tokens.now }
    ensures near { result ≤ 4 }
{
    if is_dot(kind_in(tokens, 3)) { 4 } else { 2 }
}

/// What a call has behind its column.
fn has_rest(tokens: &[Token], at: usize) -> bool
    requires { at ≤ 4 }
    ensures { result ≡ rest_there tokens.now at }
{
    let has_pattern = is_comma(kind_in(tokens, at + 1)) & is_text(kind_in(tokens, at + 2));
    let has_group = is_comma(kind_in(tokens, at + 3)) & is_number(kind_in(tokens, at + 4));
    has_pattern & has_group & is_close(kind_in(tokens, at + 5))
}

/// The call is of the one form.
fn is_call(tokens: &[Token]) -> bool
    ensures { result ≡ call_formed tokens.now }
{
    let is_column = is_name_kind(kind_in(tokens, 2));
    let is_plain = !is_dot(kind_in(tokens, 3));
    let is_of_table = is_name_kind(kind_in(tokens, 4));
    is_column & (is_plain | is_of_table) & has_rest(tokens, column_at(tokens))
}

/// The group that a number names, where a call may name it.
fn group_of(kind: Kind) -> Option<usize>
    ensures { result ≡ group_named kind }
{
    match kind {
        Kind::Number(Some(number)) if 0 <= number && number <= MOST_GROUP => Some(number as usize),
        _ => None,
    }
}

/// The call that the tokens begin with.
fn call_of(tokens: &[Token]) -> Call
    ensures { result ≡ call_there tokens.now }
{
    let at = column_at(tokens);
    let table = if is_dot(kind_in(tokens, 3)) {
        Some(name_of(token_in(tokens, 2)))
    } else {
        None
    };
    Call {
        table,
        column: name_of(token_in(tokens, at)),
        pattern: token_in(tokens, at + 2).span,
        group: group_of(kind_in(tokens, at + 4)).unwrap_or(0),
        span: Span {
            start: token_in(tokens, 0).span.start,
            end: token_in(tokens, at + 5).span.end,
        },
    }
}

/// The calls of a text, in their order. Each is of the form where `call_fault` finds nothing.
pub fn calls_of(alloc: Global, text: &str, tokens: &[Token]) -> Result<CallList, NoMemory>
    ensures { IfOk result (λ calls. calls ≡ calls_there text.now tokens.now) }
{
    let mut calls = Sequence::new(alloc);
    let mut rest = tokens;
    while let [_, tail @ ..] = rest {
        if begins_call(alloc, text, rest)? {
            calls.push(call_of(rest))?;
        }
        rest = tail;
    }
    Ok(calls)
}

/// The place where a call isn't of the form, or names a group above 99.
fn call_fault_at(tokens: &[Token]) -> Option<usize>
    ensures { result ≡ fault_of_call tokens.now }
{
    if !is_call(tokens) {
        return Some(token_in(tokens, 0).span.start);
    }
    let number = token_in(tokens, column_at(tokens) + 4);
    match group_of(number.kind) {
        Some(_) => None,
        None => Some(number.span.start),
    }
}

/// Whether a name begins with `#`.
fn begins_by_number(name: &[u8]) -> bool
    ensures { result ≡ begins_so name.now }
{
    match name {
        [first, ..] => *first == b'#',
        [] => false,
    }
}

/// The token is a quoted name that begins with `#`.
fn is_number_name(alloc: Global, text: &str, token: Token) -> Result<bool, NoMemory>
    ensures { IfOk result (λ is. is ≡ number_named text.now token) }
{
    if !is_quoted(token.kind) {
        return Ok(false);
    }
    let name = name_text(alloc, text, name_of(token))?;
    Ok(begins_by_number(name.as_str().as_bytes()))
}

fn name_fault_at(alloc: Global, text: &str, token: Token) -> Result<Option<usize>, NoMemory>
    ensures { IfOk result (λ place. place ≡ fault_of_name text.now token) }
{
    if is_number_name(alloc, text, token)? {
        Ok(Some(token.span.start))
    } else {
        Ok(None)
    }
}

/// The lesser of two places.
fn lesser(place: Option<usize>, other: Option<usize>) -> Option<usize>
    ensures { result ≡ lesser_of place other }
{
    match place {
        None => other,
        Some(place) => match other {
            None => Some(place),
            Some(other) => Some(if place <= other { place } else { other }),
        },
    }
}

fn fault_at(alloc: Global, text: &str, tokens: &[Token]) -> Result<Option<usize>, NoMemory>
    ensures { IfOk result (λ place. place ≡ fault_there text.now tokens.now) }
{
    let of_name = name_fault_at(alloc, text, token_in(tokens, 0))?;
    if begins_call(alloc, text, tokens)? {
        Ok(lesser(of_name, call_fault_at(tokens)))
    } else {
        Ok(lesser(of_name, None))
    }
}

/// The least place at which the name `regex_match` before a parenthesis begins no call of the form, at which a call names a group above 99,
/// or at which a quoted name begins with `#`.
#[tactic(auto, unfolding(crate::specs::Calls::call_fault))]
pub fn call_fault(alloc: Global, text: &str, tokens: &[Token]) -> Result<Option<usize>, NoMemory>
    ensures { IfOk result (λ place. place ≡ fault_of_calls text.now tokens.now) }
{
    let mut place = None;
    let mut rest = tokens;
    while let [_, tail @ ..] = rest {
        place = lesser(place, fault_at(alloc, text, rest)?);
        rest = tail;
    }
    Ok(place)
}
