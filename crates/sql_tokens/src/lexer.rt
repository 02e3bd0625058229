//! The tokens of a text.

ghost use Rattle.std.specs.Prelude.{◌≡◌, ◌≤◌, ◌∷◌, ◌-◌, length, take, option_map, IfOk};
ghost use Rattle.sql_tokens.specs.Lexing.{after_line, after_comment, past_blanks, past_one, is_blank, is_name_byte, is_name_start, after_name, after_digits, after_quote, before, decimal_from, within, double_sign, single_sign, sign_piece, text_piece, quoted_piece, piece, token_at, tokens_of};

use crate::token::{Kind, Token};
use crate::words::{kind_of_name, word};
use sql_tree::span::Span;
use std::alloc::{AllocError, Global};

/// What follows the line feed, or nothing where there is none.
fn after_line(text: &[u8]) -> &[u8]
    ensures { result.now ≡ after_line text.now }
{
    let mut rest = text;
    while let [byte, tail @ ..] = rest {
        rest = tail;
        if *byte == b'\n' {
            break;
        }
    }
    rest
}

/// What follows the sign that closes a comment, or nothing where there is none.
fn after_comment(text: &[u8]) -> &[u8]
    ensures { result.now ≡ after_comment text.now }
{
    let mut rest = text;
    loop {
        match rest {
            [] => return rest,
            [b'*', b'/', tail @ ..] => return tail,
            [_, tail @ ..] => rest = tail,
        }
    }
}

/// What follows the blank or the comment in front, where one stands there.
fn past_one(text: &[u8]) -> Option<&[u8]>
    ensures { option_map (λ rest. rest.now) result ≡ past_one text.now }
{
    let [first, tail @ ..] = text else {
        return None;
    };
    if is_blank(*first) {
        return Some(tail);
    }
    let [second, rest @ ..] = tail else {
        return None;
    };
    if *first == b'-' && *second == b'-' {
        return Some(after_line(rest));
    }
    if *first == b'/' && *second == b'*' {
        return Some(after_comment(rest));
    }
    None
}

fn is_blank(byte: u8) -> bool
    ensures { result ≡ is_blank byte }
{
    byte == b' ' || byte == b'\t' || byte == b'\n' || byte == b'\r'
}

/// What follows blanks and comments.
fn past_blanks(text: &[u8]) -> &[u8]
    ensures { result.now ≡ past_blanks (length text.now) text.now }
{
    let mut rest = text;
    while let Some(next) = past_one(rest) {
        rest = next;
    }
    rest
}

fn is_name_start(byte: u8) -> bool
    ensures { result ≡ is_name_start byte }
{
    byte.is_ascii_alphabetic() || byte == b'_'
}

fn is_name_byte(byte: u8) -> bool
    ensures { result ≡ is_name_byte byte }
{
    byte.is_ascii_alphanumeric() || byte == b'_'
}

/// What follows the letters, digits and `_` in front.
fn after_name(text: &[u8]) -> &[u8]
    ensures { result.now ≡ after_name text.now }
{
    let mut rest = text;
    while let [byte, tail @ ..] = rest {
        if !is_name_byte(*byte) {
            break;
        }
        rest = tail;
    }
    rest
}

/// What follows the digits in front.
fn after_digits(text: &[u8]) -> &[u8]
    ensures { result.now ≡ after_digits text.now }
{
    let mut rest = text;
    while let [byte, tail @ ..] = rest {
        if !byte.is_ascii_digit() {
            break;
        }
        rest = tail;
    }
    rest
}

/// What follows the quote that closes, behind the one that opens. A quote inside is written twice.
fn after_quote(quote: u8, text: &[u8]) -> Option<&[u8]>
    ensures { option_map (λ rest. rest.now) result ≡ after_quote quote text.now }
{
    let mut rest = text;
    while let [byte, tail @ ..] = rest {
        if *byte != quote {
            rest = tail;
            continue;
        }
        let [next, more @ ..] = tail else {
            return Some(tail);
        };
        if *next != quote {
            return Some(tail);
        }
        rest = more;
    }
    None
}

/// The bytes of a text before its rest.
fn before<'a>(text: &'a [u8], rest: &[u8]) -> &'a [u8]
    ensures { result.now ≡ before text.now rest.now }
{
    let (front, _) = text.split_at(text.len().saturating_sub(rest.len()));
    front
}

/// A number of so many tenths and more is above 9223372036854775807.
const WIDE_TENTHS: u64 = 922_337_203_685_477_581;

/// The number that digits write, or nothing where it is above 9223372036854775807.
fn number(digits: &[u8]) -> Option<i64>
    ensures { result ≡ within (decimal_from 0 digits.now) }
{
    let mut value: u64 = 0;
    for digit in digits {
        if value >= WIDE_TENTHS {
            return None;
        }
        value = 10 * value + u64::from(digit.saturating_sub(b'0'));
    }
    signed(value)
}

fn signed(value: u64) -> Option<i64>
    ensures { result ≡ within value }
{
    i64::try_from(value).ok()
}

/// One token's kind, and what follows the token.
#[derive(Clone, Copy)]
struct Lexeme<'a> {
    kind: Kind,
    rest: &'a [u8],
}

/// A text, behind the quote that opens it.
fn text_piece(tail: &[u8]) -> Lexeme<'_>
    ensures kind { result.kind ≡ (text_piece (after_quote 39 tail.now)).0 }
    ensures rest { result.rest.now ≡ (text_piece (after_quote 39 tail.now)).1 }
{
    match after_quote(b'\'', tail) {
        Some(rest) => Lexeme {
            kind: Kind::Text,
            rest,
        },
        None => Lexeme {
            kind: Kind::Bad,
            rest: &[],
        },
    }
}

/// A quoted name, behind the quote that opens it.
fn quoted_piece(tail: &[u8]) -> Lexeme<'_>
    ensures kind { result.kind ≡ (quoted_piece tail.now (after_quote 34 tail.now)).0 }
    ensures rest { result.rest.now ≡ (quoted_piece tail.now (after_quote 34 tail.now)).1 }
{
    match after_quote(b'"', tail) {
        Some(rest) => Lexeme {
            kind: Kind::QuotedName(word(inside(tail, rest))),
            rest,
        },
        None => Lexeme {
            kind: Kind::Bad,
            rest: &[],
        },
    }
}

/// The bytes of a text before its rest, without the last one.
fn inside<'a>(text: &'a [u8], rest: &[u8]) -> &'a [u8]
    ensures { result.now ≡ take (length text.now - length rest.now - 1) text.now }
{
    let length = text.len().saturating_sub(rest.len()).saturating_sub(1);
    let (front, _) = text.split_at(length);
    front
}

/// A sign of two bytes.
fn double_sign(first: u8, second: u8) -> Option<Kind>
    ensures { result ≡ double_sign first second }
{
    if first == b'=' && second == b'=' {
        return Some(Kind::Equal);
    }
    if first == b'<' && second == b'>' {
        return Some(Kind::NotEqual);
    }
    if first == b'!' && second == b'=' {
        return Some(Kind::NotEqual);
    }
    if first == b'<' && second == b'=' {
        return Some(Kind::LessEqual);
    }
    if first == b'>' && second == b'=' {
        return Some(Kind::GreaterEqual);
    }
    if first == b'|' && second == b'|' {
        return Some(Kind::Concat);
    }
    None
}

/// A sign of one byte. Another byte begins no token.
fn single_sign(byte: u8) -> Kind
    ensures { result ≡ single_sign byte }
{
    match byte {
        b',' => Kind::Comma,
        b'.' => Kind::Dot,
        b'(' => Kind::Open,
        b')' => Kind::Close,
        b'*' => Kind::Star,
        b'/' => Kind::Slash,
        b'%' => Kind::Percent,
        b'+' => Kind::Plus,
        b'-' => Kind::Minus,
        b'=' => Kind::Equal,
        b'<' => Kind::Less,
        b'>' => Kind::Greater,
        b';' => Kind::Semicolon,
        _ => Kind::Bad,
    }
}

fn sign_piece(first: u8, tail: &[u8]) -> Lexeme<'_>
    ensures kind { result.kind ≡ (sign_piece first tail.now).0 }
    ensures rest { result.rest.now ≡ (sign_piece first tail.now).1 }
{
    let [second, more @ ..] = tail else {
        return Lexeme {
            kind: single_sign(first),
            rest: tail,
        };
    };
    match double_sign(first, *second) {
        Some(kind) => Lexeme { kind, rest: more },
        None => Lexeme {
            kind: single_sign(first),
            rest: tail,
        },
    }
}

/// The first token of a text that begins with no blank, from its first byte on.
#[tactic(auto, unfolding(crate::specs::Lexing::piece))]
fn piece<'a>(text: &'a [u8], first: u8, tail: &'a [u8]) -> Lexeme<'a>
    requires { text.now ≡ first ∷ tail.now }
    ensures kind { result.kind ≡ (piece first tail.now).0 }
    ensures rest { result.rest.now ≡ (piece first tail.now).1 }
{
    if is_name_start(first) {
        let rest = after_name(tail);
        return Lexeme {
            kind: kind_of_name(before(text, rest)),
            rest,
        };
    }
    if first.is_ascii_digit() {
        let rest = after_digits(tail);
        return Lexeme {
            kind: Kind::Number(number(before(text, rest))),
            rest,
        };
    }
    if first == b'"' {
        return quoted_piece(tail);
    }
    if first == b'\'' {
        return text_piece(tail);
    }
    sign_piece(first, tail)
}

/// All tokens of a text. The last is its end.
pub fn tokens_of(alloc: Global, text: &[u8]) -> Result<Vec<Token>, AllocError>
    ensures { IfOk result (λ tokens. tokens.items ≡ tokens_of text.now) }
{
    let mut tokens = Vec::new(alloc);
    let mut place = 0;
    let mut rest = text;
    loop {
        let from = past_blanks(rest);
        let start = place + (rest.len() - from.len());
        let [first, tail @ ..] = from else {
            tokens.push(token(Kind::End, start, start, place))?;
            return Ok(tokens);
        };
        let piece = piece(from, *first, tail);
        let end = start + (from.len() - piece.rest.len());
        tokens.push(token(piece.kind, start, end, place))?;
        place = end;
        rest = piece.rest;
    }
}

fn token(kind: Kind, start: usize, end: usize, previous_end: usize) -> Token
    ensures { result ≡ token_at kind start end previous_end }
{
    Token {
        kind,
        span: Span { start, end },
        previous_end,
    }
}
