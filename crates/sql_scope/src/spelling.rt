//! The texts that spans and names spell.

ghost use Rattle.std.specs.Prelude.{◌≡◌, ◌++◌, ◌∷◌, ℕ, List, IfOk};
ghost use Rattle.std.specs.Str.Lossy.{utf8_lossy};
ghost use Rattle.sql_scope.specs.Spelling.{piece, inside, single as single_of, unquoted, span_text as text_of_span, literal_text as text_of_literal, name_text as text_of_name, same_name};

use osq_value::{NoMemory, Str};
use sql_tree::span::Span;
use sql_tree::tree::Name;
use std::alloc::Global;

/// The two names are one, ASCII case aside.
#[tactic(auto, unfolding(crate::specs::Spelling::same_name))]
pub fn is_named(name: &str, other: &str) -> bool
    ensures { result ≡ same_name name.now other.now }
{
    name.eq_ignore_ascii_case(other)
}

/// The bytes of a span.
fn bytes_at(text: &[u8], span: Span) -> &[u8]
    ensures { result.now ≡ piece text.now span }
{
    let end = span.end.min(text.len());
    let start = span.start.min(end);
    &text[start..end]
}

/// The bytes between the first and the last.
fn between_quotes(bytes: &[u8]) -> &[u8]
    ensures { result.now ≡ inside bytes.now }
{
    if bytes.len() < 2 {
        return &[];
    }
    &bytes[1..bytes.len() - 1]
}

/// One byte more. The answer is whether the next byte is left out.
fn push_single(single: &mut Vec<u8>, quote: u8, is_after: bool, byte: u8) -> Result<bool, NoMemory>
    ensures { IfOk result (λ after. (rest : List ℕ) → single.new.items ++ single_of quote after rest ≡ single.old.items ++ single_of quote is_after (byte ∷ rest)) }
{
    if is_after {
        return Ok(false);
    }
    single.push(byte)?;
    Ok(byte == quote)
}

/// The bytes between quotes, of each two of which that stand together the second is left out.
fn without_quotes(alloc: Global, quote: u8, bytes: &[u8]) -> Result<Vec<u8>, NoMemory>
    ensures { IfOk result (λ v. v.items ≡ unquoted quote bytes.now) }
{
    let inner = between_quotes(bytes);
    let mut single = Vec::with_capacity(alloc, inner.len())?;
    let mut is_after = false;
    for byte in inner {
        is_after = push_single(&mut single, quote, is_after, *byte)?;
    }
    Ok(single)
}

/// The text of bytes.
fn text_from(alloc: Global, bytes: &[u8]) -> Result<Str, NoMemory>
    ensures { IfOk result (λ made. made ≡ utf8_lossy bytes.now) }
{
    Ok(Str::from_string(String::from_utf8_lossy(alloc, bytes)?))
}

/// The text of a span.
#[tactic(auto, unfolding(crate::specs::Spelling::span_text))]
pub fn span_text(alloc: Global, text: &str, span: Span) -> Result<Str, NoMemory>
    ensures { IfOk result (λ made. made ≡ text_of_span text.now span) }
{
    text_from(alloc, bytes_at(text.as_bytes(), span))
}

/// The text of a literal between single quotes.
#[tactic(auto, unfolding(crate::specs::Spelling::literal_text))]
pub(crate) fn literal_text(alloc: Global, text: &str, span: Span) -> Result<Str, NoMemory>
    ensures { IfOk result (λ made. made ≡ text_of_literal text.now span) }
{
    let bytes = bytes_at(text.as_bytes(), span);
    let single = without_quotes(alloc, b'\'', bytes)?;
    text_from(alloc, &single)
}

/// The text of a name, without its quotes.
#[tactic(auto, unfolding(crate::specs::Spelling::name_text))]
pub fn name_text(alloc: Global, text: &str, name: Name) -> Result<Str, NoMemory>
    ensures { IfOk result (λ made. made ≡ text_of_name text.now name) }
{
    let bytes = bytes_at(text.as_bytes(), name.span);
    if name.is_quoted {
        let single = without_quotes(alloc, b'"', bytes)?;
        text_from(alloc, &single)
    } else {
        text_from(alloc, bytes)
    }
}
