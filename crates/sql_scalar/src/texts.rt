//! Functions on the texts of values.
ghost use Rattle.std.specs.Prelude.{◌≡◌, ◌≤◌, ◌++◌, length, map, reverse, IfOk, OnOk};
ghost use Rattle.std.specs.Char.{to_ascii_lowercase, to_ascii_uppercase};
ghost use Rattle.std.specs.Fmt.{signed_decimal};
ghost use Rattle.std.specs.Option.{option_map};
ghost use Rattle.std.specs.String.{string_bytes};
ghost use Rattle.sql_scalar.specs.Bounds.{IsWithin};
ghost use Rattle.sql_scalar.specs.declared.texts.TheConstants.{MOST_BYTES};
ghost use Rattle.sql_scalar.specs.Texts.{behind_spaces, concat_of, decimal_of, length_of, lower_of, text_of, text_with, trim_of, trimmed, upper_of};

use crate::characters::count_chars;
use osq_value::{NoMemory, Str, Value};
use std::alloc::Global;

/// The decimal text of a number, and the empty text for what is none.
pub(crate) fn decimal(alloc: Global, value: &Value) -> Result<String, NoMemory>
    ensures { IfOk result (λ text. string_bytes text ≡ decimal_of value.now) }
{
    match value {
        Value::Int(number) => Ok(number.to_string(alloc)?),
        Value::Null | Value::Text(_) => Ok(String::new(alloc)),
    }
}

/// The text of a value of which `decimal` is the decimal text; none for Null.
pub(crate) fn text_of<'a>(value: &'a Value, decimal: &'a str) -> Option<&'a str>
    ensures { option_map (λ text. text.now) result ≡ text_with value.now decimal.now }
{
    match value {
        Value::Null => None,
        Value::Int(_) => Some(decimal),
        Value::Text(text) => Some(text.as_str()),
    }
}

/// The most bytes that a text has which is made of several, as SQLite bounds it (SQLITE_MAX_LENGTH).
const MOST_BYTES: usize = 1_000_000_000;

/// Adds the piece to a text that is made; want of memory at once where it would have more than 10^9 bytes.
pub(crate) fn push_within(made: &mut String, piece: &str) -> Result<(), NoMemory>
    ensures pushed { OnOk result (string_bytes made.new ≡ string_bytes made.old ++ piece.now) }
    ensures within { OnOk result (length (string_bytes made.new) ≤ MOST_BYTES) }
{
    if made.len().saturating_add(piece.len()) > MOST_BYTES {
        return Err(NoMemory);
    }
    Ok(made.push_str(piece)?)
}

/// `||`: both texts, one behind the other; Null where a side is Null. A text of more than 10^9 bytes wants memory.
pub(crate) fn concat(alloc: Global, left: &Value, right: &Value) -> Result<Value, NoMemory>
    ensures joined { IfOk result (λ joined. joined ≡ concat_of left.now right.now) }
    ensures within { IfOk result IsWithin }
{
    let first_decimal = decimal(alloc, left)?;
    let second_decimal = decimal(alloc, right)?;
    let Some(first) = text_of(left, first_decimal.as_str()) else {
        return Ok(Value::Null);
    };
    let Some(second) = text_of(right, second_decimal.as_str()) else {
        return Ok(Value::Null);
    };
    Ok(Value::Text(both(alloc, first, second)?))
}

/// The first text and the second one behind it.
pub(crate) fn both(alloc: Global, first: &str, second: &str) -> Result<Str, NoMemory>
    ensures both { IfOk result (λ text. text ≡ first.now ++ second.now) }
    ensures within { IfOk result (λ text. length text ≤ MOST_BYTES) }
{
    let bytes = first.len().saturating_add(second.len());
    let mut made = String::with_capacity(alloc, bytes.min(MOST_BYTES))?;
    push_within(&mut made, first)?;
    push_within(&mut made, second)?;
    Ok(Str::from_string(made))
}

/// The number of characters of the text.
pub(crate) fn length(alloc: Global, value: &Value) -> Result<Value, NoMemory>
    ensures { IfOk result (λ count. count ≡ length_of value.now) }
{
    let decimal = decimal(alloc, value)?;
    match text_of(value, decimal.as_str()) {
        Some(text) => Ok(Value::Int(count_chars(text))),
        None => Ok(Value::Null),
    }
}

/// The text with its ASCII letters in lower case.
pub(crate) fn lower(alloc: Global, value: &Value) -> Result<Value, NoMemory>
    ensures { IfOk result (λ text. text ≡ lower_of value.now) }
{
    let decimal = decimal(alloc, value)?;
    match text_of(value, decimal.as_str()) {
        Some(text) => {
            let mut lowered = String::from_str(alloc, text)?;
            lowered.make_ascii_lowercase();
            Ok(Value::Text(Str::from_string(lowered)))
        }
        None => Ok(Value::Null),
    }
}

/// The text with its ASCII letters in upper case.
pub(crate) fn upper(alloc: Global, value: &Value) -> Result<Value, NoMemory>
    ensures { IfOk result (λ text. text ≡ upper_of value.now) }
{
    let decimal = decimal(alloc, value)?;
    match text_of(value, decimal.as_str()) {
        Some(text) => {
            let mut raised = String::from_str(alloc, text)?;
            raised.make_ascii_uppercase();
            Ok(Value::Text(Str::from_string(raised)))
        }
        None => Ok(Value::Null),
    }
}

/// The text without the spaces at both ends.
pub(crate) fn trim(alloc: Global, value: &Value) -> Result<Value, NoMemory>
    ensures { IfOk result (λ text. text ≡ trim_of value.now) }
{
    let decimal = decimal(alloc, value)?;
    match text_of(value, decimal.as_str()) {
        Some(text) => Ok(Value::Text(Str::of(alloc, before_spaces(behind_spaces(text)))?)),
        None => Ok(Value::Null),
    }
}

fn behind_spaces(text: &str) -> &str
    ensures { result.now ≡ behind_spaces text.now }
{
    let mut rest = text;
    while let Some(tail) = rest.strip_prefix(' ') {
        rest = tail;
    }
    rest
}

fn before_spaces(text: &str) -> &str
    ensures { result.now ≡ reverse (behind_spaces (reverse text.now)) }
{
    let mut rest = text;
    while let Some(front) = rest.strip_suffix(' ') {
        rest = front;
    }
    rest
}
