//! `instr` and `replace`.
ghost use Rattle.std.specs.Prelude.{◌≡◌, ◌<◌, ◌≤◌, length, pos, IfOk};
ghost use Rattle.std.specs.Str.{chars};
ghost use Rattle.sql_scalar.specs.Bounds.{IsWithin};
ghost use Rattle.sql_scalar.specs.declared.texts.TheConstants.{MOST_BYTES};
ghost use Rattle.sql_scalar.specs.Texts.{text_of};
ghost use Rattle.sql_scalar.specs.Finds.{first_position, instr_of, replace_in, replace_of, replaced};

use crate::characters::split_first_char;
use crate::texts::{both, decimal, push_within, text_of};
use osq_value::{NoMemory, Str, Value};
use std::alloc::Global;

/// The position, in characters from 1, of the first place at which the second text stands in the first one; 0 where there is none.
pub(crate) fn instr(alloc: Global, value: &Value, wanted: &Value) -> Result<Value, NoMemory>
    ensures { IfOk result (λ position. position ≡ instr_of value.now wanted.now) }
{
    let value_decimal = decimal(alloc, value)?;
    let wanted_decimal = decimal(alloc, wanted)?;
    let Some(text) = text_of(value, value_decimal.as_str()) else {
        return Ok(Value::Null);
    };
    match text_of(wanted, wanted_decimal.as_str()) {
        Some(wanted) => Ok(Value::Int(first_position(text, wanted))),
        None => Ok(Value::Null),
    }
}

fn first_position(text: &str, wanted: &str) -> i64
    ensures { result ≡ pos (first_position (chars wanted.now) 1 (chars text.now)) }
{
    if wanted.is_empty() {
        return 1;
    }
    let mut position = 1u64;
    let mut rest = text;
    while let Some((_, tail)) = split_first_char(rest) {
        if rest.starts_with(wanted) {
            return position as i64;
        }
        position += 1;
        rest = tail;
    }
    0
}

/// The first text with the third one in place of each second one, from the left. An empty second text changes nothing, whatever the
/// third one is. A text of more than 10^9 bytes wants memory.
pub(crate) fn replace(
    alloc: Global,
    value: &Value,
    wanted: &Value,
    other: &Value,
) -> Result<Value, NoMemory>
    ensures replaced { IfOk result (λ text. text ≡ replace_of value.now wanted.now other.now) }
    ensures within { IfOk result IsWithin }
{
    let value_decimal = decimal(alloc, value)?;
    let wanted_decimal = decimal(alloc, wanted)?;
    let Some(text) = text_of(value, value_decimal.as_str()) else {
        return Ok(Value::Null);
    };
    match text_of(wanted, wanted_decimal.as_str()) {
        Some(wanted) => replace_in(alloc, text, wanted, other),
        None => Ok(Value::Null),
    }
}

fn replace_in(alloc: Global, text: &str, wanted: &str, other: &Value) -> Result<Value, NoMemory>
    ensures made { IfOk result (λ made. made ≡ replace_in text.now wanted.now (text_of other.now)) }
    ensures within { IfOk result IsWithin }
{
    if wanted.is_empty() {
        return Ok(Value::Text(both(alloc, text, "")?));
    }
    let other_decimal = decimal(alloc, other)?;
    match text_of(other, other_decimal.as_str()) {
        Some(other) => Ok(Value::Text(replaced(alloc, text, wanted, other)?)),
        None => Ok(Value::Null),
    }
}

fn replaced(alloc: Global, text: &str, wanted: &str, other: &str) -> Result<Str, NoMemory>
    requires { 0 < length wanted.now }
    ensures made { IfOk result (λ made. made ≡ replaced wanted.now other.now 0 text.now) }
    ensures within { IfOk result (λ made. length made ≤ MOST_BYTES) }
{
    let mut made = String::new(alloc);
    let mut rest = text;
    while let Some((front, behind)) = rest.split_once(wanted) {
        push_within(&mut made, front)?;
        push_within(&mut made, other)?;
        rest = behind;
    }
    push_within(&mut made, rest)?;
    Ok(Str::from_string(made))
}
