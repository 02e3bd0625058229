//! `substr`.
ghost use Rattle.std.specs.Prelude.{◌≡◌, ◌^◌, ◌≤ℤ◌, length, negsuc, pos, IfOk};
ghost use Rattle.std.specs.Str.{chars};
ghost use Rattle.sql_scalar.specs.Windows.{inside, is_past, place, substr2_of, substr3_of, taken, window};

use crate::arithmetic::whole;
use crate::characters::{count_chars, split_first_char};
use crate::texts::{decimal, text_of};
use osq_value::{NoMemory, Str, Value};
use std::alloc::Global;

/// The characters of a text from a place on.
pub(crate) fn substr_from(alloc: Global, value: &Value, start: &Value) -> Result<Value, NoMemory>
    ensures { IfOk result (λ part. part ≡ substr2_of value.now start.now) }
{
    let decimal = decimal(alloc, value)?;
    let Some(text) = text_of(value, decimal.as_str()) else {
        return Ok(Value::Null);
    };
    match whole(start) {
        Some(start) => taken(alloc, text, place(text, start), None),
        None => Ok(Value::Null),
    }
}

/// So many characters of a text from a place on, or before it where the number is negative.
pub(crate) fn substr_within(
    alloc: Global,
    value: &Value,
    start: &Value,
    width: &Value,
) -> Result<Value, NoMemory>
    ensures { IfOk result (λ part. part ≡ substr3_of value.now start.now width.now) }
{
    let decimal = decimal(alloc, value)?;
    let Some(text) = text_of(value, decimal.as_str()) else {
        return Ok(Value::Null);
    };
    let Some(start) = whole(start) else {
        return Ok(Value::Null);
    };
    match whole(width) {
        Some(width) => window(alloc, text, place(text, start), width),
        None => Ok(Value::Null),
    }
}

fn window(alloc: Global, text: &str, start: i128, width: i64) -> Result<Value, NoMemory>
    requires low { negsuc (2 ^ 64) ≤ℤ start }
    requires high { start ≤ℤ pos (2 ^ 64) }
    ensures { IfOk result (λ part. part ≡ taken (window start width) text.now) }
{
    let end = start + i128::from(width);
    if width >= 0 {
        taken(alloc, text, start, Some(end))
    } else {
        taken(alloc, text, end, Some(start))
    }
}

/// A place counted from the front of a text, or a negative one counted from its end. It lies between -2^64 and 2^64.
fn place(text: &str, start: i64) -> i128
    ensures value { result ≡ place (length (chars text.now)) start }
    ensures low { negsuc (2 ^ 64) ≤ℤ result }
    ensures high { result ≤ℤ pos (2 ^ 64) }
{
    if start >= 0 {
        i128::from(start)
    } else {
        i128::from(count_chars(text)) + i128::from(start) + 1
    }
}

/// The characters of a text at positions from `low` on, and before `high` where it is there. Positions count from 1.
fn taken(alloc: Global, text: &str, low: i128, high: Option<i128>) -> Result<Value, NoMemory>
    ensures { IfOk result (λ part. part ≡ taken (inside low high) text.now) }
{
    let mut part = String::new(alloc);
    let mut rest = text;
    let mut position = 1u64;
    while let Some((first, tail)) = split_first_char(rest) {
        if is_past(position, high) {
            break;
        }
        if is_inside(position, low, high) {
            part.push(first)?;
        }
        position += 1;
        rest = tail;
    }
    Ok(Value::Text(Str::from_string(part)))
}

/// No position from this one on lies before the end.
fn is_past(position: u64, high: Option<i128>) -> bool
    ensures { result ≡ is_past high position }
{
    match high {
        Some(high) => high <= i128::from(position),
        None => false,
    }
}

fn is_inside(position: u64, low: i128, high: Option<i128>) -> bool
    ensures { result ≡ inside low high position }
{
    let position = i128::from(position);
    match high {
        Some(high) => low <= position && position < high,
        None => low <= position,
    }
}
