//! Values as whole numbers and as texts.
ghost use Rattle.std.specs.Prelude.{◌≡◌, ◌+◌, ◌-◌, ◌*◌, ◌^◌, min, pos, neg_ℤ, IfOk};
ghost use Rattle.osq_value.specs.Spelling.{is_digit};
ghost use Rattle.osq_value.specs.Casts.{behind_blanks, cast_int_of, cast_text_of, front_value, is_blank, nearest, number_of, signed_front};

use crate::memory::NoMemory;
use crate::sequence::Copied;
use crate::text::Str;
use crate::value::Value;
use std::alloc::Global;

/// The value as a whole number: Null and a number stay. A text gives the number of its longest front of the form blanks, optional sign,
/// digits, where a blank is a space, tab, line feed, vertical tab, form feed or carriage return. No digit gives 0, and a number outside
/// 64 bits the nearest end. It takes no memory.
pub fn cast_int(value: &Value) -> Value
    ensures { result ≡ cast_int_of value.now }
{
    match value {
        Value::Null => Value::Null,
        Value::Int(number) => Value::Int(*number),
        Value::Text(text) => Value::Int(front_number(text.as_str().as_bytes())),
    }
}

/// The value as a text: Null and a text stay, and a number gives its decimal text.
pub fn cast_text(alloc: Global, value: &Value) -> Result<Value, NoMemory>
    ensures { IfOk result (λ text. text ≡ cast_text_of value.now) }
{
    match value {
        Value::Null => Ok(Value::Null),
        Value::Int(number) => Ok(Value::Text(Str::from_string(number.to_string(alloc)?))),
        Value::Text(text) => Ok(Value::Text(text.copy(alloc)?)),
    }
}

/// The number of the longest front of the form blanks, optional sign, digits, or the nearest of 64 bits.
#[tactic(auto, unfolding(crate::specs::Casts::number_of))]
fn front_number(text: &[u8]) -> i64
    ensures { result ≡ number_of text.now }
{
    nearest_number(behind_blanks(text))
}

fn is_blank(byte: u8) -> bool
    ensures { result ≡ is_blank byte }
{
    byte == b' ' || (b'\t' <= byte && byte <= b'\r')
}

fn is_digit(byte: u8) -> bool
    ensures { result ≡ is_digit byte }
{
    b'0' <= byte && byte <= b'9'
}

/// The text from its first byte that is no blank.
fn behind_blanks(text: &[u8]) -> &[u8]
    ensures { result.now ≡ behind_blanks text.now }
{
    let mut rest = text;
    while let [first, tail @ ..] = rest {
        if !is_blank(*first) {
            break;
        }
        rest = tail;
    }
    rest
}

/// The number of an optional sign and the digits behind it, or the nearest of 64 bits.
fn nearest_number(text: &[u8]) -> i64
    ensures { result ≡ nearest (signed_front text.now) }
{
    let [first, rest @ ..] = text else {
        return 0;
    };
    match *first {
        b'-' => negative(rest),
        b'+' => positive(rest),
        _ => positive(text),
    }
}

fn positive(text: &[u8]) -> i64
    ensures { result ≡ nearest (pos (front_value text.now)) }
{
    i64::try_from(magnitude(text)).unwrap_or(i64::MAX)
}

fn negative(text: &[u8]) -> i64
    ensures { result ≡ nearest (neg_ℤ (pos (front_value text.now))) }
{
    0i64.saturating_sub_unsigned(magnitude(text))
}

/// The number of the digits at the front, or 2^64 - 1 where it is larger.
#[tactic(auto, using(crate::proofs::Fronts::capped_more))]
fn magnitude(text: &[u8]) -> u64
    ensures { result ≡ min (front_value text.now) (2 ^ 64 - 1) }
{
    let mut number = 0u64;
    let mut rest = text;
    while let Some((first, tail)) = rest.split_first() {
        if !is_digit(*first) {
            break;
        }
        number = with_digit(number, *first);
        rest = tail;
    }
    number
}

/// The number with one digit more behind it, or 2^64 - 1 where it is larger.
fn with_digit(number: u64, digit: u8) -> u64
    ensures { result ≡ min (10 * number + (digit - 48)) (2 ^ 64 - 1) }
{
    let unit = u64::from(digit.saturating_sub(b'0'));
    number.saturating_mul(10).saturating_add(unit)
}
