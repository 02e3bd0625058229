//! Values of rows, and modes.

ghost use Rattle.std.specs.Prelude.{◌≡◌, ◌<◌, ◌^◌, ℤ};
ghost use Rattle.std.specs.Fmt.{signed_decimal};
ghost use lib.Signed.{mag};

use crate::bytes::{begins_with, behind};
use crate::numbers::number_front;
use crate::spelled::Spelled;
use itoa::Buffer;
use osq_value::{Bytes, NoMemory, Str, Value};
use pack_rules::schedule::Mode;
use std::alloc::Global;
use std::str;

/// The whole number that bytes spell, maybe with a sign; of other bytes 0.
fn signed_of(bytes: &[u8]) -> i64
    ensures { (n : ℤ) → mag n < 2 ^ 63 → bytes.now ≡ signed_decimal n → result ≡ n }
{
    match str::from_utf8(bytes) {
        Ok(text) => text.parse::<i64>().unwrap_or(0),
        Err(_) => 0,
    }
}

impl Spelled for Value {
    ghost use Rattle.result_batches.specs.Frames.{json_value};
    ghost use Rattle.batch_frames.specs.Texts.{IsHeldValue};

    ghost text = { json_value };

    ghost is_held = { IsHeldValue };

    fn push_to(&self, line: &mut Bytes) -> Result<(), NoMemory> {
        match self {
            Value::Null => line.extend(b"null"),
            Value::Int(number) => {
                let mut buffer = Buffer::new();
                line.extend(buffer.format(*number).as_bytes())
            }
            Value::Text(text) => text.push_to(line),
        }
    }

    fn take(alloc: Global, bytes: &[u8]) -> Result<(Self, &[u8]), NoMemory> {
        if begins_with(bytes, b'n') {
            return Ok((Value::Null, behind(bytes, 4)));
        }
        if begins_with(bytes, b'"') {
            let (text, rest) = Str::take(alloc, bytes)?;
            return Ok((Value::Text(text), rest));
        }
        let (digits, rest) = number_front(bytes);
        Ok((Value::Int(signed_of(digits)), rest))
    }

    fn begins() {}
}

impl Spelled for Mode {
    ghost use Rattle.result_batches.specs.Frames.{mode_text};
    ghost use Rattle.result_batches.specs.Json.{quoted};

    ghost text = { λ mode. quoted (mode_text mode) };

    ghost is_held = { λ mode. Unit {0} };

    fn push_to(&self, line: &mut Bytes) -> Result<(), NoMemory> {
        match self {
            Mode::Evented => line.extend(b"\"evented\""),
            Mode::Snapshot => line.extend(b"\"snapshot\""),
        }
    }

    fn take(_alloc: Global, bytes: &[u8]) -> Result<(Self, &[u8]), NoMemory> {
        if bytes.get(1) == Some(&b'e') {
            Ok((Mode::Evented, behind(bytes, 9)))
        } else {
            Ok((Mode::Snapshot, behind(bytes, 10)))
        }
    }

    fn begins() {}
}
