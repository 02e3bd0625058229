//! Numbers.

ghost use Rattle.std.specs.Prelude.{◌≡◌, ℕ, ◌<◌, ◌^◌, ◌++◌, false};
ghost use Rattle.std.specs.Fmt.{decimal};
ghost use Rattle.std.specs.List.{list_any};
ghost use Rattle.batch_frames.specs.Ends.{IsAtEnd, is_end};

use crate::spelled::Spelled;
use itoa::Buffer;
use osq_value::{Bytes, NoMemory};
use std::alloc::Global;
use std::str;

/// The bytes before the first comma or closing bracket, and the rest.
pub(crate) fn number_front(bytes: &[u8]) -> (&[u8], &[u8])
    ensures whole { bytes.now ≡ result.0.now ++ result.1.now }
    ensures plain { list_any is_end result.0.now ≡ false }
    ensures stops { IsAtEnd result.1.now }
{
    for at in 0..bytes.len() {
        if bytes[at] == b',' || bytes[at] == b']' {
            return bytes.split_at(at);
        }
    }
    bytes.split_at(bytes.len())
}

/// The whole number that bytes spell; of other bytes 0.
fn number_of(bytes: &[u8]) -> u64
    ensures { (n : ℕ) → n < 2 ^ 64 → bytes.now ≡ decimal n → result ≡ n }
{
    match str::from_utf8(bytes) {
        Ok(text) => text.parse::<u64>().unwrap_or(0),
        Err(_) => 0,
    }
}

impl Spelled for u64 {
    ghost use Rattle.std.specs.Prelude.{◌<◌, ◌^◌};
    ghost use Rattle.std.specs.Fmt.{decimal};

    ghost text = { decimal };

    ghost is_held = { λ n. n < 2 ^ 64 };

    fn push_to(&self, line: &mut Bytes) -> Result<(), NoMemory> {
        let mut buffer = Buffer::new();
        line.extend(buffer.format(*self).as_bytes())
    }

    fn take(_alloc: Global, bytes: &[u8]) -> Result<(Self, &[u8]), NoMemory> {
        let (digits, rest) = number_front(bytes);
        Ok((number_of(digits), rest))
    }

    fn begins() {}
}
