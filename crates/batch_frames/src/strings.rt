//! Texts.

ghost use Rattle.std.specs.Prelude.{◌≡◌, ℕ, List, ◌∷◌, ◌++◌, ◌<◌, ◌≤◌, ◌/◌, ◌%◌, false, length, IfOk};
ghost use Rattle.std.specs.List.{list_any};
ghost use Rattle.std.specs.Str.{IsUtf8};
ghost use Rattle.control_escapes.specs.Escapes.{hex_digit};
ghost use Rattle.result_batches.specs.Json.{escaped};
ghost use Rattle.batch_frames.specs.Escapes.{BeginsSpecial, TakesInside, is_special, meant};

use crate::bytes::behind;
use crate::spelled::Spelled;
use osq_value::{Bytes, NoMemory, Str};
use result_batches::escape::push_quoted;
use std::alloc::Global;
use std::str;

/// The bytes before the first quote or backslash, and the rest.
fn plain_front(bytes: &[u8]) -> (&[u8], &[u8])
    ensures whole { bytes.now ≡ result.0.now ++ result.1.now }
    ensures plain { list_any is_special result.0.now ≡ false }
    ensures stops { BeginsSpecial result.1.now }
{
    for at in 0..bytes.len() {
        if bytes[at] == b'"' || bytes[at] == b'\\' {
            return bytes.split_at(at);
        }
    }
    bytes.split_at(bytes.len())
}

/// What a byte behind a backslash stands for, if it isn't `u`.
fn meant(byte: u8) -> u8
    ensures { result ≡ meant byte }
{
    match byte {
        b'b' => 8,
        b't' => b'\t',
        b'n' => b'\n',
        b'f' => 12,
        b'r' => b'\r',
        _ => byte,
    }
}

/// The number of a lower-case hexadecimal digit; of any other byte some number.
fn digit_value(byte: u8) -> u8
    ensures small { result ≤ 168 }
    ensures value { (n : ℕ) → n < 16 → byte ≡ hex_digit n → result ≡ n }
{
    if byte < b'a' {
        byte.saturating_sub(b'0')
    } else {
        byte - 87
    }
}

/// The control character that four hexadecimal digits stand for, of which the first three are 000 or 001.
fn control(digits: &[u8]) -> u8
    ensures { (n : ℕ) (rest : List ℕ) → n < 32 → digits.now ≡ 48 ∷ 48 ∷ hex_digit (n / 16) ∷ hex_digit (n % 16) ∷ rest → result ≡ n }
{
    let [_, _, high, low, ..] = digits else {
        return 0;
    };
    let front = if *high == b'1' { 16 } else { 0 };
    front + digit_value(*low)
}

/// The byte whose escape the bytes begin with, behind its backslash, and the rest; of other bytes some byte and some rest.
fn unescape(bytes: &[u8]) -> (u8, &[u8])
    ensures value { (byte : ℕ) (rest : List ℕ) → 92 ∷ bytes.now ≡ escaped byte ++ rest → (result.0 ≡ byte) × (result.1.now ≡ rest) }
    ensures shorter { length result.1.now ≤ length bytes.now }
{
    match bytes.split_first() {
        None => (0, bytes),
        Some((b'u', digits)) => (control(digits), behind(digits, 4)),
        Some((byte, rest)) => (meant(*byte), rest),
    }
}

/// The bytes that stand inside a string, up to the quote that closes it, and what stands behind that quote.
fn inside(alloc: Global, bytes: &[u8]) -> Result<(Bytes, &[u8]), NoMemory>
    ensures { IfOk result (λ taken. TakesInside bytes.now taken.0 taken.1.now) }
{
    let mut inside = Bytes::new(alloc);
    let (plain, mut rest) = plain_front(bytes);
    inside.extend(plain)?;
    while let Some((byte, behind)) = rest.split_first() {
        if *byte == b'"' {
            return Ok((inside, behind));
        }
        let (meant, other) = unescape(behind);
        inside.push(meant)?;
        let (plain, after) = plain_front(other);
        inside.extend(plain)?;
        rest = after;
    }
    Ok((inside, rest))
}

/// The text of bytes; the empty one where they aren't UTF-8.
fn text_of(alloc: Global, bytes: &[u8]) -> Result<Str, NoMemory>
    ensures { IsUtf8 bytes.now → IfOk result (λ text. text ≡ bytes.now) }
{
    match str::from_utf8(bytes) {
        Ok(text) => Str::of(alloc, text),
        Err(_) => Ok(Str::empty()),
    }
}

impl Spelled for Str {
    ghost use Rattle.std.specs.Str.{IsUtf8};
    ghost use Rattle.result_batches.specs.Json.{quoted};

    ghost text = { quoted };

    ghost is_held = { IsUtf8 };

    fn push_to(&self, line: &mut Bytes) -> Result<(), NoMemory> {
        push_quoted(line, self.as_str().as_bytes())
    }

    fn take(alloc: Global, bytes: &[u8]) -> Result<(Self, &[u8]), NoMemory> {
        let string = behind(bytes, 1);
        let (plain, rest) = plain_front(string);
        match rest.split_first() {
            Some((b'"', behind)) => Ok((text_of(alloc, plain)?, behind)),
            _ => {
                let (inside, behind) = inside(alloc, string)?;
                Ok((text_of(alloc, inside.as_slice())?, behind))
            }
        }
    }

    fn begins() {}
}
