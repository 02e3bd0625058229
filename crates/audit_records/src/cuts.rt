//! Texts, cut at a byte.
ghost use Rattle.std.specs.Prelude.{◌≡◌, ◌+◌, ◌<◌, length, take, drop, slice_index, option_map};
ghost use Rattle.audit_records.specs.Lines.{around, before, behind, ends_key, is_blank, is_byte, onward};

use memchr::{memchr, memchr2, memchr3};

/// The byte that is a blank beside the space.
const SEPARATOR: u8 = 0x1d;

/// A blank parts words.
pub fn is_blank(byte: u8) -> bool
    ensures { result ≡ is_blank byte }
{
    byte == b' ' || byte == SEPARATOR
}

/// The texts before and behind the first such byte, which is an ASCII byte. None where the text has none.
pub fn around_byte(text: &str, byte: u8) -> Option<(&str, &str)>
    requires { byte < 128 }
    ensures { option_map (λ parts. (parts.0.now, parts.1.now)) result ≡ around (is_byte byte) text.now }
{
    match memchr(byte, text.as_bytes()) {
        Some(at) => Some(around_place(text, at)),
        None => None,
    }
}

/// The texts before and behind the first blank. None where the text has none.
pub fn around_blank(text: &str) -> Option<(&str, &str)>
    ensures { option_map (λ parts. (parts.0.now, parts.1.now)) result ≡ around is_blank text.now }
{
    match memchr2(b' ', SEPARATOR, text.as_bytes()) {
        Some(at) => Some(around_place(text, at)),
        None => None,
    }
}

/// The texts before and behind the byte at a place.
fn around_place(text: &str, at: usize) -> (&str, &str)
    requires within { at < length text.now }
    requires ascii { slice_index text.now at < 128 }
    ensures front { result.0.now ≡ take at text.now }
    ensures back { result.1.now ≡ drop (at + 1) text.now }
{
    let (front, rest) = text.split_at(at);
    (front, behind_first(rest))
}

/// The text behind its first byte.
pub fn behind_first(text: &str) -> &str
    requires some { 0 < length text.now }
    requires ascii { slice_index text.now 0 < 128 }
    ensures { result.now ≡ drop 1 text.now }
{
    &text[1..]
}

/// The text before the first blank, and the text from there on.
pub fn split_at_blank(text: &str) -> (&str, &str)
    ensures front { result.0.now ≡ before is_blank text.now }
    ensures back { result.1.now ≡ onward is_blank text.now }
{
    match memchr2(b' ', SEPARATOR, text.as_bytes()) {
        Some(at) => text.split_at(at),
        None => (text, ""),
    }
}

/// The text before the first blank or `=`, and the text from there on.
pub fn split_key(text: &str) -> (&str, &str)
    ensures front { result.0.now ≡ before ends_key text.now }
    ensures back { result.1.now ≡ onward ends_key text.now }
{
    match memchr3(b' ', SEPARATOR, b'=', text.as_bytes()) {
        Some(at) => text.split_at(at),
        None => (text, ""),
    }
}

/// The text behind a front. None where the text doesn't begin so.
pub fn behind<'a>(text: &'a str, front: &str) -> Option<&'a str>
    ensures { option_map (λ rest. rest.now) result ≡ behind front.now text.now }
{
    text.strip_prefix(front)
}
