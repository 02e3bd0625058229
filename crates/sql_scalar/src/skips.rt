//! Where a text can first fit a sign of a pattern.
ghost use Rattle.std.specs.Prelude.{◌≡◌, ◌≢◌, ◌≤◌, ◌<◌, ◌++◌, ◌∷◌, ℕ, Bool, List, length};
ghost use Rattle.std.specs.Str.{chars};
ghost use Rattle.memchr.specs.Find.{IsFirstByte, is_byte2};
ghost use Rattle.sql_scalar.specs.Likeness.{is_like, one_and, somewhere};
ghost use Rattle.sql_scalar.specs.Pieces.{IsEnd, Lacks};

use crate::characters::split_first_char;
use memchr::{memchr, memchr2};

/// The text without the characters at its front that can't fit the first sign of a piece before a `%`: the whole text where that sign
/// fits any character, or isn't ASCII.
#[inline(always)]
pub(crate) fn skip_to_fit<'a>(piece: &str, text: &'a str) -> &'a str
    requires { Lacks 37 (chars piece.now) }
    ensures same { (others : List ℕ) → somewhere (is_like (chars piece.now ++ 37 ∷ others)) (chars text.now)
        ≡ somewhere (is_like (chars piece.now ++ 37 ∷ others)) (chars result.now) }
    ensures end { IsEnd (chars text.now) (chars result.now) }
    ensures shorter { length result.now ≤ length text.now }
{
    match split_first_char(piece) {
        Some((sign, _)) if sign.is_ascii() && sign != '_' => skip_to_sign(sign, text),
        _ => text,
    }
}

/// The text from the first character on that an ASCII sign fits, and empty where it fits none: no other character has the sign's byte
/// in either case.
#[inline(never)]
fn skip_to_sign(sign: char, text: &str) -> &str
    requires ascii { sign < 128 }
    requires plain { sign ≢ 95 }
    ensures same { (test : List ℕ → Bool) → somewhere (one_and sign test) (chars text.now)
        ≡ somewhere (one_and sign test) (chars result.now) }
    ensures end { IsEnd (chars text.now) (chars result.now) }
    ensures shorter { length result.now ≤ length text.now }
{
    let lower = sign.to_ascii_lowercase() as u8;
    let upper = sign.to_ascii_uppercase() as u8;
    match first_of(lower, upper, text.as_bytes()) {
        Some(at) => text.split_at(at).1,
        None => "",
    }
}

/// The first place of one of two bytes, which are one where the sign is no letter.
fn first_of(lower: u8, upper: u8, bytes: &[u8]) -> Option<usize>
    ensures { IsFirstByte (is_byte2 lower upper) bytes.now result }
{
    if lower == upper {
        memchr(lower, bytes)
    } else {
        memchr2(lower, upper, bytes)
    }
}
