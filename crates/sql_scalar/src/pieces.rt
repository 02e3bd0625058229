//! The pieces of a pattern, which stand before, between and behind its `%`.
ghost use Rattle.std.specs.Prelude.{◌≡◌, ◌<◌, ◌≤◌, ◌++◌, ◌∷◌, true, length, MatchOption};
ghost use Rattle.std.specs.Option.{option_map};
ghost use Rattle.std.specs.Str.{chars};
ghost use Rattle.sql_scalar.specs.Likeness.{fits_one, is_like, somewhere};
ghost use Rattle.sql_scalar.specs.Pieces.{behind, Lacks, IsLower, IsBehindFirst};

use crate::characters::{split_first_char, split_last_char};
use crate::skips::skip_to_fit;
use memchr::memchr;

/// The piece before the first `%` of a pattern, and the pattern behind it. None where it has no `%`.
pub(crate) fn split_piece(pattern: &str) -> Option<(&str, &str)>
    ensures { MatchOption result (Lacks 37 (chars pattern.now))
        (λ split. (chars pattern.now ≡ chars split.0.now ++ 37 ∷ chars split.1.now) × Lacks 37 (chars split.0.now)
        × (length split.1.now < length pattern.now)) }
{
    match memchr(b'%', pattern.as_bytes()) {
        Some(at) => {
            let (piece, rest) = pattern.split_at(at);
            Some((piece, rest.split_at(1).1))
        }
        None => None,
    }
}

/// The text behind a piece that fits its front.
pub(crate) fn behind_piece<'a>(piece: &str, text: &'a str) -> Option<&'a str>
    ensures { option_map (λ rest. chars rest.now) result ≡ behind (chars piece.now) (chars text.now) }
{
    let mut signs = piece;
    let mut rest = text;
    while let Some((sign, others)) = split_first_char(signs) {
        let Some((first, tail)) = split_first_char(rest) else {
            return None;
        };
        if !fits_one(sign, first) {
            return None;
        }
        signs = others;
        rest = tail;
    }
    Some(rest)
}

/// The text behind the first place at which a piece fits that stands between two `%`.
pub(crate) fn behind_first<'a>(piece: &str, text: &'a str, is_lower: bool) -> Option<&'a str>
    requires plain { Lacks 37 (chars piece.now) }
    requires signs { is_lower ≡ true → IsLower (chars piece.now) }
    requires characters { is_lower ≡ true → IsLower (chars text.now) }
    ensures { IsBehindFirst piece.now text.now result }
{
    if is_lower && !piece.contains('_') {
        behind_found(piece, text)
    } else {
        behind_fitting(piece, text)
    }
}

/// The same where signs and characters are in lower case and none is `_`, so that each sign fits itself alone.
fn behind_found<'a>(piece: &str, text: &'a str) -> Option<&'a str>
    requires plain { Lacks 37 (chars piece.now) }
    requires exact { Lacks 95 (chars piece.now) }
    requires signs { IsLower (chars piece.now) }
    requires characters { IsLower (chars text.now) }
    ensures { IsBehindFirst piece.now text.now result }
{
    match text.split_once(piece) {
        Some((_, behind)) => Some(behind),
        None => None,
    }
}

/// The same by trying place after place.
fn behind_fitting<'a>(piece: &str, text: &'a str) -> Option<&'a str>
    requires plain { Lacks 37 (chars piece.now) }
    ensures { IsBehindFirst piece.now text.now result }
{
    let mut from = skip_to_fit(piece, text);
    loop {
        if let Some(behind) = behind_piece(piece, from) {
            return Some(behind);
        }
        let Some((_, later)) = split_first_char(from) else {
            return None;
        };
        from = skip_to_fit(piece, later);
    }
}

/// Whether a piece fits the end of a text.
pub(crate) fn fits_end(piece: &str, text: &str) -> bool
    requires { Lacks 37 (chars piece.now) }
    ensures { result ≡ somewhere (is_like (chars piece.now)) (chars text.now) }
{
    let mut signs = piece;
    let mut rest = text;
    while let Some((others, sign)) = split_last_char(signs) {
        let Some((front, last)) = split_last_char(rest) else {
            return false;
        };
        if !fits_one(sign, last) {
            return false;
        }
        signs = others;
        rest = front;
    }
    true
}

/// Whether a sign that isn't `%` fits a character.
fn fits_one(sign: char, character: char) -> bool
    ensures { result ≡ fits_one sign character }
{
    sign == '_' || sign.to_ascii_lowercase() == character.to_ascii_lowercase()
}
