//! `LIKE`.
ghost use Rattle.std.specs.Prelude.{◌≡◌, true, IfOk};
ghost use Rattle.std.specs.Str.{chars};
ghost use Rattle.sql_scalar.specs.Likeness.{is_like, like_of, somewhere};
ghost use Rattle.sql_scalar.specs.Pieces.{IsLower};

use crate::logic::from_truth;
use crate::pieces::{behind_first, behind_piece, fits_end, split_piece};
use crate::texts::{decimal, text_of};
use osq_value::{NoMemory, Value};
use std::alloc::Global;

/// Up to so many pairs of a byte of the pattern and one of the text each may be compared, so that no copies are made.
const MOST_PAIRS: usize = 16_384;

/// `LIKE`, the pattern at the right: 1 or 0, and Null where a side is Null.
pub(crate) fn like(alloc: Global, left: &Value, right: &Value) -> Result<Value, NoMemory>
    ensures { IfOk result (λ outcome. outcome ≡ like_of left.now right.now) }
{
    // Two texts need no decimals.
    if let (Value::Text(text), Value::Text(pattern)) = (left, right) {
        let answer = is_like(alloc, pattern.as_str(), text.as_str())?;
        return Ok(from_truth(Some(answer)));
    }
    let left_decimal = decimal(alloc, left)?;
    let right_decimal = decimal(alloc, right)?;
    let Some(text) = text_of(left, left_decimal.as_str()) else {
        return Ok(Value::Null);
    };
    let Some(pattern) = text_of(right, right_decimal.as_str()) else {
        return Ok(Value::Null);
    };
    let answer = is_like(alloc, pattern, text)?;
    Ok(from_truth(Some(answer)))
}

/// Whether the text is like the pattern: what stands before the first `%` fits its front, and what stands behind it fits somewhere.
fn is_like(alloc: Global, pattern: &str, text: &str) -> Result<bool, NoMemory>
    ensures { IfOk result (λ answer. answer ≡ is_like (chars pattern.now) (chars text.now)) }
{
    let Some((piece, others)) = split_piece(pattern) else {
        return Ok(match behind_piece(pattern, text) {
            Some(rest) => rest.is_empty(),
            None => false,
        });
    };
    match behind_piece(piece, text) {
        Some(rest) => is_like_somewhere(alloc, others, rest),
        None => Ok(false),
    }
}

/// Whether the pattern fits the text or what is left of it behind some of its characters. Where that may take long, it's found by copies.
fn is_like_somewhere(alloc: Global, pattern: &str, text: &str) -> Result<bool, NoMemory>
    ensures { IfOk result (λ answer. answer ≡ somewhere (is_like (chars pattern.now)) (chars text.now)) }
{
    if pattern.len().saturating_mul(text.len()) <= MOST_PAIRS || !pattern.contains('%') {
        return Ok(fits_in_turn(pattern, text, false));
    }
    fits_in_lower_case(alloc, pattern, text)
}

/// The same by copies in lower case, in which a piece is found in linear time.
#[inline(never)]
fn fits_in_lower_case(alloc: Global, pattern: &str, text: &str) -> Result<bool, NoMemory>
    ensures { IfOk result (λ answer. answer ≡ somewhere (is_like (chars pattern.now)) (chars text.now)) }
{
    let signs = pattern.to_ascii_lowercase(alloc)?;
    let characters = text.to_ascii_lowercase(alloc)?;
    Ok(fits_in_turn(signs.as_str(), characters.as_str(), true))
}

/// The same of a pattern and a text of which it's known whether both are in lower case. What stands between two `%` is taken where it
/// fits first, since each later place leaves less of the text; what stands behind the last one can only fit the end.
fn fits_in_turn(pattern: &str, text: &str, is_lower: bool) -> bool
    requires signs { is_lower ≡ true → IsLower (chars pattern.now) }
    requires characters { is_lower ≡ true → IsLower (chars text.now) }
    ensures { result ≡ somewhere (is_like (chars pattern.now)) (chars text.now) }
{
    let mut signs = pattern;
    let mut rest = text;
    while let Some((piece, others)) = split_piece(signs) {
        let Some(behind) = behind_first(piece, rest, is_lower) else {
            return false;
        };
        signs = others;
        rest = behind;
    }
    fits_end(signs, rest)
}
