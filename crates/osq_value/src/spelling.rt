//! Whole numbers as texts spell them.
ghost use Rattle.std.specs.Prelude.{◌≡◌, ◌^◌, ◌≤◌, MatchOption};
ghost use Rattle.std.specs.List.{list_all};
ghost use Rattle.osq_value.specs.Spelling.{is_digit, int_of, negative_of, number_below, positive_of, value_of};

/// The whole number that a text spells: an optional `+` or `-`, then at least one decimal digit, and nothing else.
/// None exactly where the text is no such spelling, or its number lies outside 64 bits.
///
/// ```
/// int_spelling(b"+007")                  // Some(7)
/// int_spelling(b"-9223372036854775808")  // Some(i64::MIN)
/// int_spelling(b"9223372036854775808")   // None
/// int_spelling(b"1 ")                    // None
/// ```
#[tactic(auto, unfolding(crate::specs::Spelling::int_of))]
pub fn int_spelling(text: &[u8]) -> Option<i64>
    ensures { result ≡ int_of text.now }
{
    let (first, rest) = text.split_first()?;
    match *first {
        b'-' => negative(rest),
        b'+' => positive(rest),
        _ => positive(text),
    }
}

fn positive(digits: &[u8]) -> Option<i64>
    ensures { result ≡ positive_of digits.now }
{
    i64::try_from(digits_number(digits)?).ok()
}

fn negative(digits: &[u8]) -> Option<i64>
    ensures { result ≡ negative_of digits.now }
{
    0i64.checked_sub_unsigned(digits_number(digits)?)
}

/// The number that decimal digits spell, which may begin with zeros. None exactly where there is no byte, a byte is no digit, or the
/// number is 2^64 or more.
///
/// ```
/// digits_number(b"007")                   // Some(7)
/// digits_number(b"+7")                    // None
/// digits_number(b"18446744073709551616")  // None
/// ```
pub fn digits_number(digits: &[u8]) -> Option<u64>
    ensures { result ≡ number_below (2 ^ 64) digits.now }
{
    if digits.is_empty() || !are_digits(digits) {
        None
    } else {
        value(digits)
    }
}

fn are_digits(text: &[u8]) -> bool
    ensures { result ≡ list_all is_digit text.now }
{
    text.iter().all(|byte| b'0' <= *byte && *byte <= b'9')
}

/// What digits stand for, where it is below 2^64.
fn value(digits: &[u8]) -> Option<u64>
    ensures { MatchOption result (2 ^ 64 ≤ value_of digits.now) (λ number. number ≡ value_of digits.now) }
{
    let mut number = 0u64;
    for byte in digits {
        let digit = u64::from(byte.saturating_sub(b'0'));
        number = number.checked_mul(10)?.checked_add(digit)?;
    }
    Some(number)
}
