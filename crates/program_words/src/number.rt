//! Texts and numbers, as values of options.

ghost use Rattle.std.specs.Prelude.{◌≡◌};
ghost use Rattle.program_words.specs.Texts.{is_text, number_in};

use osq_value::digits_number;

/// At least one byte, and no dash at its front.
pub(crate) fn is_text(text: &str) -> bool
    ensures { result ≡ is_text text.now }
{
    match text.as_bytes() {
        [] => false,
        [first, ..] => *first != b'-',
    }
}

/// A number has at most so many digits.
const MOST_DIGITS: usize = 19;

/// The number that the text spells, where it lies between these two.
#[tactic(auto, unfolding(crate::specs::Texts::number_in))]
pub(crate) fn number_in(least: u64, most: u64, text: &str) -> Option<u64>
    ensures { result ≡ number_in least most text.now }
{
    if MOST_DIGITS < text.len() {
        return None;
    }
    match digits_number(text.as_bytes()) {
        Some(number) if least <= number && number <= most => Some(number),
        _ => None,
    }
}
