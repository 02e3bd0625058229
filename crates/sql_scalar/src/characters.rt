//! The characters of a text.
ghost use Rattle.std.specs.Prelude.{◌≡◌, ◌<◌, ◌∷◌, ◌++◌, [], length, pos, MatchOption};
ghost use Rattle.std.specs.Str.{chars};

/// The first character of a text, and what follows it.
#[inline(always)]
pub(crate) fn split_first_char(text: &str) -> Option<(char, &str)>
    ensures { MatchOption result (chars text.now ≡ [])
        (λ split. (chars text.now ≡ split.0 ∷ chars split.1.now) × (length split.1.now < length text.now)) }
{
    let mut rest = text.chars();
    match rest.next() {
        Some(first) => Some((first, rest.as_str())),
        None => None,
    }
}

/// The last character of a text, behind what stands before it.
#[inline(always)]
pub(crate) fn split_last_char(text: &str) -> Option<(&str, char)>
    ensures { MatchOption result (chars text.now ≡ [])
        (λ split. (chars text.now ≡ chars split.0.now ++ split.1 ∷ []) × (length split.0.now < length text.now)) }
{
    let mut rest = text.chars();
    match rest.next_back() {
        Some(last) => Some((rest.as_str(), last)),
        None => None,
    }
}

/// The number of characters, which is no more than the number of bytes.
pub(crate) fn count_chars(text: &str) -> i64
    ensures { result ≡ pos (length (chars text.now)) }
{
    text.chars().count() as i64
}
