//! Words one behind another.

use osq_value::NoMemory;

/// Adds each of the words.
pub(crate) fn push_words(shown: &mut String, words: &[&str]) -> Result<(), NoMemory> {
    for word in words {
        shown.push_str(*word)?;
    }
    Ok(())
}
