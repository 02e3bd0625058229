//! The text that is kept of a file.

ghost use Rattle.std.specs.Prelude.{◌≡◌};
ghost use Rattle.config_files.specs.Texts.{text_of};

use osq_value::{Bytes, Str};

/// The bytes as a text, which is moved; the empty text where they aren't UTF-8.
pub(crate) fn text_of(bytes: Bytes) -> Str
    ensures { result ≡ text_of bytes }
{
    match String::from_utf8(bytes.into_vec()) {
        Ok(text) => Str::from_string(text),
        Err(_) => Str::empty(),
    }
}
