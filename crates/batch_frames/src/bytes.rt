//! Parts of bytes.

ghost use Rattle.std.specs.Prelude.{◌≡◌, drop};
ghost use Rattle.batch_frames.specs.Ends.{begins_with, behind_comma};

/// What stands behind so many bytes, or nothing.
pub(crate) fn behind(bytes: &[u8], count: usize) -> &[u8]
    ensures { result.now ≡ drop count bytes.now }
{
    match bytes.split_at_checked(count) {
        Some((_, rest)) => rest,
        None => &[],
    }
}

/// What stands behind a comma, where the bytes begin with one.
pub(crate) fn behind_comma(bytes: &[u8]) -> &[u8]
    ensures { result.now ≡ behind_comma bytes.now }
{
    match bytes.split_first() {
        Some((b',', rest)) => rest,
        _ => bytes,
    }
}

/// The first byte is this one.
pub(crate) fn begins_with(bytes: &[u8], byte: u8) -> bool
    ensures { result ≡ begins_with byte bytes.now }
{
    match bytes.first() {
        Some(first) => *first == byte,
        None => false,
    }
}
