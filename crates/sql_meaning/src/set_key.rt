//! By what the values are hashed that are looked up.
//!
//! A stranger may have written them. Few are hashed without a key, and many behind one that is drawn from all of them, which nobody chooses.
ghost use Rattle.std.specs.Prelude.{◌≡◌, ◌<◌, ◌≤◌, length};
ghost use Rattle.set_keys.specs.Hashing.{IsDrawn, plain};

use crate::groups::Keyed;
use crate::worth::{ResultRow, Worth};
use osq_value::Value;
use set_keys::{FEW, KeyDigest, SetKey};

/// For a set of these values.
pub(crate) fn key_of_values(values: &[Value]) -> SetKey
    ensures few { length values.now ≤ 1024 → result ≡ plain }
    ensures many { 1024 < length values.now → IsDrawn result }
{
    if values.len() <= FEW {
        return SetKey::plain();
    }
    let mut digest = KeyDigest::new();
    for value in values {
        digest.take(value);
    }
    digest.into_key()
}

/// For a set of the first `width` values of these rows.
pub(crate) fn key_of_rows(rows: &[ResultRow], width: usize) -> SetKey
    ensures few { length rows.now ≤ 1024 → result ≡ plain }
    ensures many { 1024 < length rows.now → IsDrawn result }
{
    if rows.len() <= FEW {
        return SetKey::plain();
    }
    let mut digest = KeyDigest::new();
    for row in rows {
        take_front(&mut digest, row.as_slice(), width);
    }
    digest.into_key()
}

/// For a set of the keys of these members.
pub(crate) fn key_of_members(members: &[Keyed]) -> SetKey
    ensures few { length members.now ≤ 1024 → result ≡ plain }
    ensures many { 1024 < length members.now → IsDrawn result }
{
    if members.len() <= FEW {
        return SetKey::plain();
    }
    let mut digest = KeyDigest::new();
    for member in members {
        take_front(&mut digest, member.key.as_slice(), member.key.len());
    }
    digest.into_key()
}

/// Takes the first `width` values.
fn take_front(digest: &mut KeyDigest, worths: &[Worth], width: usize) {
    let (front, _) = worths.split_at(width.min(worths.len()));
    for worth in front {
        digest.take(worth.as_value());
    }
}
