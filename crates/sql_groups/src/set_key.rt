//! By what a column's values, or those of some expressions, are hashed where they are more than a few: behind a key that is drawn from all of them.
ghost use Rattle.std.specs.Prelude.{IfOk};
ghost use Rattle.set_keys.specs.Hashing.{IsDrawn};

use crate::keys::key_in;
use osq_value::NoMemory;
use set_keys::{KeyDigest, SetKey};
use sql_meaning::{Joined, value_in};
use sql_query::tree::Expr;
use std::alloc::Global;

/// For the values at a place of these rows.
pub(crate) fn key_of_column(rows: &[Joined], place: u32) -> SetKey
    ensures { IsDrawn result }
{
    let mut digest = KeyDigest::new();
    for row in rows {
        if let Some(value) = value_in(*row, place) {
            digest.take(value);
        }
    }
    digest.into_key()
}

/// For the values of these expressions over these rows.
pub(crate) fn key_of_exprs<'a>(
    alloc: Global,
    rows: &[Joined<'a>],
    exprs: &[&'a Expr],
) -> Result<SetKey, NoMemory>
    ensures { IfOk result IsDrawn }
{
    let mut digest = KeyDigest::new();
    for row in rows {
        let key = key_in(alloc, *row, exprs)?;
        for worth in key.as_slice() {
            digest.take(worth.as_value());
        }
    }
    Ok(digest.into_key())
}
