//! The first of rows with equal values of a column, or of some expressions.
ghost use Rattle.std.specs.Prelude.{◌≡◌, ◌++◌, ◌∷◌, [], IfOk, IfSome, List, OnOk, map, true};
ghost use Rattle.sql_query.specs.View.{expr_of};
ghost use Rattle.sql_meaning.specs.declared.joined.Joined.{Joined as JoinedOf};
ghost use Rattle.sql_groups.specs.Different.{Adds, AddsKey, HasFound, HasFoundKeys, different, different_by};
ghost use Rattle.sql_groups.specs.Keys.{key_worths};

use crate::kept::is_kept;
use crate::keys::{RowKey, key_in};
use crate::set_key::{key_of_column, key_of_exprs};
use crate::watch::{Watch, is_last_spread};
use indexmap::IndexSet;
use osq_value::{NoMemory, Sequence, Value};
use set_keys::SetKey;
use sql_meaning::{Joined, value_in};
use sql_query::query::Condition;
use sql_query::tree::Expr;
use std::alloc::Global;

/// Rows whose values of a column differ, and these values.
#[derive(Drop)]
struct FoundRows<'a> {
    values: IndexSet<&'a Value, SetKey>,
    rows: Sequence<Joined<'a>>,
}

/// The rows for which the condition holds and whose value at a place no earlier one of them has, where all of them have that place. Null is
/// equal to Null, and no number to a text. Each value is hashed where it stands; where very many differ, or they share hashes as if somebody had
/// chosen them, it begins again with a key that is drawn from all of them, so that no rows make it grow with their square.
pub(crate) fn different<'a>(
    alloc: Global,
    place: u32,
    condition: &Condition,
    rows: &[Joined<'a>],
) -> Result<Option<Sequence<Joined<'a>>>, NoMemory>
    ensures { IfOk result (λ found. IfSome found (λ made. made ≡ different place (map expr_of condition.now.parts) rows.now)) }
{
    let watch = Watch::over_plain(alloc)?;
    match different_by_key(alloc, SetKey::plain(), watch, place, condition, rows)? {
        Some(found) => Ok(Some(found)),
        None => {
            let key = key_of_column(rows, place);
            different_by_key(alloc, key, Watch::nothing(alloc), place, condition, rows)
        }
    }
}

/// The same by a set that is hashed by this key. None also where another key is to be drawn.
fn different_by_key<'a>(
    alloc: Global,
    key: SetKey,
    mut watch: Watch,
    place: u32,
    condition: &Condition,
    rows: &[Joined<'a>],
) -> Result<Option<Sequence<Joined<'a>>>, NoMemory>
    ensures { IfOk result (λ found. IfSome found (λ made. made ≡ different place (map expr_of condition.now.parts) rows.now)) }
{
    let mut found = FoundRows {
        values: IndexSet::with_hasher(alloc, key),
        rows: Sequence::new(alloc),
    };
    for row in rows {
        let before = found.rows.len();
        if !look_at(alloc, place, condition, &mut found, *row)? {
            return Ok(None);
        }
        if found.rows.len() > before && !is_last_spread(&mut watch, &found.values) {
            return Ok(None);
        }
    }
    Ok(Some(found.rows))
}

/// Adds a row for which the condition holds, where no earlier one has its value. The answer is false where it doesn't have the place.
fn look_at<'a>(
    alloc: Global,
    place: u32,
    condition: &Condition,
    found: &mut FoundRows<'a>,
    row: Joined<'a>,
) -> Result<bool, NoMemory>
    ensures { IfOk result (λ has_place. has_place ≡ true → (rows : List JoinedOf) → HasFound place (map expr_of condition.now.parts) rows found.old → HasFound place (map expr_of condition.now.parts) (rows ++ row.entry ∷ []) found.new) }
{
    if !is_kept(alloc, condition, row)? {
        return Ok(true);
    }
    match value_in(row, place) {
        None => Ok(false),
        Some(value) => {
            add(found, row, value)?;
            Ok(true)
        }
    }
}

/// Adds a row, where no earlier one has its value.
fn add<'a>(found: &mut FoundRows<'a>, row: Joined<'a>, value: &'a Value) -> Result<(), NoMemory>
    ensures { OnOk result (Adds found.old row.entry value.entry.now found.new) }
{
    if found.values.insert(value)? {
        found.rows.push(row)?;
    }
    Ok(())
}

/// Rows whose values of some expressions differ, and these values.
#[derive(Drop)]
struct FoundKeys<'a> {
    keys: IndexSet<RowKey<'a>, SetKey>,
    rows: Sequence<Joined<'a>>,
}

/// The rows for which the condition holds and whose values of the expressions no earlier one of them has. Null is equal to Null, and no
/// number to a text. Each row's values are hashed; where very many differ, or they share hashes, it begins again with a key that is drawn
/// from all of them. None where they share hashes even so.
pub(crate) fn different_by<'a>(
    alloc: Global,
    exprs: &[&'a Expr],
    condition: &Condition,
    rows: &[Joined<'a>],
) -> Result<Option<Sequence<Joined<'a>>>, NoMemory>
    ensures { IfOk result (λ found. IfSome found (λ made. made ≡ different_by (map (λ expr. expr_of expr.now) exprs.now) (map expr_of condition.now.parts) rows.now)) }
{
    let watch = Watch::over_plain(alloc)?;
    match different_by_keys(alloc, SetKey::plain(), watch, exprs, condition, rows)? {
        Some(found) => Ok(Some(found)),
        None => {
            let key = key_of_exprs(alloc, rows, exprs)?;
            different_by_keys(alloc, key, Watch::nothing(alloc), exprs, condition, rows)
        }
    }
}

/// The same by a set that is hashed by this key. None where another key is to be drawn.
fn different_by_keys<'a>(
    alloc: Global,
    key: SetKey,
    mut watch: Watch,
    exprs: &[&'a Expr],
    condition: &Condition,
    rows: &[Joined<'a>],
) -> Result<Option<Sequence<Joined<'a>>>, NoMemory>
    ensures { IfOk result (λ found. IfSome found (λ made. made ≡ different_by (map (λ expr. expr_of expr.now) exprs.now) (map expr_of condition.now.parts) rows.now)) }
{
    let mut found = FoundKeys {
        keys: IndexSet::with_hasher(alloc, key),
        rows: Sequence::new(alloc),
    };
    for row in rows {
        let before = found.rows.len();
        look_by(alloc, exprs, condition, &mut found, *row)?;
        if found.rows.len() > before && !is_last_spread(&mut watch, &found.keys) {
            return Ok(None);
        }
    }
    Ok(Some(found.rows))
}

/// Adds a row for which the condition holds, where no earlier one has its values.
fn look_by<'a>(
    alloc: Global,
    exprs: &[&'a Expr],
    condition: &Condition,
    found: &mut FoundKeys<'a>,
    row: Joined<'a>,
) -> Result<(), NoMemory>
    ensures { OnOk result ((rows : List JoinedOf) → HasFoundKeys (map (λ expr. expr_of expr.now) exprs.now) (map expr_of condition.now.parts) rows found.old → HasFoundKeys (map (λ expr. expr_of expr.now) exprs.now) (map expr_of condition.now.parts) (rows ++ row.entry ∷ []) found.new) }
{
    if is_kept(alloc, condition, row)? {
        let key = key_in(alloc, row, exprs)?;
        add_key(found, row, key)
    } else {
        Ok(())
    }
}

/// Adds a row, where no earlier one has its values.
fn add_key<'a>(found: &mut FoundKeys<'a>, row: Joined<'a>, key: RowKey<'a>) -> Result<(), NoMemory>
    ensures { OnOk result (AddsKey found.old row.entry (key_worths key.entry) found.new) }
{
    if found.keys.insert(key)? {
        found.rows.push(row)?;
    }
    Ok(())
}
