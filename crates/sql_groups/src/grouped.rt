//! Groups by a column or by some expressions, or one group of all rows, folded as the rows come.
ghost use Rattle.std.specs.Prelude.{◌≡◌, ◌++◌, ◌∷◌, [], IfOk, IfSome, List, None, Some, if◌then◌else◌, length, map, true};
ghost use Rattle.osq_value.specs.declared.value.Value.{Value as ValueOf};
ghost use Rattle.sql_query.specs.View.{expr_of};
ghost use Rattle.sql_meaning.specs.declared.joined.Joined.{Joined as JoinedOf};
ghost use Rattle.sql_meaning.specs.Lent.{values_in};
ghost use Rattle.sql_meaning.specs.Worths.{worths};
ghost use Rattle.sql_groups.specs.declared.items.GroupItem.{GroupItem as GroupItemOf};
ghost use Rattle.sql_groups.specs.Folding.{item_over, lists, lists_by};
ghost use Rattle.sql_groups.specs.Grouping.{Adds, AddsKey, AreKnown, Begins, Folds, FoldsKeys, Grows, IsFolded, Puts, kept_values};
ghost use Rattle.sql_groups.specs.Keys.{key_worths, row_values};

use crate::items::GroupItem;
use crate::kept::is_kept;
use crate::keys::{RowKey, key_in};
use crate::set_key::{key_of_column, key_of_exprs};
use crate::so_far::SoFar;
use crate::watch::{Watch, is_last_spread};
use indexmap::IndexSet;
use osq_value::{NoMemory, Sequence, Value};
use set_keys::SetKey;
use sql_meaning::worth::{ResultRow, ResultRowList};
use sql_meaning::{Joined, value_in};
use sql_query::query::Condition;
use sql_query::tree::Expr;
use std::alloc::Global;

/// The columns of the result of one group, so far.
pub(crate) type GroupSoFar<'a> = Sequence<SoFar<'a>>;

/// Groups by different values, so far.
#[derive(Drop)]
pub(crate) struct FoundGroups<'a> {
    /// The values, in the order of the first rows that have them.
    pub values: IndexSet<&'a Value, SetKey>,
    /// The group of each value, at the value's place.
    pub groups: Vec<GroupSoFar<'a>>,
}

/// Groups by different values of some expressions, so far.
#[derive(Drop)]
pub(crate) struct KeyedGroups<'a> {
    /// The values, in the order of the first rows that have them.
    pub keys: IndexSet<RowKey<'a>, SetKey>,
    /// The group of each, at its place.
    pub groups: Vec<GroupSoFar<'a>>,
}

/// The groups of the rows for which the condition holds, by their values at a place, in the order of their first rows. Null is equal to
/// Null, and no number to a text. Each value is hashed where it stands; where very many differ, or they share hashes as if somebody had chosen
/// them, it begins again with a key that is drawn from all of them, so that no rows make it grow with their square. None where a row doesn't have the place,
/// or a number leaves its bounds.
pub(crate) fn groups_by_column<'a>(
    alloc: Global,
    place: u32,
    items: &[GroupItem<'a>],
    condition: &Condition,
    rows: &[Joined<'a>],
) -> Result<Option<Vec<GroupSoFar<'a>>>, NoMemory>
    ensures { IfOk result (λ found. IfSome found (λ groups. IsFolded items.now (lists place (map expr_of condition.now.parts) rows.now) groups.items)) }
{
    let watch = Watch::over_plain(alloc)?;
    match groups_of_column(alloc, SetKey::plain(), watch, place, items, condition, rows)? {
        Some(groups) => Ok(Some(groups)),
        None => {
            let key = key_of_column(rows, place);
            let watch = Watch::nothing(alloc);
            groups_of_column(alloc, key, watch, place, items, condition, rows)
        }
    }
}

/// The same by a set that is hashed by this key. None also where another key is to be drawn.
fn groups_of_column<'a>(
    alloc: Global,
    key: SetKey,
    mut watch: Watch,
    place: u32,
    items: &[GroupItem<'a>],
    condition: &Condition,
    rows: &[Joined<'a>],
) -> Result<Option<Vec<GroupSoFar<'a>>>, NoMemory>
    ensures { IfOk result (λ found. IfSome found (λ groups. IsFolded items.now (lists place (map expr_of condition.now.parts) rows.now) groups.items)) }
{
    let mut found = FoundGroups {
        values: IndexSet::with_hasher(alloc, key),
        groups: Vec::new(alloc),
    };
    for row in rows {
        let before = found.groups.len();
        if !look_at(alloc, place, items, condition, &mut found, *row)? {
            return Ok(None);
        }
        if found.groups.len() > before && !is_last_spread(&mut watch, &found.values) {
            return Ok(None);
        }
    }
    Ok(Some(found.groups))
}

/// Adds the rows for which the condition holds to a group. The answer is false where a number leaves its bounds.
pub(crate) fn add_all<'a>(
    alloc: Global,
    condition: &Condition,
    group: &mut GroupSoFar<'a>,
    rows: &[Joined<'a>],
) -> Result<bool, NoMemory>
    ensures { IfOk result (λ is_told. is_told ≡ true → (items : List GroupItemOf) (before : List (List ValueOf)) → AreKnown items (kept_values (map expr_of condition.now.parts) before) group.old → AreKnown items (kept_values (map expr_of condition.now.parts) (before ++ map values_in rows.now)) group.new) }
{
    for row in rows {
        if !add_kept(alloc, condition, group.as_mut_slice(), *row)? {
            return Ok(false);
        }
    }
    Ok(true)
}

/// Adds a row to a group where the condition holds for it. The answer is false where a number leaves its bounds.
fn add_kept<'a>(
    alloc: Global,
    condition: &Condition,
    group: &mut [SoFar<'a>],
    row: Joined<'a>,
) -> Result<bool, NoMemory>
    ensures long { length group.new ≡ length group.old }
    ensures grows { IfOk result (λ is_told. is_told ≡ true → (items : List GroupItemOf) (rows : List (List ValueOf)) → AreKnown items (kept_values (map expr_of condition.now.parts) rows) group.old → AreKnown items (kept_values (map expr_of condition.now.parts) (rows ++ values_in row.entry ∷ [])) group.new) }
{
    if is_kept(alloc, condition, row)? {
        Ok(add_row(group, row))
    } else {
        Ok(true)
    }
}

/// The columns of the result before the first row of a group. None where one of them is that of the first row, since there may be none.
pub(crate) fn no_rows<'a>(
    alloc: Global,
    items: &[GroupItem],
) -> Result<Option<GroupSoFar<'a>>, NoMemory>
    ensures { IfOk result (λ begun. IfSome begun (λ group. AreKnown items.now [] group)) }
{
    let mut group = GroupSoFar::with_capacity(alloc, items.len())?;
    for item in items {
        let Some(so_far) = SoFar::without_rows(*item) else {
            return Ok(None);
        };
        group.push(so_far)?;
    }
    Ok(Some(group))
}

/// Adds a row for which the condition holds to its group. The answer is false where it doesn't have the place, or a number leaves its
/// bounds.
fn look_at<'a>(
    alloc: Global,
    place: u32,
    items: &[GroupItem<'a>],
    condition: &Condition,
    found: &mut FoundGroups<'a>,
    row: Joined<'a>,
) -> Result<bool, NoMemory>
    ensures { IfOk result (λ is_told. is_told ≡ true → (rows : List JoinedOf) → Folds place (map expr_of condition.now.parts) items.now rows found.old → Folds place (map expr_of condition.now.parts) items.now (rows ++ row.entry ∷ []) found.new) }
{
    if !is_kept(alloc, condition, row)? {
        return Ok(true);
    }
    match value_in(row, place) {
        None => Ok(false),
        Some(value) => add(alloc, items, found, row, value),
    }
}

/// Adds a row to the group of its value, which begins with it where no earlier row has that value.
fn add<'a>(
    alloc: Global,
    items: &[GroupItem<'a>],
    found: &mut FoundGroups<'a>,
    row: Joined<'a>,
    value: &'a Value,
) -> Result<bool, NoMemory>
    ensures { IfOk result (λ is_told. is_told ≡ true → Adds items.now found.old row.entry value.entry.now found.new) }
{
    let (at, is_new) = found.values.insert_full(value)?;
    put(alloc, items, &mut found.groups, row, at, is_new)
}

/// The groups of the rows for which the condition holds, by their values of some expressions, in the order of their first rows. Null is
/// equal to Null, and no number to a text. Each row's values are hashed; where very many differ, or they share hashes, it begins again with a key that
/// is drawn from all of them. None where a number leaves its bounds.
pub(crate) fn groups_by_keys<'a>(
    alloc: Global,
    exprs: &[&'a Expr],
    items: &[GroupItem<'a>],
    condition: &Condition,
    rows: &[Joined<'a>],
) -> Result<Option<Vec<GroupSoFar<'a>>>, NoMemory>
    ensures { IfOk result (λ found. IfSome found (λ groups. IsFolded items.now (lists_by (row_values (map (λ expr. expr_of expr.now) exprs.now)) (map expr_of condition.now.parts) rows.now) groups.items)) }
{
    let watch = Watch::over_plain(alloc)?;
    match groups_of_keys(alloc, SetKey::plain(), watch, exprs, items, condition, rows)? {
        Some(groups) => Ok(Some(groups)),
        None => {
            let key = key_of_exprs(alloc, rows, exprs)?;
            let watch = Watch::nothing(alloc);
            groups_of_keys(alloc, key, watch, exprs, items, condition, rows)
        }
    }
}

/// The same by a set that is hashed by this key. None also where another key is to be drawn.
fn groups_of_keys<'a>(
    alloc: Global,
    key: SetKey,
    mut watch: Watch,
    exprs: &[&'a Expr],
    items: &[GroupItem<'a>],
    condition: &Condition,
    rows: &[Joined<'a>],
) -> Result<Option<Vec<GroupSoFar<'a>>>, NoMemory>
    ensures { IfOk result (λ found. IfSome found (λ groups. IsFolded items.now (lists_by (row_values (map (λ expr. expr_of expr.now) exprs.now)) (map expr_of condition.now.parts) rows.now) groups.items)) }
{
    let mut found = KeyedGroups {
        keys: IndexSet::with_hasher(alloc, key),
        groups: Vec::new(alloc),
    };
    for row in rows {
        let before = found.groups.len();
        if !look_by(alloc, exprs, items, condition, &mut found, *row)? {
            return Ok(None);
        }
        if found.groups.len() > before && !is_last_spread(&mut watch, &found.keys) {
            return Ok(None);
        }
    }
    Ok(Some(found.groups))
}

/// Adds a row for which the condition holds to its group. The answer is false where a number leaves its bounds.
fn look_by<'a>(
    alloc: Global,
    exprs: &[&'a Expr],
    items: &[GroupItem<'a>],
    condition: &Condition,
    found: &mut KeyedGroups<'a>,
    row: Joined<'a>,
) -> Result<bool, NoMemory>
    ensures { IfOk result (λ is_told. is_told ≡ true → (rows : List JoinedOf) → FoldsKeys (map (λ expr. expr_of expr.now) exprs.now) (map expr_of condition.now.parts) items.now rows found.old → FoldsKeys (map (λ expr. expr_of expr.now) exprs.now) (map expr_of condition.now.parts) items.now (rows ++ row.entry ∷ []) found.new) }
{
    if !is_kept(alloc, condition, row)? {
        return Ok(true);
    }
    let key = key_in(alloc, row, exprs)?;
    add_by(alloc, items, found, row, key)
}

/// Adds a row to the group of its values, which begins with it where no earlier row has them.
fn add_by<'a>(
    alloc: Global,
    items: &[GroupItem<'a>],
    found: &mut KeyedGroups<'a>,
    row: Joined<'a>,
    key: RowKey<'a>,
) -> Result<bool, NoMemory>
    ensures { IfOk result (λ is_told. is_told ≡ true → AddsKey items.now found.old row.entry (key_worths key.entry) found.new) }
{
    let (at, is_new) = found.keys.insert_full(key)?;
    put(alloc, items, &mut found.groups, row, at, is_new)
}

/// Adds a row to the group at a place, or a new one that begins with it.
fn put<'a>(
    alloc: Global,
    items: &[GroupItem<'a>],
    groups: &mut Vec<GroupSoFar<'a>>,
    row: Joined<'a>,
    at: usize,
    is_new: bool,
) -> Result<bool, NoMemory>
    ensures { IfOk result (λ is_told. is_told ≡ true → Puts items.now groups.old.items (if is_new then None else Some at) (values_in row.entry) groups.new.items) }
{
    if is_new {
        push_begun(alloc, items, groups, row)
    } else if at < groups.len() {
        Ok(add_row(groups[at].as_mut_slice(), row))
    } else {
        Ok(false)
    }
}

/// Adds a group that begins with a row.
fn push_begun<'a>(
    alloc: Global,
    items: &[GroupItem<'a>],
    groups: &mut Vec<GroupSoFar<'a>>,
    row: Joined<'a>,
) -> Result<bool, NoMemory>
    ensures { IfOk result (λ is_told. is_told ≡ true → Begins items.now groups.old.items (values_in row.entry) groups.new.items) }
{
    match begun(alloc, items, row)? {
        None => Ok(false),
        Some(group) => {
            groups.push(group)?;
            Ok(true)
        }
    }
}

/// The columns of the result after the first row of a group.
fn begun<'a>(
    alloc: Global,
    items: &[GroupItem<'a>],
    row: Joined<'a>,
) -> Result<Option<GroupSoFar<'a>>, NoMemory>
    ensures { IfOk result (λ begun. IfSome begun (λ group. AreKnown items.now (values_in row.entry ∷ []) group)) }
{
    let mut group = GroupSoFar::with_capacity(alloc, items.len())?;
    for item in items {
        let Some(so_far) = SoFar::begun(*item, row) else {
            return Ok(None);
        };
        group.push(so_far)?;
    }
    Ok(Some(group))
}

/// Adds a row to a group. The answer is false where a number leaves its bounds.
fn add_row<'a>(group: &mut [SoFar<'a>], row: Joined<'a>) -> bool
    ensures long { length group.new ≡ length group.old }
    ensures grows { result ≡ true → Grows (values_in row.entry) group.old group.new }
{
    for at in 0..group.len() {
        match group[at].with_row(row) {
            None => return false,
            Some(more) => group[at] = more,
        }
    }
    true
}

/// A row of the result for each group, none where a count leaves 64 bits.
pub(crate) fn result_rows<'a>(
    alloc: Global,
    groups: &[GroupSoFar<'a>],
) -> Result<Option<ResultRowList<'a>>, NoMemory>
    ensures { IfOk result (λ made. IfSome made (λ rows. (items : List GroupItemOf) (lists : List (List (List ValueOf))) → IsFolded items lists groups.now → map worths rows ≡ map (λ rows. map (λ item. item_over item rows) items) lists)) }
{
    let mut rows = ResultRowList::with_capacity(alloc, groups.len())?;
    for group in groups {
        let Some(row) = result_row(alloc, group.as_slice())? else {
            return Ok(None);
        };
        rows.push(row)?;
    }
    Ok(Some(rows))
}

pub(crate) fn result_row<'a>(
    alloc: Global,
    group: &[SoFar<'a>],
) -> Result<Option<ResultRow<'a>>, NoMemory>
    ensures { IfOk result (λ made. IfSome made (λ row. (items : List GroupItemOf) (rows : List (List ValueOf)) → AreKnown items rows group.now → worths row ≡ map (λ item. item_over item rows) items)) }
{
    let mut row = ResultRow::with_capacity(alloc, group.len())?;
    for so_far in group {
        let Some(worth) = so_far.worth(alloc)? else {
            return Ok(None);
        };
        row.push(worth)?;
    }
    Ok(Some(row))
}
