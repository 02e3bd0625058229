//! Groups of rows with equal keys.
ghost use Rattle.std.specs.Prelude.{◌≡◌, IfOk, [], ◌∷◌, map};
ghost use Rattle.sql_meaning.specs.Groups.{groups_by};
ghost use Rattle.sql_meaning.specs.Worths.{worths};

use crate::joined::{Joined, JoinedList};
use crate::set_key::key_of_members;
use crate::worth::ResultRow;
use indexmap::IndexSet;
use osq_value::{NoMemory, Sequence};
use std::alloc::Global;

/// A row, and the values by which it is grouped.
#[derive(Drop)]
pub struct Keyed<'a> {
    /// The values of the expressions of GROUP BY, in order.
    pub key: ResultRow<'a>,
    /// The row.
    pub row: Joined<'a>,
}

/// The rows of each group: those with equal keys, Null being equal to Null and no number to a text. Groups stand in the
/// order of their first rows, and rows in their own. Each key is hashed once, and no value is copied.
pub fn groups<'a>(
    alloc: Global,
    members: Sequence<Keyed<'a>>,
) -> Result<Sequence<JoinedList<'a>>, NoMemory>
    ensures { IfOk result (λ groups. groups ≡ map (map (λ member. member.row)) (groups_by (λ member. worths member.key) members.entry)) }
{
    let key = key_of_members(members.as_slice());
    let mut keys = IndexSet::with_hasher(alloc, key);
    let mut groups: Vec<JoinedList<'a>> = Vec::new(alloc);
    for member in members.into_vec() {
        let (at, is_new) = keys.insert_full(member.key)?;
        if is_new {
            groups.push(one_row(alloc, member.row)?)?;
        } else {
            groups[at].push(member.row)?;
        }
    }
    Ok(Sequence::from_vec(groups))
}

fn one_row<'a>(alloc: Global, row: Joined<'a>) -> Result<JoinedList<'a>, NoMemory>
    ensures { IfOk result (λ rows. rows ≡ row.entry ∷ []) }
{
    let mut rows = JoinedList::new(alloc);
    rows.push(row)?;
    Ok(rows)
}
