//! The first of rows with equal values.
ghost use Rattle.std.specs.Prelude.{◌≡◌, IfOk, map, take};
ghost use Rattle.sql_meaning.specs.Firsts.{firsts_by};
ghost use Rattle.sql_meaning.specs.Fronts.{fronted};
ghost use Rattle.sql_meaning.specs.Worths.{worths};

use crate::front::Front;
use crate::set_key::key_of_rows;
use crate::worth::{ResultRowList, Worth};
use indexmap::IndexSet;
use osq_value::NoMemory;
use set_keys::SetKey;
use std::alloc::Global;

/// The rows whose first `width` values no earlier row has, as DISTINCT keeps them: Null is equal to Null, and no number
/// to a text. Each row is hashed once, and moved.
pub fn firsts<'a>(
    alloc: Global,
    rows: ResultRowList<'a>,
    width: usize,
) -> Result<ResultRowList<'a>, NoMemory>
    ensures { IfOk result (λ firsts. firsts ≡ firsts_by (λ row. take width (worths row)) rows.entry) }
{
    let mut firsts = ResultRowList::new(alloc);
    for front in first_fronts(alloc, rows, width)? {
        firsts.push(front.items)?;
    }
    Ok(firsts)
}

/// The same rows, which are found by their hash.
fn first_fronts<'a>(
    alloc: Global,
    rows: ResultRowList<'a>,
    width: usize,
) -> Result<IndexSet<Front<Worth<'a>>, SetKey>, NoMemory>
    ensures { IfOk result (λ firsts. firsts.keys ≡ map (fronted width) (firsts_by (λ row. take width (worths row)) rows.entry)) }
{
    let key = key_of_rows(rows.as_slice(), width);
    let mut firsts = IndexSet::with_hasher(alloc, key);
    for items in rows.into_vec() {
        firsts.insert(Front { items, width })?;
    }
    Ok(firsts)
}
