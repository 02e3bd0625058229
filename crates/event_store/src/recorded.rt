//! The rows of the recorded tables.

ghost use Rattle.std.specs.Prelude.{◌≡◌, ◌+◌, ◌≤◌, ◌<◌, ◌++◌, All, OnOk, IfOk, length, replicate, [], ◌∷◌};
ghost use Rattle.entry_model.specs.Fits.{TableFits};
ghost use Rattle.event_store.specs.Recorded.{with_sets};

use crate::shared::SharedRows;
use crate::shown::ShownRows;
use crate::steps::Steps;
use entry_model::restored::SetTable;
use osq_value::{Copied, NoMemory, RowList, TableId};
use std::alloc::Global;
use std::sync::ledger::Ledger;

/// The number of the first recorded table.
pub(crate) const FIRST: u8 = TableId::USERS.0;

/// No rows of each recorded table.
pub(crate) fn no_rows(alloc: Global) -> Result<[SharedRows; 9], NoMemory>
    ensures { IfOk result (λ tables. tables ≡ replicate 9 []) }
{
    let none = SharedRows::of(alloc, RowList::new(alloc))?;
    Ok([
        none.share()?,
        none.share()?,
        none.share()?,
        none.share()?,
        none.share()?,
        none.share()?,
        none.share()?,
        none.share()?,
        none,
    ])
}

/// Gives each of these tables a copy of its rows.
pub(crate) fn copy_sets(
    alloc: Global,
    tables: &mut [SharedRows],
    sets: &[SetTable],
) -> Result<(), NoMemory>
    requires fits { All TableFits sets.now }
    requires count { length tables.old ≡ 9 }
    ensures { OnOk result (tables.new ≡ with_sets tables.old sets.now) }
{
    for set in sets {
        tables[(set.table.0 - FIRST) as usize] = SharedRows::of(alloc, set.rows.copy(alloc)?)?;
    }
    Ok(())
}

/// Adds these tables, which are shared, with a step for each.
pub(crate) fn share_tables<L: Ledger>(
    all: &mut Vec<ShownRows>,
    tables: &[SharedRows],
    steps: &mut Steps<L>,
) -> Result<(), NoMemory>
    ensures ok { OnOk result (all.new.items ≡ all.old.items ++ tables.now) }
    ensures most { steps.new ≤ steps.old + length tables.now }
{
    for rows in tables {
        steps.tick();
        all.push(ShownRows::whole(rows.share()?))?;
    }
    Ok(())
}

/// Adds three tables without rows.
pub(crate) fn add_computed(alloc: Global, all: &mut Vec<ShownRows>) -> Result<(), NoMemory>
    ensures { OnOk result (all.new.items ≡ all.old.items ++ [] ∷ [] ∷ [] ∷ []) }
{
    let none = SharedRows::of(alloc, RowList::new(alloc))?;
    all.push(ShownRows::whole(none.share()?))?;
    all.push(ShownRows::whole(none.share()?))?;
    all.push(ShownRows::whole(none))?;
    Ok(())
}
