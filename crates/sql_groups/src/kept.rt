//! The rows for which a condition holds.
ghost use Rattle.std.specs.Prelude.{◌≡◌, IfOk, map};
ghost use Rattle.sql_query.specs.View.{expr_of};
ghost use Rattle.sql_groups.specs.Kept.{is_kept};

use osq_value::NoMemory;
use sql_meaning::{Joined, Over, holds};
use sql_query::query::Condition;
use std::alloc::Global;

/// Whether the condition holds of a row. The empty one is the most frequent, since WHERE is mostly asked where tables are read.
pub(crate) fn is_kept(alloc: Global, condition: &Condition, row: Joined) -> Result<bool, NoMemory>
    ensures { IfOk result (λ truth. truth ≡ is_kept (map expr_of condition.now.parts) row.entry) }
{
    match condition.parts.as_slice() {
        [] => Ok(true),
        parts => holds(alloc, Over::Lent { row }, parts),
    }
}
