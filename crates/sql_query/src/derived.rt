//! Tables that stand beside the catalogue.

ghost use Rattle.std.specs.Prelude.{◌≡◌, Some, None, IfSome, IfNone};
ghost use Rattle.sql_query.specs.Tables.{derived_at as derived_there};

use crate::query::SourceColumnList;
use osq_value::{Copied, NoMemory, Sequence, Str, TableId};
use std::alloc::Global;

/// The number of the first derived table, which no table of the catalogue has.
pub const FIRST_DERIVED: u8 = 100;

/// A table that stands beside the catalogue. The first of a list has the number `FIRST_DERIVED`, and each other one the next.
#[derive(Drop)]
pub struct Derived {
    /// The name by which FROM means it.
    pub name: Str,
    /// Its columns, in their order.
    pub columns: SourceColumnList,
}

impl Copied for Derived {
    fn copy(&self, alloc: Global) -> Result<Self, NoMemory> {
        Ok(Derived {
            name: self.name.copy(alloc)?,
            columns: self.columns.copy(alloc)?,
        })
    }
}

/// Derived tables in the order of their numbers.
pub type DerivedList = Sequence<Derived>;

/// The derived table of that number; none exactly where there is no such table.
#[tactic(auto, unfolding(crate::specs::Tables::derived_at))]
pub fn derived_at(derived: &[Derived], table: TableId) -> Option<&Derived>
    ensures found { IfSome result (λ found. derived_there derived.now table.0 ≡ Some found.now) }
    ensures none { IfNone result (derived_there derived.now table.0 ≡ None) }
{
    if table.0 < FIRST_DERIVED {
        return None;
    }
    derived.get((table.0 - FIRST_DERIVED) as usize)
}
