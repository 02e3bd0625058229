//! Values that are kept as rows.

ghost use Rattle.std.specs.Prelude.{◌≡◌, List, map};
ghost use Rattle.std.specs.List.{AllByRecursion};
ghost use Rattle.kept_tables.specs.Reads.{Gives};

use crate::error::TableError;
use osq_value::{Row, RowList, Sequence};
use std::alloc::Global;

/// A value that is kept as one row.
pub trait Shown: Drop {
    ghost use Rattle.std.specs.Prelude.{◌≡◌, List};
    ghost use Rattle.osq_value.specs.declared.value.Value.{Value};
    ghost use Rattle.kept_tables.specs.Reads.{Gives};

    /// The row.
    ghost shown: { Self → List Value };

    /// Which values the type holds.
    ghost is_held: { Self → Type 0 };

    /// The value that a row shows. A row that shows none may be refused, or give some value.
    fn of_row(alloc: Global, row: &Row) -> Result<Self, TableError>
        ensures { (value : Self) → is_held value → row.now ≡ shown value → Gives value result };
}

/// The values that these rows show.
pub fn all_of<T: Shown>(alloc: Global, found: &RowList) -> Result<Sequence<T>, TableError>
    ensures { (values : List T) → AllByRecursion T.is_held values → found.now ≡ map T.shown values → Gives values result }
{
    let mut values = Sequence::new(alloc);
    for row in found.as_slice() {
        values.push(T::of_row(alloc, row)?)?;
    }
    Ok(values)
}
