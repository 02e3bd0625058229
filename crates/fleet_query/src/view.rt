//! The tables of a host, as a query reads them.

ghost use Rattle.std.specs.Prelude.{◌≡◌};
ghost use Rattle.fleet_query.specs.Filled.{rows_in};

use osq_value::{Row, RowList, Sequence, TableId, Tables};
use sql_query::derived::{DerivedList, FIRST_DERIVED};

/// The derived tables of a host's frames with rows of them. A table of the catalogue has no rows here.
#[derive(Drop)]
pub struct FleetTables {
    /// Their names and columns, in the order of their numbers.
    pub(crate) derived: DerivedList,
    /// The rows of the tables, in the same order; none where a table isn't filled.
    pub(crate) rows: Sequence<RowList>,
}

impl FleetTables {
    /// The names and the columns of the tables, in the order of their numbers.
    pub fn derived(&self) -> &DerivedList
        ensures { result.now ≡ self.now.derived }
    {
        &self.derived
    }

    /// The rows of the table of that number, none of one that isn't there.
    fn rows(&self, table: TableId) -> &[Row]
        ensures { result.now ≡ rows_in self.now table.0 }
    {
        if table.0 < FIRST_DERIVED {
            return &[];
        }
        match self.rows.get((table.0 - FIRST_DERIVED) as usize) {
            Some(rows) => rows.as_slice(),
            None => &[],
        }
    }
}

impl Tables for FleetTables {
    ghost use Rattle.fleet_query.specs.Filled.{rows_in};
    ghost use Rattle.std.proofs.Common.{arith};

    ghost rows_of = { rows_in };

    fn count(&self, table: TableId) -> usize {
        self.rows(table).len()
    }

    fn row(&self, table: TableId, at: usize) -> Option<&Row> {
        self.rows(table).get(at)
    }

    ghost outside = { λ tables table past named. Prim.grind (arith) };
}
