//! A view with tables beside the catalogue's.

ghost use Rattle.std.specs.Prelude.{◌≡◌, IfSome, IfNone};
ghost use Rattle.sql_nested.specs.Extending.{extended};

use osq_value::{Row, RowList, TableId, Tables};
use sql_query::derived::FIRST_DERIVED;

/// A view with tables beside the catalogue's, by their places: the first has the number `FIRST_DERIVED`, and each other one the next. Of
/// every other number the rows are the view's.
#[derive(Clone, Copy)]
pub struct Extended<'a, V> {
    /// The view that is extended.
    pub view: &'a V,
    /// The rows of the tables, in the order of their numbers.
    pub made: &'a [RowList],
}

impl<'a, V: Tables> Extended<'a, V> {
    /// The rows of a table that stands beside the view.
    #[tactic(auto, unfolding(crate::specs::Extending::extended))]
    fn rows_beside(&self, table: TableId) -> Option<&[Row]>
        ensures some { IfSome result (λ rows. extended (V.rows_of self.now.view.now) self.now.made.now table.0 ≡ rows.now) }
        ensures none { IfNone result (extended (V.rows_of self.now.view.now) self.now.made.now table.0 ≡ V.rows_of self.now.view.now table.0) }
    {
        if table.0 < FIRST_DERIVED {
            return None;
        }
        match self.made.get((table.0 - FIRST_DERIVED) as usize) {
            Some(rows) => Some(rows.as_slice()),
            None => None,
        }
    }
}

impl<'a, V: Tables> Tables for Extended<'a, V> {
    ghost use Rattle.std.proofs.Common.{◌∙◌};
    ghost use Rattle.sql_nested.specs.Extending.{extended, extended-below};

    ghost rows_of = { λ s. extended (V.rows_of s.view.now) s.made.now };

    fn count(&self, table: TableId) -> usize {
        match self.rows_beside(table) {
            Some(rows) => rows.len(),
            None => self.view.count(table),
        }
    }

    fn row(&self, table: TableId, at: usize) -> Option<&Row> {
        match self.rows_beside(table) {
            Some(rows) => rows.get(at),
            None => self.view.row(table, at),
        }
    }

    ghost outside = { λ s table past named. extended-below (V.rows_of s.view.now) s.made.now table named ∙ V.outside s.view.now table past named };
}
