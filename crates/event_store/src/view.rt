//! What a query sees.

ghost use Rattle.std.specs.Prelude.{◌≡◌, ◌<◌, [], true, set, slice_get, slice_index_or};
ghost use Rattle.std.specs.Option.{option_copied};
ghost use Rattle.osq_value.specs.Catalogue.{width_of, is_computed_id};
ghost use Rattle.event_store.specs.Contents.{AreWide, rows_in};
ghost use Rattle.event_store.specs.Inside.{shown_by, AreShown};
ghost use Rattle.event_store.specs.Parts.{rows_of};

use crate::parted::PartedRows;
use crate::recorded::FIRST;
use crate::shared::SharedRows;
use crate::shown::ShownRows;
use crate::slice::SharedEvents;
use osq_value::{Row, TableId, Tables};
use std::marker::Model;

/// The rows of each table of the catalogue, by the table's number.
#[derive(Drop)]
pub struct CutView {
    events: SharedEvents,
    /// Those of the recorded tables, and then those of the computed ones.
    tables: Vec<ShownRows>,
}

impl Model for CutView {
    ghost use Rattle.event_store.specs.Contents.{Shown, IsView};

    ghost Value = { Shown };

    ghost use Rattle.event_store.specs.Inside.{shown_by, AreShown};

    ghost view = { λ v. shown_by v.events.live v.tables.items };

    ghost invariant = { λ v. AreShown v.events.live v.tables.items };
}

impl CutView {
    /// The view of these events and tables, which are moved. It takes no memory.
    pub(crate) fn of(events: SharedEvents, tables: Vec<ShownRows>) -> CutView
        requires { AreShown events.live tables.items }
        ensures { result ≡ shown_by events.live tables.items }
    {
        CutView { events, tables }
    }

    /// The row of an event of a table, at this place.
    fn event_row(&self, table: usize, at: usize) -> Option<&Row>
        requires { table < 3 }
        ensures { option_copied result ≡ slice_get (slice_index_or self.now table []) at }
    {
        let events = self.events.events();
        if at < events.len(table) {
            Some(&events.event(table, at).row)
        } else {
            None
        }
    }

    /// Gives a computed table these rows, which others may share. It takes no memory.
    pub fn set_computed(&mut self, table: TableId, rows: SharedRows)
        requires computed { is_computed_id table.0 ≡ true }
        requires wide { AreWide (width_of table.0) rows }
        ensures set { self.new ≡ set self.old table.0 rows }
    {
        self.tables[(table.0 - FIRST) as usize] = ShownRows::whole(rows);
    }

    /// Gives a computed table these rows, of which others may share the parts. It takes no memory.
    pub fn set_parts(&mut self, table: TableId, rows: PartedRows)
        requires computed { is_computed_id table.0 ≡ true }
        requires wide { AreWide (width_of table.0) (rows_of rows) }
        ensures set { self.new ≡ set self.old table.0 (rows_of rows) }
    {
        self.tables[(table.0 - FIRST) as usize] = ShownRows::parted(rows);
    }
}

impl Tables for CutView {
    ghost use Rattle.std.proofs.Common.{arith};
    ghost use Rattle.event_store.specs.Contents.{rows_in};

    ghost rows_of = { rows_in };

    fn count(&self, table: TableId) -> usize {
        if table.0 < FIRST {
            self.events.events().len(table.0 as usize)
        } else if table.0 < 15 {
            self.tables[(table.0 - FIRST) as usize].len()
        } else {
            0
        }
    }

    fn row(&self, table: TableId, at: usize) -> Option<&Row> {
        if table.0 < FIRST {
            self.event_row(table.0 as usize, at)
        } else if table.0 < 15 {
            self.tables[(table.0 - FIRST) as usize].get(at)
        } else {
            None
        }
    }

    ghost outside = { λ view table past named. Prim.grind (arith) };
}
