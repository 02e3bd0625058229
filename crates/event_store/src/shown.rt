//! The rows that a view shows.

ghost use Rattle.std.specs.Prelude.{◌≡◌, length, slice_get};
ghost use Rattle.std.specs.Option.{option_copied};
ghost use Rattle.event_store.specs.Parts.{rows_of};

use crate::parted::PartedRows;
use crate::shared::SharedRows;
use osq_value::Row;
use std::marker::Model;

/// The rows that a view shows of a table.
#[derive(Drop)]
pub struct ShownRows {
    held: Held,
}

/// In how many parts they are.
#[derive(Drop)]
enum Held {
    Whole(SharedRows),
    Parted(PartedRows),
}

impl Model for ShownRows {
    ghost use Rattle.std.specs.Prelude.{List};
    ghost use Rattle.osq_value.specs.declared.value.Value.{Value as Cell};
    ghost use Rattle.event_store.specs.Shown.{shown_of};

    ghost Value = { List (List Cell) };

    ghost view = { λ s. shown_of s.held };
}

impl ShownRows {
    /// Rows that others may share. It takes no memory.
    pub fn whole(rows: SharedRows) -> ShownRows
        ensures { result ≡ rows }
    {
        ShownRows {
            held: Held::Whole(rows),
        }
    }

    /// Rows in parts that others may share. It takes no memory.
    pub fn parted(rows: PartedRows) -> ShownRows
        ensures { result ≡ rows_of rows }
    {
        ShownRows {
            held: Held::Parted(rows),
        }
    }

    /// The number of rows.
    pub fn len(&self) -> usize
        ensures { result ≡ length self.now }
    {
        match &self.held {
            Held::Whole(rows) => rows.len(),
            Held::Parted(rows) => rows.len(),
        }
    }

    /// The row at this place, from 0.
    pub fn get(&self, at: usize) -> Option<&Row>
        ensures { option_copied result ≡ slice_get self.now at }
    {
        match &self.held {
            Held::Whole(rows) => rows.get(at),
            Held::Parted(rows) => rows.get(at),
        }
    }
}
