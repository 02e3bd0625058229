//! Rows of tables that cuts share.

ghost use Rattle.std.specs.Prelude.{◌≡◌, length, slice_get, IfOk};
ghost use Rattle.std.specs.Option.{option_copied};

use osq_value::{NoMemory, Row, RowList};
use std::alloc::Global;
use std::marker::Model;
use std::sync::Arc;

/// The rows of a table, which contracts see as their list. `share` gives the same rows again and copies none.
#[derive(Drop)]
pub struct SharedRows {
    held: Arc<RowList, Global>,
}

impl Model for SharedRows {
    ghost use Rattle.std.specs.Prelude.{List};
    ghost use Rattle.std.specs.Arc.{arc_value};
    ghost use Rattle.osq_value.specs.declared.value.Value.{Value as Cell};

    ghost Value = { List (List Cell) };

    ghost view = { λ s. arc_value s.held };
}

impl SharedRows {
    /// These rows, which are moved.
    pub fn of(alloc: Global, rows: RowList) -> Result<SharedRows, NoMemory>
        ensures { IfOk result (λ shared. shared ≡ rows) }
    {
        Ok(SharedRows {
            held: Arc::new(alloc, rows)?,
        })
    }

    /// The same rows.
    pub fn share(&self) -> Result<SharedRows, NoMemory>
        ensures { IfOk result (λ shared. shared ≡ self.now) }
    {
        Ok(SharedRows {
            held: Arc::try_clone(&self.held)?,
        })
    }

    /// The number of rows.
    pub fn len(&self) -> usize
        ensures { result ≡ length self.now }
    {
        self.held.len()
    }

    /// The row at this place, from 0.
    pub fn get(&self, at: usize) -> Option<&Row>
        ensures { option_copied result ≡ slice_get self.now at }
    {
        self.held.get(at)
    }
}
