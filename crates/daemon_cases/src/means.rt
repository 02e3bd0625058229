//! The rows that batches are to have: the queries are answered again, over tables that are made of the list.

use crate::rows::are_same;
use entry_model::entry::{Batch, Entry};
use osq_value::{Copied, Event, NoMemory, Row, RowList, TableId, Tables};
use query_answers::answer;
use std::alloc::Global;

/// A view with rows of `users`, and of `file_events` those of events above a number.
#[derive(Drop)]
struct TwoTables {
    changes: RowList,
    users: RowList,
    /// The number above which events are.
    floor: u64,
    /// The number of the last event.
    last: u64,
}

impl Tables for TwoTables {
    ghost use Rattle.std.specs.Prelude.{◌==◌, if◌then◌else◌, []};
    ghost use Rattle.std.proofs.Common.{arith};
    ghost use Rattle.osq_value.specs.declared.value.TheConstants.TableId.{FILE_EVENTS, USERS};

    ghost rows_of = { λ s table. if table == FILE_EVENTS.0 then s.changes else (if table == USERS.0 then s.users else []) };

    fn count(&self, table: TableId) -> usize {
        if table.0 == TableId::FILE_EVENTS.0 {
            self.changes.len()
        } else if table.0 == TableId::USERS.0 {
            self.users.len()
        } else {
            0
        }
    }

    fn row(&self, table: TableId, at: usize) -> Option<&Row> {
        if table.0 == TableId::FILE_EVENTS.0 {
            self.changes.get(at)
        } else if table.0 == TableId::USERS.0 {
            self.users.get(at)
        } else {
            None
        }
    }

    ghost outside = { λ s table past named. Prim.grind (arith) };
}

impl TwoTables {
    /// A view without rows, for the events above `floor`.
    fn above(alloc: Global, floor: u64) -> TwoTables {
        TwoTables {
            changes: RowList::new(alloc),
            users: RowList::new(alloc),
            floor,
            last: 0,
        }
    }

    /// Adds the next event.
    fn add_event(&mut self, alloc: Global, event: &Event) -> Result<(), NoMemory> {
        self.last = self.last.saturating_add(1);
        if self.last > self.floor && event.table.0 == TableId::FILE_EVENTS.0 {
            self.changes.push(event.row.copy(alloc)?)?;
        }
        Ok(())
    }

    /// Adds the next events.
    fn add_events(&mut self, alloc: Global, events: &[Event]) -> Result<(), NoMemory> {
        for event in events {
            self.add_event(alloc, event)?;
        }
        Ok(())
    }

    /// Sets the rows of a table.
    fn set(&mut self, alloc: Global, table: TableId, rows: &RowList) -> Result<(), NoMemory> {
        if table.0 == TableId::USERS.0 {
            self.users = rows.copy(alloc)?;
        }
        Ok(())
    }

    /// Adds what an entry adds to the tables.
    fn add(&mut self, alloc: Global, entry: &Entry) -> Result<(), NoMemory> {
        match entry {
            Entry::Appended {
                source: _,
                taken: _,
                events,
                skipped: _,
                moment: _,
            } => self.add_events(alloc, events.as_slice()),
            Entry::TableSet {
                source: _,
                table,
                rows,
                taken: _,
            } => self.set(alloc, *table, rows),
            _ => Ok(()),
        }
    }

    /// Adds what these entries add.
    fn add_all(&mut self, alloc: Global, entries: &[Entry]) -> Result<(), NoMemory> {
        for entry in entries {
            self.add(alloc, entry)?;
        }
        Ok(())
    }

    /// The rows are those that the text means over the view.
    fn means(&self, alloc: Global, text: &str, rows: &RowList) -> Result<bool, NoMemory> {
        match answer(alloc, text, self)? {
            Some(meant) => Ok(are_same(&meant, rows)),
            None => Ok(false),
        }
    }
}

/// The rows of the batch are those that its query means over the tables behind these entries.
pub(crate) fn rows_meant(
    alloc: Global,
    entries: &[Entry],
    batch: &Batch,
) -> Result<bool, NoMemory> {
    let mut tables = TwoTables::above(alloc, batch.lo);
    tables.add_all(alloc, entries)?;
    tables.means(alloc, batch.query.text.as_str(), &batch.rows)
}
