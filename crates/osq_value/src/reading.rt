//! What a source gave: events, or a table.

use crate::memory::NoMemory;
use crate::rows::RowList;
use crate::sequence::{Copied, Sequence};
use crate::text::{Str, TextList};
use crate::value::{EventList, TableId};
use std::alloc::Global;

/// A named set of paths: those that a pattern matches and no excluded pattern does.
#[derive(Drop)]
pub struct Category {
    /// Its key in the configuration, which is the value of `file_events.category`.
    pub name: Str,
    /// Path patterns, with `%` for any run of bytes without `/`.
    pub patterns: TextList,
    /// Path patterns of which none may match.
    pub excluded: TextList,
}

impl Copied for Category {
    fn copy(&self, alloc: Global) -> Result<Self, NoMemory> {
        Ok(Category {
            name: self.name.copy(alloc)?,
            patterns: self.patterns.copy(alloc)?,
            excluded: self.excluded.copy(alloc)?,
        })
    }
}

/// Categories, in the order in which they are given.
pub type CategoryList = Sequence<Category>;

/// What was read of a source: events, with the number of lines that were skipped, or a whole recorded table.
/// `taken` is the source's offset, in bytes, behind what was read.
#[derive(Drop)]
pub enum Reading {
    /// Events of evented tables.
    Events {
        taken: u64,
        events: EventList,
        skipped: u64,
    },
    /// All rows of a recorded table.
    Table {
        taken: u64,
        table: TableId,
        rows: RowList,
    },
}

impl Copied for Reading {
    fn copy(&self, alloc: Global) -> Result<Self, NoMemory> {
        match self {
            Reading::Events {
                taken,
                events,
                skipped,
            } => Ok(Reading::Events {
                taken: *taken,
                events: events.copy(alloc)?,
                skipped: *skipped,
            }),
            Reading::Table { taken, table, rows } => Ok(Reading::Table {
                taken: *taken,
                table: *table,
                rows: rows.copy(alloc)?,
            }),
        }
    }
}

/// Readings, in the order in which they were made.
pub type ReadingList = Sequence<Reading>;
