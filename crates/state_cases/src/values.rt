//! The values of a kept list, as lines give them.

use crate::line::table_of;
use crate::making::{number_at, push_runs, row_or_nulls};
use case_text::items_of;
use entry_model::restored::{Live, LiveList, Restored, SetTable, SetTableList, Taken, TakenList};
use osq_value::{NoMemory, Row, RowList, Str};
use serde_json::Value as Json;
use std::alloc::Global;

/// What a line says of values, and what the last line of values said.
#[derive(Clone, Copy)]
pub(crate) struct Values<'a> {
    pub(crate) line: &'a Json,
    pub(crate) plain: &'a Json,
}

/// The row of an item; an empty one where there is none.
fn row_in(alloc: Global, item: Option<&Json>) -> Result<Row, NoMemory> {
    match item {
        Some(item) => row_or_nulls(alloc, item),
        None => Ok(Row::new(alloc)),
    }
}

/// The event of an array of its number, table, moment and row.
fn live_event(alloc: Global, items: &[Json]) -> Result<Live, NoMemory> {
    Ok(Live {
        number: number_at(items, 0),
        table: table_of(items.get(1)),
        moment: number_at(items, 2),
        row: row_in(alloc, items.get(3))?,
    })
}

fn push_live(alloc: Global, live: &mut LiveList, items: &[Json]) -> Result<(), NoMemory> {
    for item in items {
        live.push(live_event(alloc, items_of(Some(item)))?)?;
    }
    Ok(())
}

/// The rows behind the first item.
fn rows_behind_first(alloc: Global, items: &[Json]) -> Result<RowList, NoMemory> {
    let mut rows = RowList::new(alloc);
    for row in items.iter().skip(1) {
        rows.push(row_or_nulls(alloc, row)?)?;
    }
    Ok(rows)
}

/// The table of an array of its name and its rows.
fn set_table(alloc: Global, items: &[Json]) -> Result<SetTable, NoMemory> {
    Ok(SetTable {
        table: table_of(items.first()),
        rows: rows_behind_first(alloc, items)?,
    })
}

fn push_tables(alloc: Global, tables: &mut SetTableList, items: &[Json]) -> Result<(), NoMemory> {
    for item in items {
        tables.push(set_table(alloc, items_of(Some(item)))?)?;
    }
    Ok(())
}

/// The source of an array of its name and its offset.
fn source(alloc: Global, items: &[Json]) -> Result<Taken, NoMemory> {
    let name = items.first().and_then(Json::as_str).unwrap_or("");
    Ok(Taken {
        source: Str::of(alloc, name)?,
        offset: number_at(items, 1),
    })
}

fn push_taken(alloc: Global, taken: &mut TakenList, items: &[Json]) -> Result<(), NoMemory> {
    for item in items {
        taken.push(source(alloc, items_of(Some(item)))?)?;
    }
    Ok(())
}

impl<'a> Values<'a> {
    fn member(self, key: &str) -> Option<&'a Json> {
        match self.line.get(key) {
            Some(value) => Some(value),
            None => self.plain.get("values")?.get(key),
        }
    }

    fn number(self, key: &str) -> u64 {
        self.member(key).and_then(Json::as_u64).unwrap_or(0)
    }

    fn items(self, key: &str) -> &'a [Json] {
        items_of(self.member(key))
    }

    fn floors(self) -> [u64; 3] {
        let floors = self.items("floors");
        [
            number_at(floors, 0),
            number_at(floors, 1),
            number_at(floors, 2),
        ]
    }

    /// Gives values their numbers.
    fn give_numbers(self, restored: &mut Restored) {
        restored.position = self.number("position");
        restored.sessions = self.number("sessions");
        restored.moment = self.number("moment");
        restored.last = self.number("last");
        restored.floors = self.floors();
        restored.batches = self.number("batches");
        restored.acked = self.number("acked");
    }

    /// Gives values their lists, which are empty yet.
    fn give_lists(self, alloc: Global, restored: &mut Restored) -> Result<(), NoMemory> {
        push_live(alloc, &mut restored.live, self.items("live"))?;
        push_taken(alloc, &mut restored.taken, self.items("taken"))?;
        push_tables(alloc, &mut restored.tables, self.items("tables"))?;
        push_runs(alloc, &mut restored.runs, self.items("runs"))
    }

    /// The values.
    pub(crate) fn restored(self, alloc: Global) -> Result<Restored, NoMemory> {
        let mut restored = Restored::empty(alloc);
        self.give_numbers(&mut restored);
        self.give_lists(alloc, &mut restored)?;
        Ok(restored)
    }
}
