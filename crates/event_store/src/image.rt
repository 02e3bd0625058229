//! The image of a kept list.

ghost use Rattle.std.specs.Prelude.{◌≡◌, ◌+◌, ◌-◌, ◌<◌, ◌≤◌, ◌^◌, ◌↔◌, true, length, All, IfOk, OnOk, OnErr, IfErr, IfSome, Err};
ghost use Rattle.osq_value.specs.Catalogue.{width_of};
ghost use Rattle.entry_model.specs.Fits.{Fits};
ghost use Rattle.entry_model.specs.Legal.{IsEvent};
ghost use Rattle.entry_model.specs.Views.{is_evented_table, is_recorded_table};
ghost use Rattle.event_store.specs.Contents.{live_at, floor_at, AreWide, Holds, cut_above, IsImage};
ghost use Rattle.event_store.specs.Costs.{events_cost, slice_cost};
ghost use Rattle.event_store.specs.Slices.{slice_above, IsSliceOf};
ghost use Rattle.event_store.specs.Owed.{owed_of};
ghost use Rattle.event_store.specs.Changes.{Appends, with_table, Expires};
ghost use Rattle.event_store.specs.declared.image.StoreError.{StoreError};

use crate::events::Events;
use crate::owed::{Limits, order_of};
use crate::recorded::{FIRST, add_computed, copy_sets, no_rows, share_tables};
use crate::shared::SharedRows;
use crate::slice::{EventSlice, SharedEvents};
use crate::steps::Steps;
use crate::view::CutView;
use entry_model::restored::Restored;
use osq_value::{Copied, EventList, NoMemory, RowList, TableId};
use std::alloc::Global;
use std::marker::Model;
use std::sync::ledger::Ledger;
use thiserror::Error;

/// The greatest number that an event may have.
const MOST: u64 = 1 << 62;

/// Why events were not appended.
#[derive(Clone, Copy, Debug, Error)]
pub enum StoreError {
    /// The last number would pass 2^62.
    #[error("event numbers are exhausted")]
    NumbersSpent,
    /// Memory was wanting.
    #[error("out of memory")]
    NoMemory,
}

/// The live events and the recorded tables of a kept list.
#[derive(Drop)]
pub struct Image {
    floors: [u64; 3],
    events: Events,
    /// The moment of the events that were appended last.
    latest: u64,
    /// No events were appended with an earlier moment than those before, so that the events that are old stand at the front.
    in_order: bool,
    tables: [SharedRows; 9],
}

impl Model for Image {
    ghost use Rattle.event_store.specs.Contents.{Contents};

    ghost Value = { Contents };

    ghost use Rattle.event_store.specs.Inside.{IsKept};

    ghost view = { λ i. record { last = i.events.last; floors = i.floors; live = i.events.live; tables = i.tables } };

    ghost invariant = { λ i. IsKept i.in_order i.latest (record { last = i.events.last; floors = i.floors; live = i.events.live; tables = i.tables }) };
}

/// The floors of the three evented tables.
fn three_floors(floors: &[u64; 3]) -> [u64; 3]
    ensures same { result ≡ floors.now }
    ensures count { length result ≡ 3 }
{
    *floors
}

impl Image {
    /// The image of a kept list with these values, whose events and rows are copied.
    pub fn restore(alloc: Global, restored: &Restored) -> Result<Image, NoMemory>
        requires { Fits restored.now }
        ensures { IfOk result (λ image. Holds restored.now image) }
    {
        let events = Events::restore(alloc, restored.live.as_slice(), restored.last)?;
        let (in_order, latest) = order_of(restored.live.as_slice());
        let mut tables = no_rows(alloc)?;
        copy_sets(alloc, &mut tables, restored.tables.as_slice())?;
        let floors = three_floors(&restored.floors);
        Ok(Image {
            floors,
            events,
            latest,
            in_order,
            tables,
        })
    }

    /// Adds the events, numbered behind the last one, all of them or none, and answers the last number before and after.
    /// A refused list is dropped. Each event is a step.
    /// NumbersSpent where the last number would pass 2^62.
    pub fn append<L: Ledger>(
        &mut self,
        events: EventList,
        moment: u64,
        steps: &mut Steps<L>,
    ) -> Result<(u64, u64), StoreError>
        requires { All IsEvent events }
        ensures numbers { IfOk result (λ numbers. numbers ≡ (self.old.last, self.old.last + length events)) }
        ensures ok { IfOk result (λ _. Appends self.old events moment self.new) }
        ensures spent { (result ≡ Err StoreError.NumbersSpent) ↔ (2 ^ 62 < self.old.last + length events) }
        ensures err { OnErr result (self.new ≡ self.old) }
        ensures all { OnOk result (steps.new ≡ steps.old + length events) }
        ensures most { steps.new ≤ steps.old + length events }
    {
        let before = self.events.last();
        let count = events.len() as u64;
        if count > MOST - before {
            return Err(StoreError::NumbersSpent);
        }
        match self.events.append(events, moment, steps) {
            Ok(()) => {}
            Err(NoMemory) => return Err(StoreError::NoMemory),
        }
        self.in_order &= self.latest <= moment;
        self.latest = moment;
        Ok((before, before + count))
    }

    /// What a query sees: of the events those above this number, which are shared but for the last 255, and the recorded
    /// tables, which are shared. The computed tables have no rows yet.
    pub fn slice<L: Ledger>(
        &self,
        alloc: Global,
        lo: u64,
        steps: &mut Steps<L>,
    ) -> Result<CutView, NoMemory>
        ensures shown { IfOk result (λ view. view ≡ cut_above lo self.now) }
        ensures cost { steps.new ≤ steps.old + slice_cost lo self.now }
    {
        let slice = self.events_above(alloc, lo, steps)?;
        self.view(alloc, slice, steps)
    }

    /// The events above this number, which are shared but for the last 255: of them views are made until events come or expire.
    pub fn events_above<L: Ledger>(
        &self,
        alloc: Global,
        lo: u64,
        steps: &mut Steps<L>,
    ) -> Result<EventSlice, NoMemory>
        ensures slice { IfOk result (λ slice. slice ≡ slice_above lo self.now) }
        ensures cost { steps.new ≤ steps.old + events_cost lo self.now }
    {
        let events = self.events.slice(alloc, lo, steps)?;
        Ok(EventSlice {
            above: lo,
            events: SharedEvents::of(alloc, events)?,
        })
    }

    /// What a query sees: these events of the image, and the recorded tables, which are shared. The computed tables have no rows
    /// yet.
    pub fn view<L: Ledger>(
        &self,
        alloc: Global,
        slice: EventSlice,
        steps: &mut Steps<L>,
    ) -> Result<CutView, NoMemory>
        requires { IsSliceOf self.now slice }
        ensures shown { IfOk result (λ view. view ≡ cut_above slice.above self.now) }
        ensures cost { steps.new ≤ steps.old + 9 }
    {
        let mut tables = Vec::with_capacity(alloc, 12)?;
        share_tables(&mut tables, &self.tables, steps)?;
        add_computed(alloc, &mut tables)?;
        Ok(CutView::of(slice.events, tables))
    }

    /// Drops the events of an evented table up to this number, and the first segments in which nothing is live any more.
    /// It takes no memory.
    pub fn expire(&mut self, table: TableId, floor: u64)
        requires evented { is_evented_table table.0 ≡ true }
        requires moves { floor_at self.old table.0 < floor }
        requires known { floor ≤ self.old.last }
        ensures { Expires self.old table.0 floor self.new }
    {
        self.floors[table.0 as usize] = floor;
        self.events.expire(table.0 as usize, floor);
    }

    /// What is known of every image: numbers rise, and rows have the width of their table.
    pub fn is_image(&self)
        ensures { IsImage self.now }
    {
        let _events = &self.events;
    }

    /// The number of the last event, 0 where there was none.
    pub fn last(&self) -> u64
        ensures { result ≡ self.now.last }
    {
        self.events.last()
    }

    /// Up to which number the events of an evented table have expired.
    pub fn floor(&self, table: TableId) -> u64
        requires { is_evented_table table.0 ≡ true }
        ensures { result ≡ floor_at self.now table.0 }
    {
        self.floors[table.0 as usize]
    }

    /// How many events of an evented table are live.
    pub fn live(&self, table: TableId) -> u64
        requires { is_evented_table table.0 ≡ true }
        ensures { result ≡ length (live_at self.now table.0) }
    {
        self.events.len(table.0 as usize) as u64
    }

    /// Gives a recorded table these rows, which are moved. Refused rows are dropped.
    pub fn set_table(
        &mut self,
        alloc: Global,
        table: TableId,
        rows: RowList,
    ) -> Result<(), NoMemory>
        requires recorded { is_recorded_table table.0 ≡ true }
        requires wide { AreWide (width_of table.0) rows }
        ensures set { OnOk result (self.new ≡ with_table self.old table.0 rows) }
        ensures err { OnErr result (self.new ≡ self.old) }
    {
        self.tables[(table.0 - FIRST) as usize] = SharedRows::of(alloc, rows)?;
        Ok(())
    }

    /// Up to which number the events of an evented table are to expire: the greatest number of one that is `expiry`
    /// seconds old at the moment and has at most the number `reached`, or after which come `max` of the table. None exactly
    /// where there is no such event. It takes no memory.
    pub fn floor_owed(
        &self,
        table: TableId,
        expiry: u64,
        max: u64,
        moment: u64,
        reached: u64,
    ) -> Option<u64>
        requires { is_evented_table table.0 ≡ true }
        ensures owed { result ≡ owed_of expiry max moment reached (live_at self.now table.0) }
        ensures moves { IfSome result (λ floor. (floor_at self.now table.0 < floor) × (floor ≤ self.now.last)) }
    {
        let limits = Limits {
            expiry,
            max,
            moment,
            reached,
        };
        self.events
            .floor_owed(table.0 as usize, self.in_order, limits)
    }
}
