//! The live events, in segments.

ghost use Rattle.std.specs.Prelude.{◌≡◌, ◌+◌, ◌-◌, ◌/◌, ◌<◌, ◌≤◌, ◌^◌, ℕ, [], ◌∷◌, All, map, max, set, length, drop, slice_index, slice_index_or, OnOk, OnErr, IfOk, true};
ghost use Rattle.entry_model.specs.Fits.{IsRisingFrom};
ghost use Rattle.entry_model.specs.Legal.{IsEvent};
ghost use Rattle.entry_model.specs.Views.{is_evented_table};
ghost use Rattle.event_store.specs.Queues.{above, new_events, placed};
ghost use Rattle.event_store.specs.Costs.{least_number};
ghost use Rattle.event_store.specs.Segments.{all_of, live_in, all_live, IsSound, IsFirstAbove};

use crate::places::{drop_front, part_from, part_of};
use crate::placing::append_events;
use crate::segment::{Segment, SharedSegment, shared};
use crate::steps::Steps;
use entry_model::restored::Live;
use osq_value::{EventList, NoMemory};
use std::alloc::Global;
use std::sync::ledger::Ledger;

/// Closed segments, which others may share, and the tail.
#[derive(Drop)]
pub struct Segments {
    /// The number of the last event that ever was.
    pub(crate) last: u64,
    /// How many events of each table there were before the first one that is live.
    pub(crate) first: [usize; 3],
    pub(crate) parts: Vec<SharedSegment>,
    /// The events of the last range, which has numbers left.
    pub(crate) tail: Segment,
}

impl Segments {
    /// The number of live events of a table.
    pub(crate) fn len(&self, table: usize) -> usize
        requires sound { IsSound self.now }
        requires table { table < 3 }
        ensures { result ≡ length (live_in self.now table) }
    {
        self.tail.reach(table) - self.first[table]
    }

    /// The live event of a table at this place, from 0.
    pub(crate) fn event(&self, table: usize, at: usize) -> &Live
        requires sound { IsSound self.now }
        requires table { table < 3 }
        requires within { at < length (live_in self.now table) }
        ensures { result.now ≡ slice_index_or (live_in self.now table) at result.now }
    {
        let place = self.first[table] + at;
        let part = part_of(&self.parts, table, place);
        if part < self.parts.len() {
            self.parts[part].segment().event(table, place)
        } else {
            self.tail.event(table, place)
        }
    }

    /// How many live events of a table have at most this number.
    pub(crate) fn upto(&self, table: usize, number: u64) -> usize
        requires sound { IsSound self.now }
        requires table { table < 3 }
        requires rising { IsRisingFrom 0 (live_in self.now table) }
        ensures within { result ≤ length (live_in self.now table) }
        ensures above { drop result (live_in self.now table) ≡ above number (live_in self.now table) }
    {
        let mut low = 0;
        let mut high = self.len(table);
        while low < high {
            let middle = low + (high - low) / 2;
            if self.event(table, middle).number > number {
                high = middle;
            } else {
                low = middle + 1;
            }
        }
        low
    }

    /// Adds events, numbered behind the last one, all of them or none.
    pub(crate) fn append<L: Ledger>(
        &mut self,
        events: EventList,
        moment: u64,
        steps: &mut Steps<L>,
    ) -> Result<(), NoMemory>
        requires sound { IsSound self.old }
        requires events { All IsEvent events }
        requires small { self.old.last + length events ≤ 2 ^ 62 }
        ensures sound { IsSound self.new }
        ensures last { OnOk result (self.new.last ≡ self.old.last + length events) }
        ensures live { OnOk result (all_live self.new ≡ placed (all_live self.old) (new_events self.old.last moment events)) }
        ensures err { OnErr result ((self.new.last ≡ self.old.last) × (all_live self.new ≡ all_live self.old)) }
        ensures all { OnOk result (steps.new ≡ steps.old + length events) }
        ensures most { steps.new ≤ steps.old + length events }
    {
        let count = events.len() as u64;
        append_events(
            &mut self.parts,
            &mut self.tail,
            events,
            self.last,
            moment,
            steps,
        )?;
        self.last += count;
        Ok(())
    }

    /// Drops the events of a table up to this number, and the first segments in which nothing is live any more.
    pub(crate) fn expire(&mut self, table: usize, floor: u64)
        requires sound { IsSound self.old }
        requires table { table < 3 }
        requires rising { IsRisingFrom 0 (live_in self.old table) }
        ensures sound { IsSound self.new }
        ensures last { self.new.last ≡ self.old.last }
        ensures live { all_live self.new ≡ set (all_live self.old) table (above floor (live_in self.old table)) }
    {
        self.first[table] += self.upto(table, floor);
        let count = part_from(&self.parts, &self.first);
        drop_front(&mut self.parts, count);
    }

    /// How many events of each table there were before the first live one above this number.
    fn first_above(&self, number: u64) -> [usize; 3]
        requires sound { IsSound self.now }
        requires rising { (table : ℕ) → table < 3 → IsRisingFrom 0 (live_in self.now table) }
        ensures { IsFirstAbove number self.now result }
    {
        [
            self.first[0] + self.upto(0, number),
            self.first[1] + self.upto(1, number),
            self.first[2] + self.upto(2, number),
        ]
    }

    /// The live events above this number: the segments that have some are shared, and the tail is copied.
    pub(crate) fn slice<L: Ledger>(
        &self,
        alloc: Global,
        number: u64,
        steps: &mut Steps<L>,
    ) -> Result<Segments, NoMemory>
        requires sound { IsSound self.now }
        requires rising { (table : ℕ) → table < 3 → IsRisingFrom 0 (live_in self.now table) }
        ensures sound { IfOk result (λ slice. IsSound slice) }
        ensures last { IfOk result (λ slice. slice.last ≡ self.now.last) }
        ensures live { IfOk result (λ slice. all_live slice ≡ map (above number) (all_live self.now)) }
        ensures cost { steps.new ≤ steps.old + (self.now.last - max number (least_number (1 + self.now.last) (all_live self.now) - 1)) / 256 + 256 }
    {
        let first = self.first_above(number);
        let (_gone, parts) = self
            .parts
            .as_slice()
            .split_at(part_from(&self.parts, &first));
        Ok(Segments {
            last: self.last,
            first,
            parts: shared(alloc, parts, steps)?,
            tail: self.tail.copied(alloc, steps)?,
        })
    }
}
