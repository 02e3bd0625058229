//! The live events of an image, or those that a view shows.

ghost use Rattle.std.specs.Prelude.{◌≡◌, ◌+◌, ◌-◌, ◌/◌, ◌<◌, ◌≤◌, ◌^◌, ℕ, [], ◌∷◌, All, map, max, set, length, slice_get, slice_index_or, OnOk, OnErr, IfOk, true};
ghost use Rattle.std.specs.Option.{option_copied};
ghost use Rattle.entry_model.specs.declared.restored.Live.{Live};
ghost use Rattle.entry_model.specs.Fits.{IsRisingFrom};
ghost use Rattle.entry_model.specs.Legal.{IsEvent};
ghost use Rattle.entry_model.specs.Views.{is_evented_table};
ghost use Rattle.event_store.specs.Queues.{above, new_events, placed};
ghost use Rattle.event_store.specs.Costs.{least_number};
ghost use Rattle.event_store.specs.Orders.{IsInOrder};
ghost use Rattle.event_store.specs.Owed.{owed_of};

use crate::loading::restore;
use crate::owed::{Limits, floor_owed};
use crate::segments::Segments;
use crate::steps::Steps;
use entry_model::restored::Live;
use osq_value::{EventList, NoMemory};
use std::alloc::Global;
use std::marker::Model;
use std::sync::ledger::Ledger;

/// The live events of an image, or those that a view shows. Contracts see the list of each evented table.
#[derive(Drop)]
pub struct Events {
    segments: Segments,
}

impl Model for Events {
    ghost use Rattle.event_store.specs.Segments.{Numbered, all_live, IsSound};

    ghost Value = { Numbered };

    ghost view = { λ e. record { last = e.segments.last; live = all_live e.segments } };

    ghost invariant = { λ e. IsSound e.segments };
}

impl Events {
    /// Copies of these events, where `last` is the number of the last event that ever was.
    pub(crate) fn restore(alloc: Global, live: &[Live], last: u64) -> Result<Events, NoMemory>
        requires rising { IsRisingFrom 0 live.now }
        requires known { All (λ (event : Live). event.number ≤ last) live.now }
        requires evented { All (λ (event : Live). is_evented_table event.table.0 ≡ true) live.now }
        requires last { last ≤ 2 ^ 62 }
        ensures { IfOk result (λ events. events ≡ record { last = last; live = placed ([] ∷ [] ∷ [] ∷ []) live.now }) }
    {
        Ok(Events {
            segments: restore(alloc, live, last)?,
        })
    }

    /// The number of the last event that ever was.
    pub(crate) fn last(&self) -> u64
        ensures { result ≡ self.now.last }
    {
        self.segments.last
    }

    /// The number of events of a table.
    pub(crate) fn len(&self, table: usize) -> usize
        requires { table < 3 }
        ensures { result ≡ length (slice_index_or self.now.live table []) }
    {
        self.segments.len(table)
    }

    /// The event of a table at this place, from 0.
    pub(crate) fn event(&self, table: usize, at: usize) -> &Live
        requires table { table < 3 }
        requires within { at < length (slice_index_or self.now.live table []) }
        ensures { result.now ≡ slice_index_or (slice_index_or self.now.live table []) at result.now }
    {
        self.segments.event(table, at)
    }

    /// Adds events, numbered behind the last one, all of them or none, with a step for each.
    pub(crate) fn append<L: Ledger>(
        &mut self,
        events: EventList,
        moment: u64,
        steps: &mut Steps<L>,
    ) -> Result<(), NoMemory>
        requires events { All IsEvent events }
        requires small { self.old.last + length events ≤ 2 ^ 62 }
        ensures ok { OnOk result (self.new ≡ record { last = self.old.last + length events; live = placed self.old.live (new_events self.old.last moment events) }) }
        ensures err { OnErr result (self.new ≡ self.old) }
        ensures all { OnOk result (steps.new ≡ steps.old + length events) }
        ensures most { steps.new ≤ steps.old + length events }
    {
        self.segments.append(events, moment, steps)
    }

    /// Drops the events of a table up to this number. It takes no memory.
    pub(crate) fn expire(&mut self, table: usize, floor: u64)
        requires table { table < 3 }
        requires rising { IsRisingFrom 0 (slice_index_or self.old.live table []) }
        ensures { self.new ≡ record self.old { live = set self.old.live table (above floor (slice_index_or self.old.live table [])) } }
    {
        self.segments.expire(table, floor);
    }

    /// The events above this number, of which only those of the tail are copied.
    pub(crate) fn slice<L: Ledger>(
        &self,
        alloc: Global,
        number: u64,
        steps: &mut Steps<L>,
    ) -> Result<Events, NoMemory>
        requires { (table : ℕ) → table < 3 → IsRisingFrom 0 (slice_index_or self.now.live table []) }
        ensures live { IfOk result (λ slice. slice ≡ record self.now { live = map (above number) self.now.live }) }
        ensures cost { steps.new ≤ steps.old + (self.now.last - max number (least_number (1 + self.now.last) self.now.live - 1)) / 256 + 256 }
    {
        Ok(Events {
            segments: self.segments.slice(alloc, number, steps)?,
        })
    }

    /// The number of the last event of the table that must go: one that is old and has been reached, or after which come as
    /// many as may be kept. Where the moments are in order it looks at no more than one event that may stay.
    pub(crate) fn floor_owed(&self, table: usize, in_order: bool, limits: Limits) -> Option<u64>
        requires table { table < 3 }
        requires rising { IsRisingFrom 0 (slice_index_or self.now.live table []) }
        requires order { in_order ≡ true → (latest : ℕ) × IsInOrder 0 latest (slice_index_or self.now.live table []) }
        ensures { result ≡ owed_of limits.expiry limits.max limits.moment limits.reached (slice_index_or self.now.live table []) }
    {
        floor_owed(&self.segments, table, in_order, limits)
    }
}
