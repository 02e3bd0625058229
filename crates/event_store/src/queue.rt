//! The events of one table in a segment.

ghost use Rattle.std.specs.Prelude.{◌≡◌, ◌+◌, ◌<◌, ◌≤◌, ◌∷◌, [], ◌++◌, length, take, slice_index_or, OnOk, OnErr, IfOk};

use crate::steps::Steps;
use entry_model::restored::Live;
use osq_value::{Copied, NoMemory};
use std::alloc::Global;
use std::marker::Model;
use std::sync::ledger::Ledger;

/// The events of one table in a segment, by number. Contracts see it as their list.
#[derive(Drop)]
pub struct EventQueue {
    held: Vec<Live>,
}

impl Model for EventQueue {
    ghost use Rattle.std.specs.Prelude.{List};
    ghost use Rattle.entry_model.specs.declared.restored.Live.{Live};

    ghost Value = { List Live };

    ghost view = { λ q. q.held.items };
}

impl EventQueue {
    /// No events. It takes no memory until one is pushed.
    pub fn new(alloc: Global) -> Self
        ensures { result ≡ [] }
    {
        EventQueue {
            held: Vec::new(alloc),
        }
    }

    /// The number of events.
    pub fn len(&self) -> usize
        ensures { result ≡ length self.now }
    {
        self.held.len()
    }

    /// The event at this place, from 0.
    pub fn event(&self, at: usize) -> &Live
        requires { at < length self.now }
        ensures { result.now ≡ slice_index_or self.now at result.now }
    {
        &self.held[at]
    }

    /// Adds an event behind the others, which is a step. A refused event is dropped.
    pub fn push<L: Ledger>(&mut self, event: Live, steps: &mut Steps<L>) -> Result<(), NoMemory>
        ensures ok { OnOk result (self.new ≡ self.old ++ event ∷ []) }
        ensures err { OnErr result (self.new ≡ self.old) }
        ensures steps { steps.new ≡ steps.old + 1 }
    {
        steps.tick();
        self.held.push(event)?;
        Ok(())
    }

    /// Keeps the first so many events alone.
    pub fn cut_back(&mut self, count: usize)
        ensures { self.new ≡ take count self.old }
    {
        self.held.truncate(count);
    }

    /// The same events, whose rows are copied, with a step for each.
    pub fn copied<L: Ledger>(
        &self,
        alloc: Global,
        steps: &mut Steps<L>,
    ) -> Result<EventQueue, NoMemory>
        ensures copied { IfOk result (λ copy. copy ≡ self.now) }
        ensures steps { steps.new ≤ steps.old + length self.now }
    {
        let mut copy = EventQueue {
            held: Vec::with_capacity(alloc, self.held.len())?,
        };
        for at in 0..self.held.len() {
            let event = &self.held[at];
            let live = Live {
                number: event.number,
                table: event.table,
                moment: event.moment,
                row: event.row.copy(alloc)?,
            };
            copy.push(live, steps)?;
        }
        Ok(copy)
    }
}
