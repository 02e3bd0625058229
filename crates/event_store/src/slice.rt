//! Slices of events that views share.

ghost use Rattle.std.specs.Prelude.{◌≡◌, ◌+◌, IfOk};

use crate::events::Events;
use crate::steps::Steps;
use osq_value::NoMemory;
use std::alloc::Global;
use std::marker::Model;
use std::sync::Arc;
use std::sync::ledger::Ledger;

/// Events that views share. Contracts see them as the events.
#[derive(Drop)]
pub struct SharedEvents {
    held: Arc<Events, Global>,
}

impl Model for SharedEvents {
    ghost use Rattle.std.specs.Arc.{arc_value};
    ghost use Rattle.event_store.specs.Segments.{Numbered};

    ghost Value = { Numbered };

    ghost view = { λ s. arc_value s.held };
}

impl SharedEvents {
    /// These events, which are moved.
    pub(crate) fn of(alloc: Global, events: Events) -> Result<SharedEvents, NoMemory>
        ensures { IfOk result (λ shared. shared ≡ events) }
    {
        Ok(SharedEvents {
            held: Arc::new(alloc, events)?,
        })
    }

    /// The same events.
    fn share(&self) -> Result<SharedEvents, NoMemory>
        ensures { IfOk result (λ shared. shared ≡ self.now) }
    {
        Ok(SharedEvents {
            held: Arc::try_clone(&self.held)?,
        })
    }

    /// The events.
    pub(crate) fn events(&self) -> &Events
        ensures { result.now ≡ self.now }
    {
        &self.held
    }
}

/// The live events of an image above a number, of which views are made. `share` gives the same ones again, in one step.
#[derive(Drop)]
pub struct EventSlice {
    pub(crate) above: u64,
    pub(crate) events: SharedEvents,
}

impl EventSlice {
    /// The number above which its events are.
    pub fn above(&self) -> u64
        ensures { result ≡ self.now.above }
    {
        self.above
    }

    /// The same slice, which is a step.
    pub fn share<L: Ledger>(&self, steps: &mut Steps<L>) -> Result<EventSlice, NoMemory>
        ensures same { IfOk result (λ shared. shared ≡ self.now) }
        ensures steps { steps.new ≡ steps.old + 1 }
    {
        steps.tick();
        Ok(EventSlice {
            above: self.above,
            events: self.events.share()?,
        })
    }
}
