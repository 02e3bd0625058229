//! The slices of events that cuts share.

ghost use Rattle.std.specs.Prelude.{◌≡◌, ◌==◌, ◌⊎◌, ◌+◌, ◌<◌, ◌≤◌, [], All, length, IfOk, find};
ghost use Rattle.std.specs.Option.{option_copied};
ghost use Rattle.session_state.specs.declared.slices.TheConstants.{MOST};
ghost use Rattle.event_store.specs.Costs.{events_cost};
ghost use Rattle.event_store.specs.Slices.{slice_above, IsSliceOf};

use event_store::{EventSlice, Image, Steps};
use osq_value::NoMemory;
use std::alloc::Global;
use std::marker::Model;
use std::sync::ledger::Ledger;

/// How many slices are kept at most. Queries of a schedule have few lower bounds among them.
const MOST: usize = 8;

/// Slices of an image, each by its lower bound, which cuts share until events come or expire.
#[derive(Drop)]
pub(crate) struct Slices {
    held: Vec<EventSlice>,
}

impl Model for Slices {
    ghost use Rattle.std.specs.Prelude.{List};
    ghost use Rattle.event_store.specs.declared.slice.EventSlice.{EventSlice};

    ghost Value = { List EventSlice };

    ghost view = { λ s. s.held.items };
}

/// The slice above this number, if it is among these.
fn kept(slices: &[EventSlice], above: u64) -> Option<&EventSlice>
    ensures { option_copied result ≡ find (λ slice. slice.above == above) slices.now }
{
    slices.iter().find(|slice| slice.above() == above)
}

impl Slices {
    /// No slices.
    pub fn none(alloc: Global) -> Slices
        ensures { result ≡ [] }
    {
        Slices {
            held: Vec::new(alloc),
        }
    }

    /// Forgets all slices. It takes no memory.
    pub fn forget(&mut self)
        ensures { self.new ≡ [] }
    {
        self.held.clear();
    }

    /// Makes room for one more: where there are as many as are kept, all are forgotten.
    fn make_room(&mut self)
        ensures left { (self.new ≡ self.old) ⊎ (self.new ≡ []) }
        ensures room { length self.new < MOST }
    {
        if self.held.len() >= MOST {
            self.forget();
        }
    }

    /// The events of the image above this number, of a slice that is kept, or made and kept from now on.
    pub fn above<L: Ledger>(
        &mut self,
        alloc: Global,
        image: &Image,
        above: u64,
        steps: &mut Steps<L>,
    ) -> Result<EventSlice, NoMemory>
        requires { All (IsSliceOf image.now) self.old }
        ensures kept { All (IsSliceOf image.now) self.new }
        ensures slice { IfOk result (λ slice. slice ≡ slice_above above image.now) }
        ensures cost { steps.new ≤ steps.old + (events_cost above image.now + 1) }
    {
        if let Some(slice) = kept(&self.held, above) {
            return slice.share(steps);
        }
        let slice = image.events_above(alloc, above, steps)?;
        let shared = slice.share(steps)?;
        self.make_room();
        self.held.push(slice)?;
        Ok(shared)
    }
}
