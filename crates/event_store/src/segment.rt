//! Events of one range of numbers.

ghost use Rattle.std.specs.Prelude.{◌≡◌, ◌+◌, ◌-◌, ◌<◌, ◌≤◌, ◌^◌, [], ◌∷◌, ℕ, length, take, slice_index, slice_index_or, IfOk, Err};
ghost use Rattle.event_store.specs.declared.segment.Segment.{Segment};
ghost use Rattle.event_store.specs.Segments.{held_at, count_of, reach_of, next_to};

use crate::queue::EventQueue;
use crate::steps::Steps;
use entry_model::restored::Live;
use osq_value::NoMemory;
use std::alloc::Global;
use std::marker::Model;
use std::sync::Arc;
use std::sync::ledger::Ledger;

/// How many numbers the range of a segment has.
pub(crate) const RANGE: u64 = 256;

/// The events of one range of numbers, by evented table.
#[derive(Drop)]
pub struct Segment {
    /// The last number of the range.
    pub(crate) end: u64,
    /// How many events of each table there were before.
    pub(crate) before: [usize; 3],
    /// The events of each table.
    pub(crate) held: [EventQueue; 3],
}

impl Segment {
    /// No events, behind so many of each table, of the range that ends with this number.
    pub(crate) fn empty(alloc: Global, end: u64, before: [usize; 3]) -> Segment
        ensures { result ≡ record { end = end; before = before; held = [] ∷ [] ∷ [] ∷ [] } }
    {
        Segment {
            end,
            before,
            held: [
                EventQueue::new(alloc),
                EventQueue::new(alloc),
                EventQueue::new(alloc),
            ],
        }
    }

    /// How many events of a table there were up to its end.
    pub(crate) fn reach(&self, table: usize) -> usize
        requires table { table < 3 }
        requires small { reach_of table self.now < 2 ^ 64 }
        ensures { result ≡ reach_of table self.now }
    {
        self.before[table] + self.held[table].len()
    }

    /// How many events of each table there were up to its end.
    pub(crate) fn reaches(&self) -> [usize; 3]
        requires small { (table : ℕ) → table < 3 → reach_of table self.now < 2 ^ 64 }
        ensures { result ≡ reach_of 0 self.now ∷ reach_of 1 self.now ∷ reach_of 2 self.now ∷ [] }
    {
        [self.reach(0), self.reach(1), self.reach(2)]
    }

    /// No events, of the range behind it.
    pub(crate) fn next(&self, alloc: Global) -> Segment
        requires small { (table : ℕ) → table < 3 → reach_of table self.now < 2 ^ 64 }
        requires end { self.now.end ≤ 2 ^ 63 }
        ensures { result ≡ next_to self.now }
    {
        Segment::empty(alloc, self.end + RANGE, self.reaches())
    }

    /// The event of a table before which there were so many.
    pub(crate) fn event(&self, table: usize, place: usize) -> &Live
        requires table { table < 3 }
        requires behind { slice_index self.now.before table ≤ place }
        requires within { place < reach_of table self.now }
        ensures { result.now ≡ slice_index_or (held_at self.now table) (place - slice_index self.now.before table) result.now }
    {
        self.held[table].event(place - self.before[table])
    }

    /// The same segment, with a step for each event.
    pub(crate) fn copied<L: Ledger>(
        &self,
        alloc: Global,
        steps: &mut Steps<L>,
    ) -> Result<Segment, NoMemory>
        ensures copied { IfOk result (λ copy. copy ≡ self.now) }
        ensures steps { steps.new ≤ steps.old + count_of self.now }
    {
        let first = self.held[0].copied(alloc, steps)?;
        let second = self.held[1].copied(alloc, steps)?;
        let third = self.held[2].copied(alloc, steps)?;
        Ok(Segment {
            end: self.end,
            before: self.before,
            held: [first, second, third],
        })
    }
}

/// A closed segment, which images and views share. Contracts see it as the segment.
#[derive(Drop)]
pub struct SharedSegment {
    segment: Arc<Segment, Global>,
}

impl Model for SharedSegment {
    ghost use Rattle.std.specs.Arc.{arc_value};
    ghost use Rattle.event_store.specs.declared.segment.Segment.{Segment};

    ghost Value = { Segment };

    ghost view = { λ s. arc_value s.segment };
}

impl SharedSegment {
    /// The segment, closed. Where memory is wanting it comes back.
    pub(crate) fn of(alloc: Global, segment: Segment) -> Result<SharedSegment, Segment>
        ensures ok { IfOk result (λ shared. shared ≡ segment) }
        ensures err { (back : Segment) → result ≡ Err back → back ≡ segment }
    {
        match Arc::new(alloc, segment) {
            Ok(segment) => Ok(SharedSegment { segment }),
            Err(refused) => Err(refused.value),
        }
    }

    /// The same segment, shared, which is a step.
    pub(crate) fn share<L: Ledger>(&self, steps: &mut Steps<L>) -> Result<SharedSegment, NoMemory>
        ensures same { IfOk result (λ shared. shared ≡ self.now) }
        ensures steps { steps.new ≡ steps.old + 1 }
    {
        steps.tick();
        let segment = Arc::try_clone(&self.segment)?;
        Ok(SharedSegment { segment })
    }

    /// The segment.
    pub(crate) fn segment(&self) -> &Segment
        ensures { result.now ≡ self.now }
    {
        &self.segment
    }
}

/// The same segments, shared.
pub(crate) fn shared<L: Ledger>(
    alloc: Global,
    parts: &[SharedSegment],
    steps: &mut Steps<L>,
) -> Result<Vec<SharedSegment>, NoMemory>
    ensures same { IfOk result (λ shared. shared.items ≡ parts.now) }
    ensures steps { steps.new ≤ steps.old + length parts.now }
{
    let mut all = Vec::with_capacity(alloc, parts.len())?;
    for part in parts {
        all.push(part.share(steps)?)?;
    }
    Ok(all)
}
