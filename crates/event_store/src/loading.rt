//! Events that are kept, in segments.

ghost use Rattle.std.specs.Prelude.{◌≡◌, ◌+◌, ◌-◌, ◌<◌, ◌≤◌, ◌^◌, ℕ, [], ◌∷◌, ◌++◌, List, All, length, OnOk, IfOk, true};
ghost use Rattle.entry_model.specs.declared.restored.Live.{Live};
ghost use Rattle.entry_model.specs.Fits.{IsRisingFrom};
ghost use Rattle.entry_model.specs.Views.{is_evented_table};
ghost use Rattle.event_store.specs.Queues.{placed};
ghost use Rattle.event_store.specs.Segments.{reach_of, all_live, IsSound};
ghost use Rattle.event_store.specs.Staging.{Closes, AreRestored};

use crate::placing::push_event;
use crate::segment::{RANGE, Segment, SharedSegment};
use crate::segments::Segments;
use crate::steps::Steps;
use entry_model::restored::Live;
use osq_value::{Copied, NoMemory};
use std::alloc::Global;
use std::marker::Brand;
use std::mem;
use std::sync::ledger::{Blank, Ledger};

/// Closes the tail, and goes on with the range of this number, which is beyond it.
fn close(
    alloc: Global,
    parts: &mut Vec<SharedSegment>,
    tail: &mut Segment,
    number: u64,
) -> Result<(), NoMemory>
    requires beyond { (tail.old.end < number) × (number ≤ 2 ^ 63) }
    requires small { (table : ℕ) → table < 3 → reach_of table tail.old < 2 ^ 64 }
    ensures { OnOk result (Closes parts.old.items tail.old number parts.new.items tail.new) }
{
    let ranges = (number - tail.end - 1) / RANGE + 1;
    let next = Segment::empty(alloc, tail.end + ranges * RANGE, tail.reaches());
    let full = mem::replace(tail, next);
    match SharedSegment::of(alloc, full) {
        Ok(part) => parts.push(part)?,
        Err(_) => return Err(NoMemory),
    }
    Ok(())
}

/// Goes on with the range of this number, if it is beyond the tail.
fn go_on(
    alloc: Global,
    parts: &mut Vec<SharedSegment>,
    tail: &mut Segment,
    number: u64,
) -> Result<(), NoMemory>
    requires number { number ≤ 2 ^ 63 }
    requires small { (table : ℕ) → table < 3 → reach_of table tail.old < 2 ^ 64 }
    ensures restored { OnOk result ((last : ℕ) (live : List Live) → last < number → AreRestored last live parts.old.items tail.old → AreRestored (number - 1) live parts.new.items tail.new) }
    ensures holds { OnOk result (number ≤ tail.new.end) }
{
    if number <= tail.end {
        return Ok(());
    }
    close(alloc, parts, tail, number)
}

/// Adds a copy of an event, whose number is beyond the others.
fn restore_event<L: Ledger>(
    alloc: Global,
    parts: &mut Vec<SharedSegment>,
    tail: &mut Segment,
    event: &Live,
    steps: &mut Steps<L>,
) -> Result<(), NoMemory>
    requires evented { is_evented_table event.now.table.0 ≡ true }
    requires small { (event.now.number ≤ 2 ^ 62) × ((table : ℕ) → table < 3 → reach_of table tail.old < 2 ^ 63) }
    ensures { OnOk result ((last : ℕ) (events : List Live) → last < event.now.number → AreRestored last events parts.old.items tail.old → AreRestored event.now.number (events ++ event.now ∷ []) parts.new.items tail.new) }
{
    go_on(alloc, parts, tail, event.number)?;
    let live = Live {
        number: event.number,
        table: event.table,
        moment: event.moment,
        row: event.row.copy(alloc)?,
    };
    push_event(&mut tail.held, live, steps)
}

/// Copies of these events, where `last` is the number of the last event that ever was.
fn restore_counted<L: Ledger>(
    alloc: Global,
    live: &[Live],
    last: u64,
    blank: Blank,
) -> Result<Segments, NoMemory>
    requires name { blank.name ≡ L.name }
    requires parts { blank.parts ≡ L.parts }
    requires some { 0 < blank.parts }
    requires rising { IsRisingFrom 0 live.now }
    requires known { All (λ (event : Live). event.number ≤ last) live.now }
    requires evented { All (λ (event : Live). is_evented_table event.table.0 ≡ true) live.now }
    requires last { last ≤ 2 ^ 62 }
    ensures sound { IfOk result (λ segments. IsSound segments) }
    ensures last { IfOk result (λ segments. segments.last ≡ last) }
    ensures live { IfOk result (λ segments. all_live segments ≡ placed ([] ∷ [] ∷ [] ∷ []) live.now) }
{
    let mut steps = Steps::<L>::new(blank);
    let mut parts = Vec::new(alloc);
    let mut tail = Segment::empty(alloc, RANGE, [0; 3]);
    let mut number = 0;
    for event in live {
        restore_event(alloc, &mut parts, &mut tail, event, &mut steps)?;
        number = event.number;
    }
    go_on(alloc, &mut parts, &mut tail, last + 1)?;
    Ok(Segments {
        last,
        first: [0; 3],
        parts,
        tail,
    })
}

/// Copies of these events, where `last` is the number of the last event that ever was. Its steps are not counted.
pub(crate) fn restore(alloc: Global, live: &[Live], last: u64) -> Result<Segments, NoMemory>
    requires rising { IsRisingFrom 0 live.now }
    requires known { All (λ (event : Live). event.number ≤ last) live.now }
    requires evented { All (λ (event : Live). is_evented_table event.table.0 ≡ true) live.now }
    requires last { last ≤ 2 ^ 62 }
    ensures sound { IfOk result (λ segments. IsSound segments) }
    ensures last { IfOk result (λ segments. segments.last ≡ last) }
    ensures live { IfOk result (λ segments. all_live segments ≡ placed ([] ∷ [] ∷ [] ∷ []) live.now) }
{
    restore_counted::<Brand>(alloc, live, last, Blank::new(1))
}
