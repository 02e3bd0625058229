//! Events at their tables, and in the segments behind others.

ghost use Rattle.std.specs.Prelude.{◌≡◌, ◌+◌, ◌-◌, ◌<◌, ◌≤◌, ◌^◌, ℕ, ◌++◌, [], ◌∷◌, length, take, drop, All, slice_index, OnOk, OnErr, IfOk};
ghost use Rattle.entry_model.specs.Legal.{IsEvent};
ghost use Rattle.event_store.specs.declared.segment.Segment.{Segment};
ghost use Rattle.event_store.specs.Queues.{events_of, new_events, pushed, placed, IsLonger};
ghost use Rattle.event_store.specs.Segments.{joined, reach_of, before_all, AreSegments};
ghost use Rattle.event_store.specs.Staging.{StagesRange, IsOverfull};

use crate::queue::EventQueue;
use crate::segment::{RANGE, Segment, SharedSegment};
use crate::steps::Steps;
use entry_model::restored::Live;
use osq_value::{Event, EventList, NoMemory};
use std::alloc::Global;
use std::collections::VecDeque;
use std::mem;
use std::sync::ledger::Ledger;

/// Adds an event behind those of its table.
pub(crate) fn push_event<L: Ledger>(
    queues: &mut [EventQueue],
    event: Live,
    steps: &mut Steps<L>,
) -> Result<(), NoMemory>
    requires { event.table.0 < length queues.old }
    ensures ok { OnOk result (queues.new ≡ pushed queues.old event) }
    ensures err { OnErr result (queues.new ≡ queues.old) }
    ensures steps { steps.new ≡ steps.old + 1 }
{
    let queue = &mut queues[event.table.0 as usize];
    queue.push(event, steps)
}

/// Adds the first of these events, up to a number, numbered behind the last one. Where memory is wanting, some of them may
/// stand at the ends.
pub(crate) fn fill<L: Ledger>(
    queues: &mut [EventQueue],
    rest: &mut VecDeque<Event>,
    last: u64,
    until: u64,
    moment: u64,
    steps: &mut Steps<L>,
) -> Result<(), NoMemory>
    requires three { length queues.old ≡ 3 }
    requires events { All IsEvent rest.old.items }
    requires known { (last ≤ until) × (until < 2 ^ 63) }
    requires enough { until ≤ last + length rest.old.items }
    ensures ok { OnOk result (queues.new ≡ placed queues.old (new_events last moment (take (until - last) rest.old.items))) }
    ensures rest { OnOk result (rest.new.items ≡ drop (until - last) rest.old.items) }
    ensures err { OnErr result (IsLonger queues.old queues.new) }
    ensures count { length queues.new ≡ 3 }
    ensures all { OnOk result (steps.new ≡ steps.old + (until - last)) }
    ensures most { steps.new ≤ steps.old + (until - last) }
{
    let mut number = last;
    while number < until {
        let Some(event) = rest.pop_front() else {
            return Ok(());
        };
        number += 1;
        let live = Live {
            number,
            table: event.table,
            moment,
            row: event.row,
        };
        push_event(queues, live, steps)?;
    }
    Ok(())
}

/// Segments that are not yet behind others.
#[derive(Drop)]
pub(crate) struct Staged {
    pub(crate) parts: Vec<SharedSegment>,
    pub(crate) tail: Segment,
}

/// Fills the empty tail with the next events, closes it, and goes on with the next range.
fn stage_range<L: Ledger>(
    alloc: Global,
    staged: &mut Staged,
    rest: &mut VecDeque<Event>,
    last: u64,
    moment: u64,
    steps: &mut Steps<L>,
) -> Result<(), NoMemory>
    requires events { All IsEvent rest.old.items }
    requires enough { 256 ≤ length rest.old.items }
    requires small { (last + length rest.old.items ≤ 2 ^ 62) × (staged.old.tail.end ≤ 2 ^ 63) }
    requires counted { (table : ℕ) → table < 3 → reach_of table staged.old.tail ≤ last }
    ensures ok { OnOk result (StagesRange staged.old (new_events last moment (take 256 rest.old.items)) staged.new) }
    ensures rest { OnOk result (rest.new.items ≡ drop 256 rest.old.items) }
    ensures all { OnOk result (steps.new ≡ steps.old + 256) }
    ensures most { steps.new ≤ steps.old + 256 }
{
    fill(
        &mut staged.tail.held,
        rest,
        last,
        last + RANGE,
        moment,
        steps,
    )?;
    let next = staged.tail.next(alloc);
    let full = mem::replace(&mut staged.tail, next);
    match SharedSegment::of(alloc, full) {
        Ok(part) => staged.parts.push(part)?,
        Err(_) => return Err(NoMemory),
    }
    Ok(())
}

/// These events in fresh segments from the empty one on, numbered behind the last one.
fn stage<L: Ledger>(
    alloc: Global,
    empty: Segment,
    rest: VecDeque<Event>,
    last: u64,
    moment: u64,
    steps: &mut Steps<L>,
) -> Result<Staged, NoMemory>
    requires events { All IsEvent rest.items }
    requires empty { (empty.held ≡ [] ∷ [] ∷ [] ∷ []) × (empty.end ≡ last + 256) }
    requires small { last + length rest.items ≤ 2 ^ 62 }
    requires counted { (table : ℕ) → table < 3 → slice_index empty.before table ≤ last }
    ensures ok { IfOk result (λ staged. AreSegments last (last + length rest.items) (λ table. slice_index empty.before table) staged.parts.items staged.tail) }
    ensures events { IfOk result (λ staged. (table : ℕ) → table < 3 → joined table (staged.parts.items ++ staged.tail ∷ []) ≡ events_of (new_events last moment rest.items) table) }
    ensures all { OnOk result (steps.new ≡ steps.old + length rest.items) }
    ensures most { steps.new ≤ steps.old + length rest.items }
{
    let mut rest = rest;
    let mut reached = last;
    let mut staged = Staged {
        parts: Vec::new(alloc),
        tail: empty,
    };
    while rest.len() >= RANGE as usize {
        stage_range(alloc, &mut staged, &mut rest, reached, moment, steps)?;
        reached += RANGE;
    }
    let until = reached + rest.len() as u64;
    fill(
        &mut staged.tail.held,
        &mut rest,
        reached,
        until,
        moment,
        steps,
    )?;
    Ok(staged)
}

/// Closes the tail, and puts these segments behind it. There is room before the tail is closed, which nothing undoes.
fn put_behind(
    parts: &mut Vec<SharedSegment>,
    tail: &mut Segment,
    staged: Staged,
) -> Result<(), NoMemory>
    ensures ok { OnOk result ((parts.new.items ≡ parts.old.items ++ tail.old ∷ staged.parts.items) × (tail.new ≡ staged.tail)) }
    ensures err { OnErr result ((parts.new.items ≡ parts.old.items) × (tail.new ≡ tail.old)) }
{
    let mut fresh = staged.parts;
    parts.reserve(fresh.len() + 1)?;
    let alloc = *parts.allocator();
    let full = mem::replace(tail, staged.tail);
    match SharedSegment::of(alloc, full) {
        Ok(part) => {
            parts.push(part)?;
            parts.append(&mut fresh)?;
            Ok(())
        }
        Err(back) => {
            *tail = back;
            Err(NoMemory)
        }
    }
}

/// Adds events in the tail, and in fresh segments behind it where its range ends. Where memory is wanting, some of them may
/// stand at the ends of the tail's lists.
fn add_events<L: Ledger>(
    parts: &mut Vec<SharedSegment>,
    tail: &mut Segment,
    events: EventList,
    last: u64,
    moment: u64,
    steps: &mut Steps<L>,
) -> Result<(), NoMemory>
    requires events { All IsEvent events }
    requires small { last + length events ≤ 2 ^ 62 }
    requires segments { AreSegments 0 last (λ table. before_all table (parts.old.items ++ tail.old ∷ [])) parts.old.items tail.old }
    requires counted { (table : ℕ) → table < 3 → reach_of table tail.old ≤ last }
    ensures ok { OnOk result (AreSegments 0 (last + length events) (λ table. before_all table (parts.old.items ++ tail.old ∷ [])) parts.new.items tail.new) }
    ensures events { OnOk result ((table : ℕ) → table < 3 → joined table (parts.new.items ++ tail.new ∷ []) ≡ joined table (parts.old.items ++ tail.old ∷ []) ++ events_of (new_events last moment events) table) }
    ensures err { OnErr result ((parts.new.items ≡ parts.old.items) × IsOverfull tail.old tail.new) }
    ensures all { OnOk result (steps.new ≡ steps.old + length events) }
    ensures most { steps.new ≤ steps.old + length events }
{
    let mut rest = VecDeque::from_vec(events.into_vec());
    let until = last + rest.len() as u64;
    if until < tail.end {
        return fill(&mut tail.held, &mut rest, last, until, moment, steps);
    }
    fill(&mut tail.held, &mut rest, last, tail.end, moment, steps)?;
    let alloc = *parts.allocator();
    let staged = stage(alloc, tail.next(alloc), rest, tail.end, moment, steps)?;
    put_behind(parts, tail, staged)
}

/// Adds events, numbered behind the last one, all of them or none.
pub(crate) fn append_events<L: Ledger>(
    parts: &mut Vec<SharedSegment>,
    tail: &mut Segment,
    events: EventList,
    last: u64,
    moment: u64,
    steps: &mut Steps<L>,
) -> Result<(), NoMemory>
    requires events { All IsEvent events }
    requires small { last + length events ≤ 2 ^ 62 }
    requires segments { AreSegments 0 last (λ table. before_all table (parts.old.items ++ tail.old ∷ [])) parts.old.items tail.old }
    requires counted { (table : ℕ) → table < 3 → reach_of table tail.old ≤ last }
    ensures ok { OnOk result (AreSegments 0 (last + length events) (λ table. before_all table (parts.old.items ++ tail.old ∷ [])) parts.new.items tail.new) }
    ensures events { OnOk result ((table : ℕ) → table < 3 → joined table (parts.new.items ++ tail.new ∷ []) ≡ joined table (parts.old.items ++ tail.old ∷ []) ++ events_of (new_events last moment events) table) }
    ensures err { OnErr result ((parts.new.items ≡ parts.old.items) × (tail.new ≡ tail.old)) }
    ensures all { OnOk result (steps.new ≡ steps.old + length events) }
    ensures most { steps.new ≤ steps.old + length events }
{
    let [first, second, third] = [tail.held[0].len(), tail.held[1].len(), tail.held[2].len()];
    let appended = add_events(parts, tail, events, last, moment, steps);
    if appended.is_err() {
        tail.held[0].cut_back(first);
        tail.held[1].cut_back(second);
        tail.held[2].cut_back(third);
    }
    appended
}
