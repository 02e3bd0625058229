//! A publisher: one step of a source, whose readings are added.

ghost use Rattle.std.specs.Prelude.{◌≡◌, ◌≢◌, ◌<◌, [], All, Err, OnOk};
ghost use Rattle.osq_outside.specs.Causes.{FaultHasCause};
ghost use Rattle.session_state.specs.Readings.{IsReading};
ghost use Rattle.turn_lock.specs.Words.{number, seen, IsAtRest, IsSame};
ghost use Rattle.shared_store.specs.Turns.{notes_of};
ghost use Rattle.shared_store.specs.Words.{start_of, IsSeatOf};
ghost use Rattle.daemon_rounds.specs.Appending.{AreRising};
ghost use Rattle.daemon_rounds.specs.Turns.{StillCounts};
ghost use Rattle.thread_laws.specs.Jobs.{AddsOwn, IsPublished};
ghost use Rattle.thread_jobs.specs.Publishing.{AddsFront, Exceeds, HasTooMuch, IsGoingFrom, IsIntruded, IsTaken, TakesPart, offset_after, unadded_by};
ghost use Rattle.thread_jobs.specs.declared.error.JobError.{JobError};

use crate::error::JobError;
use event_store::Steps;
use osq_outside::{Gate, Point, Source};
use osq_value::{ReadingList, Str};
use publisher_core::error::StepError;
use session_state::AppendError;
use shared_store::{Store, StoreSeat};
use source_feeds::Feed;
use std::alloc::Global;
use std::collections::VecDeque;
use std::marker::Brand;
use std::sync::Wait;
use std::sync::ledger::{Blank, Ledger};

/// Why a publisher ends whose reading is refused.
fn unadded(error: AppendError) -> JobError
    ensures { result ≡ unadded_by error }
{
    match error {
        AppendError::Backwards { kept: _ } => JobError::Intruded,
        AppendError::NumbersSpent => JobError::NumbersSpent,
        AppendError::NoMemory => JobError::NoMemory,
    }
}

/// Adds the readings of a source, one after another, each between the gate's points, with steps that nobody counts.
fn append_each<R: Wait, G: Gate, L: Ledger>(
    rt: &R,
    alloc: Global,
    store: &Store,
    gate: &G,
    who: u32,
    seat: &mut StoreSeat,
    source: &Str,
    readings: ReadingList,
    blank: Blank,
) -> Result<(), JobError>
    requires seat { IsSeatOf store.now seat.old × IsAtRest seat.old }
    requires readings { All IsReading readings }
    requires rising { AreRising (offset_after (start_of store.now) (notes_of seat.old) source.now) readings }
    requires name { blank.name ≡ L.name }
    requires parts { blank.parts ≡ L.parts }
    requires some { 0 < blank.parts }
    ensures seat { IsSame seat.old seat.new × IsAtRest seat.new }
    ensures front { AddsFront (number seat.old) (seen seat.old) (seen seat.new) source.now readings }
    ensures published { OnOk result (IsPublished (number seat.old) (seen seat.old) (seen seat.new) source.now readings) }
    ensures intruded { result ≡ Err JobError.Intruded → IsIntruded (number seat.old) (seen seat.old) (seen seat.new) source.now }
    ensures spent { result ≡ Err JobError.NumbersSpent → Exceeds (start_of store.now) (number seat.old) (seen seat.old) (seen seat.new) source.now readings }
    ensures source { result ≢ Err JobError.SourceFault }
{
    let mut steps = Steps::<L>::new(blank);
    let mut rest = VecDeque::from_vec(readings.into_vec());
    while let Some(reading) = rest.pop_front() {
        gate.at(who, Point::BeforeAppend);
        match store.append(rt, alloc, seat, source, reading, &mut steps) {
            Ok(_numbers) => gate.at(who, Point::AfterAppend),
            Err(error) => return Err(unadded(error)),
        }
    }
    Ok(())
}

/// A publisher: takes one step of its source, of at most so many records, and adds each of its readings in a turn of its own, between the
/// gate's points before and behind it. Whatever comes of it, the seat adds nothing but readings of this one step, in order, from the first one on.
///
/// SourceFault where the source failed, and then nothing is added; Intruded where another seat has added a reading of the source; NumbersSpent where
/// the numbers of the next reading's events would pass 2^62.
pub fn publish<R: Wait, S: Source, G: Gate>(
    rt: &R,
    alloc: Global,
    store: &Store,
    gate: &G,
    who: u32,
    seat: &mut StoreSeat,
    feed: &mut Feed,
    source: &mut S,
    most: u64,
) -> Result<(), JobError>
    requires seat { IsSeatOf store.now seat.old × IsAtRest seat.old }
    requires going { IsGoingFrom (start_of store.now) (notes_of seat.old) feed.old }
    ensures seat { IsSame seat.old seat.new × IsAtRest seat.new }
    ensures part { TakesPart S.tells (S.left source.old) (S.left source.new) most (number seat.old) (seen seat.old) (seen seat.new) feed.old feed.new }
    ensures unread { result ≡ Err JobError.SourceFault → AddsOwn (number seat.old) (seen seat.old) (seen seat.new) [] }
    ensures published { OnOk result (IsTaken S.tells (S.left source.old) (S.left source.new) most (number seat.old) (seen seat.old) (seen seat.new) feed.old feed.new) }
    ensures intruded { result ≡ Err JobError.Intruded → IsIntruded (number seat.old) (seen seat.old) (seen seat.new) feed.old.name }
    ensures spent { result ≡ Err JobError.NumbersSpent → HasTooMuch S.tells (S.left source.old) (S.left source.new) most (start_of store.now) (number seat.old) (seen seat.old) (seen seat.new) feed.old feed.new }
    ensures same { (feed.new.name ≡ feed.old.name) × (feed.new.kind ≡ feed.old.kind) }
    ensures counts { StillCounts S.tells (S.left source.old) feed.old feed.new }
    ensures cause { FaultHasCause JobError.SourceFault (S.faults source.old) (S.faults source.new) result }
{
    let readings = match feed.step(source, most) {
        Ok(readings) => readings,
        Err(StepError::SourceFault) => return Err(JobError::SourceFault),
        Err(StepError::NoMemory) => return Err(JobError::NoMemory),
        Err(StepError::SourceShrank { kept: _, found: _ }) => unreachable!(),
    };
    append_each::<R, G, Brand>(
        rt,
        alloc,
        store,
        gate,
        who,
        seat,
        feed.name(),
        readings,
        Blank::new(1),
    )
}
