//! The readings of a step.

ghost use Rattle.std.specs.Prelude.{◌≡◌, ◌∷◌, ◌++◌, ◌+◌, [], map, IfOk, OnOk};
ghost use Rattle.osq_value.specs.declared.reading.Reading.TheVariants.{Events};
ghost use Rattle.publisher_core.specs.Readings.{joined, readings_of, reading_of, events_of, skipped_of, events_in, skipped_in};

use crate::record::{Gain, ReadRecord, ReadRecordList};
use osq_value::{EventList, NoMemory, Reading, ReadingList, SourceKind};
use std::alloc::Global;

/// The readings of the records that a step took: of a source of tables one for each line; of any other one that joins them all, where
/// there are any.
pub fn readings_of(
    alloc: Global,
    kind: SourceKind,
    pieces: ReadRecordList,
) -> Result<ReadingList, NoMemory>
    ensures { IfOk result (λ readings. readings ≡ readings_of kind pieces) }
{
    match kind {
        SourceKind::Audit => joined(alloc, pieces),
        SourceKind::Changes => joined(alloc, pieces),
        SourceKind::Tables => listed(alloc, pieces),
    }
}

fn joined(alloc: Global, pieces: ReadRecordList) -> Result<ReadingList, NoMemory>
    ensures { IfOk result (λ readings. readings ≡ joined pieces) }
{
    let mut readings = ReadingList::new(alloc);
    let Some(last) = pieces.as_slice().last() else {
        return Ok(readings);
    };
    let taken = last.end;
    let Ok(reading) = join(alloc, taken, pieces) else {
        return Err(NoMemory);
    };
    let Ok(()) = readings.push(reading) else {
        return Err(NoMemory);
    };
    Ok(readings)
}

/// The one reading of these records, behind which is the offset `taken`.
fn join(alloc: Global, taken: u64, pieces: ReadRecordList) -> Result<Reading, NoMemory>
    ensures { IfOk result (λ reading. reading ≡ Events taken (events_of pieces) (skipped_of pieces)) }
{
    let mut events = EventList::new(alloc);
    let mut skipped = 0;
    for piece in pieces.into_vec() {
        let more = add(&mut events, piece.gain)?;
        skipped = sum(skipped, more)?;
    }
    Ok(Reading::Events {
        taken,
        events,
        skipped,
    })
}

/// Adds the event that a record gave, and answers how many of its lines were skipped.
fn add(events: &mut EventList, gain: Gain) -> Result<u64, NoMemory>
    ensures skipped { IfOk result (λ skipped. skipped ≡ skipped_in gain) }
    ensures events { OnOk result (events.new ≡ events.old ++ events_in gain) }
{
    match gain {
        Gain::Table {
            table: _,
            rows: _rows,
        } => Ok(0),
        Gain::Event { event, skipped } => {
            if let Some(event) = event {
                events.push(event)?;
            }
            Ok(skipped)
        }
    }
}

/// A count of lines that would pass 2^64 wants memory.
fn sum(a: u64, b: u64) -> Result<u64, NoMemory>
    ensures { IfOk result (λ sum. sum ≡ a + b) }
{
    match a.checked_add(b) {
        Some(sum) => Ok(sum),
        None => Err(NoMemory),
    }
}

fn listed(alloc: Global, pieces: ReadRecordList) -> Result<ReadingList, NoMemory>
    ensures { IfOk result (λ readings. readings ≡ map reading_of pieces) }
{
    let mut readings = ReadingList::new(alloc);
    for piece in pieces.into_vec() {
        readings.push(reading_of(alloc, piece)?)?;
    }
    Ok(readings)
}

/// The reading of one line of a source of tables.
fn reading_of(alloc: Global, piece: ReadRecord) -> Result<Reading, NoMemory>
    ensures { IfOk result (λ reading. reading ≡ reading_of piece) }
{
    let taken = piece.end;
    match piece.gain {
        Gain::Table { table, rows } => Ok(Reading::Table { taken, table, rows }),
        Gain::Event { event, skipped } => {
            let mut events = EventList::new(alloc);
            if let Some(event) = event {
                events.push(event)?;
            }
            Ok(Reading::Events {
                taken,
                events,
                skipped,
            })
        }
    }
}
