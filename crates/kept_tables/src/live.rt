//! The live events that parts of them make.

ghost use Rattle.std.specs.Prelude.{◌≡◌, ◌++◌, filter, length, slice_index, option_map, Ok, IfOk, OnOk};
ghost use Rattle.entry_model.specs.Values.{is_above};
ghost use Rattle.kept_tables.specs.Loads.{above, evented_at, events_in, events_of, IsByNumber};

use crate::error::TableError;
use crate::shown::Shown;
use crate::values::{byte_at, list_at, number_at};
use entry_model::restored::{Live, LiveList};
use osq_value::{NoMemory, Row, RowList, Sequence, TableId};
use std::alloc::Global;

/// Some events of one table and one entry.
#[derive(Drop)]
pub struct LivePart {
    /// The evented table.
    pub table: TableId,
    /// The moment at which they were appended.
    pub moment: u64,
    /// Their numbers, which rise.
    pub numbers: Sequence<u64>,
    /// Their rows, one for each number.
    pub rows: RowList,
}

/// A row has some events of one table and one entry.
impl Shown for LivePart {
    ghost use Rattle.kept_tables.specs.Rows.{live_row, IsLivePart};

    ghost shown = { live_row };

    ghost is_held = { IsLivePart };

    fn of_row(alloc: Global, row: &Row) -> Result<Self, TableError> {
        let Some(table) = evented_at(row) else {
            return Err(TableError::Unreadable);
        };
        let Some(moment) = number_at(row, 1) else {
            return Err(TableError::Unreadable);
        };
        let numbers: Sequence<u64> = list_at(alloc, row, 2)?;
        let rows: RowList = list_at(alloc, row, 3)?;
        part_of(table, moment, numbers, rows)
    }
}

/// The part of these events, where each has a number and a row.
fn part_of(
    table: TableId,
    moment: u64,
    numbers: Sequence<u64>,
    rows: RowList,
) -> Result<LivePart, TableError>
    ensures { length numbers ≡ length rows → result ≡ Ok (record { table = table; moment = moment; numbers = numbers; rows = rows }) }
{
    if numbers.len() == rows.len() {
        Ok(LivePart {
            table,
            moment,
            numbers,
            rows,
        })
    } else {
        Err(TableError::Unreadable)
    }
}

/// The evented table whose number stands first.
fn evented_at(row: &Row) -> Option<TableId>
    ensures { option_map (λ table. table.0) result ≡ evented_at row.now }
{
    let number = byte_at(row, 0)?;
    if number <= TableId::FILE_EVENTS.0 {
        Some(TableId(number))
    } else {
        None
    }
}

/// The events of these parts that are not gone, by their numbers. The parts of one entry's tables lie behind one another, while
/// their numbers may alternate.
pub(crate) fn live_of(
    alloc: Global,
    floors: &[u64; 3],
    parts: Sequence<LivePart>,
) -> Result<LiveList, NoMemory>
    ensures { IfOk result (IsByNumber (events_in floors.now parts)) }
{
    let mut live = kept_events(alloc, floors, parts)?;
    live.sort_by_key(|event: &Live| event.number)?;
    Ok(Sequence::from_vec(live))
}

/// The events of these parts that are not gone, in the order of the parts.
fn kept_events(
    alloc: Global,
    floors: &[u64; 3],
    parts: Sequence<LivePart>,
) -> Result<Vec<Live>, NoMemory>
    ensures { IfOk result (λ live. live.items ≡ events_in floors.now parts) }
{
    let mut live = Vec::new(alloc);
    for part in parts.into_vec() {
        add_part(alloc, &mut live, floors, part)?;
    }
    Ok(live)
}

/// Adds the events of a part that are not gone.
fn add_part(
    alloc: Global,
    live: &mut Vec<Live>,
    floors: &[u64; 3],
    part: LivePart,
) -> Result<(), NoMemory>
    ensures { OnOk result (live.new.items ≡ live.old.items ++ filter (is_above (slice_index floors.now)) (events_of part)) }
{
    let LivePart {
        table,
        moment,
        numbers,
        rows,
    } = part;
    let floor = floor_of(floors, table);
    let mut left = rows.into_vec().into_iter();
    for number in numbers.as_slice() {
        let row = match left.next() {
            Some(row) => row,
            None => return Ok(()),
        };
        let number = *number;
        add_live(
            alloc,
            live,
            floor,
            Live {
                number,
                table,
                moment,
                row,
            },
        )?;
    }
    Ok(())
}

/// The number up to which the events of a table are gone.
fn floor_of(floors: &[u64; 3], table: TableId) -> u64
    ensures { result ≡ slice_index floors.now table.0 }
{
    match floors.get(usize::from(table.0)) {
        Some(floor) => *floor,
        None => 0,
    }
}

/// Adds an event whose number is above the floor. Its values are shared from now on.
fn add_live(alloc: Global, live: &mut Vec<Live>, floor: u64, event: Live) -> Result<(), NoMemory>
    ensures { OnOk result (live.new.items ≡ live.old.items ++ above floor event) }
{
    if event.number <= floor {
        return Ok(());
    }
    let row = event.row.shared(alloc)?;
    live.push(Live { row, ..event })?;
    Ok(())
}
