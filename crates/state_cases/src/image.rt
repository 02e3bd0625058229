//! An image of events, and a slice of it.

ghost use Rattle.std.specs.Prelude.{◌≡◌, ◌<◌, All};
ghost use Rattle.entry_model.specs.Legal.{IsEvent};

use crate::line::{items_in, number_of, table_in};
use crate::making::events;
use crate::ready::{are_events, are_wide, nothing};
use crate::shown::{push_number, push_number_or_none, push_numbers, push_tables, tell};
use case_text::{member_text, rows_of};
use event_store::image::{Image, StoreError};
use event_store::view::CutView;
use event_store::{SharedRows, Steps};
use osq_value::{EventList, NoMemory, RowList, TableId};
use serde_json::Value as Json;
use std::alloc::Global;
use std::marker::Brand;
use std::sync::ledger::{Blank, Ledger};

/// Adds events, with steps that nobody counts.
fn append_counted<L: Ledger>(
    image: &mut Image,
    events: EventList,
    moment: u64,
    blank: Blank,
) -> Result<(u64, u64), StoreError>
    requires events { All IsEvent events }
    requires name { blank.name ≡ L.name }
    requires parts { blank.parts ≡ L.parts }
    requires some { 0 < blank.parts }
{
    image.append(events, moment, &mut Steps::<L>::new(blank))
}

/// A slice, with steps that nobody counts.
fn slice_counted<L: Ledger>(
    alloc: Global,
    image: &Image,
    above: u64,
    blank: Blank,
) -> Result<CutView, NoMemory>
    requires name { blank.name ≡ L.name }
    requires parts { blank.parts ≡ L.parts }
    requires some { 0 < blank.parts }
{
    image.slice(alloc, above, &mut Steps::<L>::new(blank))
}

/// The slice above this number.
fn slice_of(alloc: Global, image: &Image, above: u64) -> Result<CutView, NoMemory> {
    slice_counted::<Brand>(alloc, image, above, Blank::new(1))
}

/// Adds events where each is one, and gives the last number before and after.
fn append_events(
    image: &mut Image,
    events: EventList,
    moment: u64,
) -> Option<Result<(u64, u64), StoreError>> {
    if are_events(&events) {
        Some(append_counted::<Brand>(image, events, moment, Blank::new(1)))
    } else {
        None
    }
}

fn push_appended(
    text: &mut String,
    appended: Option<Result<(u64, u64), StoreError>>,
) -> Result<(), NoMemory> {
    match appended {
        None => tell(text, "no events"),
        Some(Ok((before, after))) => push_numbers(text, before, after),
        Some(Err(StoreError::NumbersSpent)) => tell(text, "numbers spent"),
        Some(Err(StoreError::NoMemory)) => Err(NoMemory),
    }
}

fn append(
    alloc: Global,
    text: &mut String,
    image: &mut Image,
    line: &Json,
) -> Result<(), NoMemory> {
    let events = events(alloc, items_in(line, "events"))?;
    push_appended(
        text,
        append_events(image, events, number_of(line, "moment")),
    )
}

/// Gives a table these rows, where it is one that is set and they are as wide as it.
fn set_rows(
    alloc: Global,
    image: &mut Image,
    table: TableId,
    rows: RowList,
) -> Result<&'static str, NoMemory> {
    if table.0 < 3 || 12 <= table.0 || !are_wide(table, &rows) {
        return Ok("no rows of a table that is set");
    }
    image.set_table(alloc, table, rows)?;
    Ok("done")
}

fn set_table(
    alloc: Global,
    text: &mut String,
    image: &mut Image,
    line: &Json,
) -> Result<(), NoMemory> {
    let rows = rows_of(alloc, items_in(line, "rows"))?;
    tell(text, set_rows(alloc, image, table_in(line), rows)?)
}

fn expire(image: &mut Image, table: TableId, floor: u64) -> &'static str {
    if 3 <= table.0 {
        return "no table of events";
    }
    if floor <= image.floor(table) || image.last() < floor {
        return "no floor above the last one";
    }
    image.expire(table, floor);
    "done"
}

fn push_floor_owed(text: &mut String, image: &Image, line: &Json) -> Result<(), NoMemory> {
    let table = table_in(line);
    if 3 <= table.0 {
        return tell(text, "no table of events");
    }
    let (expiry, most) = (
        number_of(line, "events_expiry"),
        number_of(line, "events_max"),
    );
    let moment = number_of(line, "moment");
    let owed = image.floor_owed(table, expiry, most, moment, number_of(line, "reached"));
    push_number_or_none(text, owed)
}

/// Adds the last number, and how many events of each table are live.
fn show(text: &mut String, image: &Image) -> Result<(), NoMemory> {
    push_number(text, " last ", image.last())?;
    text.push_str(", live")?;
    for place in 0..3u8 {
        push_number(text, " ", image.live(TableId(place)))?;
    }
    Ok(())
}

/// Gives a table of the slice these rows, where it is one that is computed and they are as wide as it.
fn compute_rows(
    alloc: Global,
    slice: &mut CutView,
    table: TableId,
    rows: RowList,
) -> Result<&'static str, NoMemory> {
    if table.0 < 12 || 15 <= table.0 || !are_wide(table, &rows) {
        return Ok("no rows of a table that is computed");
    }
    slice.set_computed(table, SharedRows::of(alloc, rows)?);
    Ok("done")
}

fn set_computed(
    alloc: Global,
    text: &mut String,
    slice: &mut CutView,
    line: &Json,
) -> Result<(), NoMemory> {
    let rows = rows_of(alloc, items_in(line, "rows"))?;
    tell(text, compute_rows(alloc, slice, table_in(line), rows)?)
}

/// Makes a call that changes the image, or one that looks at it.
fn call_image(
    alloc: Global,
    text: &mut String,
    image: &mut Image,
    line: &Json,
) -> Result<(), NoMemory> {
    match member_text(line, "image") {
        "append" => append(alloc, text, image, line),
        "set_table" => set_table(alloc, text, image, line),
        "expire" => tell(
            text,
            expire(image, table_in(line), number_of(line, "floor")),
        ),
        _ => look(text, image, line),
    }
}

fn look(text: &mut String, image: &Image, line: &Json) -> Result<(), NoMemory> {
    match member_text(line, "image") {
        "floor_owed" => push_floor_owed(text, image, line),
        "show" => show(text, image),
        _ => tell(text, "no call"),
    }
}

/// An image, and the slice of it that was cut last.
#[derive(Drop)]
pub(crate) struct Sliced {
    image: Image,
    slice: CutView,
}

impl Sliced {
    /// This image, and its slice above 0.
    fn of(alloc: Global, image: Image) -> Result<Sliced, NoMemory> {
        let slice = slice_of(alloc, &image, 0)?;
        Ok(Sliced { image, slice })
    }

    /// An empty image.
    pub(crate) fn new(alloc: Global) -> Result<Sliced, NoMemory> {
        Sliced::of(alloc, Image::restore(alloc, &nothing(alloc))?)
    }

    fn cut(&mut self, alloc: Global, text: &mut String, above: u64) -> Result<(), NoMemory> {
        self.slice = slice_of(alloc, &self.image, above)?;
        tell(text, "done")
    }

    /// Makes a call, and adds what it says.
    pub(crate) fn call(
        &mut self,
        alloc: Global,
        text: &mut String,
        line: &Json,
    ) -> Result<(), NoMemory> {
        match member_text(line, "image") {
            "slice" => self.cut(alloc, text, number_of(line, "above")),
            "set_computed" => set_computed(alloc, text, &mut self.slice, line),
            "view" => push_tables(text, &self.slice, items_in(line, "tables")),
            _ => call_image(alloc, text, &mut self.image, line),
        }
    }
}
