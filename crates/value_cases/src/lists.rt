//! Lists of values, lists as the keys of a map, and rows that share their values.

use case_text::{items_of, push_row, push_value, push_values, row_of, value_of, values_of};
use osq_value::{Copied, NoMemory, Row, Sequence, Value};
use serde_json::Value as Json;
use std::alloc::Global;
use std::collections::HashMap;

/// Values, in order.
type ValueList = Sequence<Value>;

/// The places of lists.
type Places = HashMap<ValueList, usize>;

fn list_of(alloc: Global, given: &Json) -> Result<ValueList, NoMemory> {
    Ok(ValueList::from_vec(values_of(alloc, given)?))
}

/// A copy of the list of an array.
fn copy_of(alloc: Global, given: &Json) -> Result<ValueList, NoMemory> {
    list_of(alloc, given)?.copy(alloc)
}

/// Adds a list, the number of its values, and the end of the line.
fn push_whole(text: &mut String, list: &ValueList) -> Result<(), NoMemory> {
    text.push_str(": ")?;
    push_values(text, list.as_slice())?;
    Ok(writeln!(text, " of {}", list.len())?)
}

/// Adds a value, or that there is none, and the end of the line.
fn push_maybe(text: &mut String, value: Option<&Value>) -> Result<(), NoMemory> {
    text.push_str(":")?;
    match value {
        Some(value) => push_value(text, value)?,
        None => text.push_str(" none")?,
    }
    Ok(text.push_str("\n")?)
}

/// Takes the first value off, and adds it.
fn take_first(text: &mut String, list: &mut ValueList) -> Result<(), NoMemory> {
    let first = list.take_first();
    push_maybe(text, first.as_ref())
}

/// Takes the first value off, and adds it and what it leaves.
fn push_first(text: &mut String, list: &mut ValueList) -> Result<(), NoMemory> {
    take_first(text, list)?;
    text.push_str("   leaves")?;
    push_whole(text, list)
}

/// Adds the value at a place.
fn push_got(text: &mut String, list: &ValueList, at: u64) -> Result<(), NoMemory> {
    push_maybe(text, list.get(usize::try_from(at).unwrap_or(usize::MAX)))
}

/// Adds whether the list is that of an array.
fn push_alike(
    alloc: Global,
    text: &mut String,
    list: &ValueList,
    items: &Json,
) -> Result<(), NoMemory> {
    let other = list_of(alloc, items)?;
    let answer = if *list == other { ": yes\n" } else { ": no\n" };
    Ok(text.push_str(answer)?)
}

/// Adds the values of an array at the end of the list.
fn append(alloc: Global, list: &mut ValueList, items: &Json) -> Result<(), NoMemory> {
    let more = list_of(alloc, items)?.into_vec();
    list.append(ValueList::from_vec(more))
}

/// Does a step that changes the list, and adds the list.
fn push_changed(
    alloc: Global,
    text: &mut String,
    list: &mut ValueList,
    step: &Json,
) -> Result<(), NoMemory> {
    if let Some(value) = step.get("push") {
        list.push(value_of(alloc, value)?)?;
    } else if let Some(items) = step.get("append") {
        append(alloc, list, items)?;
    } else {
        return Ok(text.push_str(": no step\n")?);
    }
    push_whole(text, list)
}

/// Does a step, and adds its answer.
fn push_step(
    alloc: Global,
    text: &mut String,
    list: &mut ValueList,
    step: &Json,
) -> Result<(), NoMemory> {
    if let Some(at) = step.get("get").and_then(Json::as_u64) {
        return push_got(text, list, at);
    }
    if let Some(items) = step.get("is") {
        return push_alike(alloc, text, list, items);
    }
    match step.as_str() {
        Some("take_first") => push_first(text, list),
        _ => push_changed(alloc, text, list, step),
    }
}

/// Adds a list, and a line for each step over it.
fn push_steps(
    alloc: Global,
    text: &mut String,
    list: &mut ValueList,
    steps: &[Json],
) -> Result<(), NoMemory> {
    push_whole(text, list)?;
    for step in steps {
        write!(text, "  {step}")?;
        push_step(alloc, text, list, step)?;
    }
    Ok(())
}

/// Adds a list, and a line for each step over a copy of it.
pub(crate) fn push_list(
    alloc: Global,
    text: &mut String,
    given: &Json,
    steps: Option<&Json>,
) -> Result<(), NoMemory> {
    let mut list = copy_of(alloc, given)?;
    push_steps(alloc, text, &mut list, items_of(steps))
}

/// Puts each list under its place.
fn put_places(alloc: Global, places: &mut Places, keys: &[Json]) -> Result<(), NoMemory> {
    for (place, key) in keys.iter().enumerate() {
        places.insert(list_of(alloc, key)?, place)?;
    }
    Ok(())
}

/// A map of lists to their places.
fn places_of(alloc: Global, keys: &[Json]) -> Result<Places, NoMemory> {
    let mut places = HashMap::with_capacity(alloc, keys.len())?;
    put_places(alloc, &mut places, keys)?;
    Ok(places)
}

/// The list that is asked for; the empty one where none is.
fn asked_of(alloc: Global, asked: Option<&Json>) -> Result<ValueList, NoMemory> {
    match asked {
        Some(asked) => list_of(alloc, asked),
        None => Ok(ValueList::new(alloc)),
    }
}

/// Adds a list, and its place in a map.
fn push_place(text: &mut String, places: &Places, key: &ValueList) -> Result<(), NoMemory> {
    text.push_str(" asked ")?;
    push_values(text, key.as_slice())?;
    match places.get(key) {
        Some(place) => Ok(writeln!(text, ": {place}")?),
        None => Ok(text.push_str(": none\n")?),
    }
}

/// Adds the list that is asked for, and its place in a map.
fn push_found(
    alloc: Global,
    text: &mut String,
    places: &Places,
    asked: Option<&Json>,
) -> Result<(), NoMemory> {
    let key = asked_of(alloc, asked)?;
    push_place(text, places, &key)
}

/// Adds the place of the list that is asked for.
pub(crate) fn push_asked(
    alloc: Global,
    text: &mut String,
    given: &Json,
    asked: Option<&Json>,
) -> Result<(), NoMemory> {
    let places = places_of(alloc, items_of(Some(given)))?;
    push_found(alloc, text, &places, asked)
}

/// The row of an array, whose copies share its values.
fn shared_row(alloc: Global, given: &Json) -> Result<Row, NoMemory> {
    row_of(alloc, given)?.shared(alloc)
}

/// Adds what a copy of a row has gained, and the row.
fn push_rows(text: &mut String, copy: &Row, row: &Row) -> Result<(), NoMemory> {
    text.push_str(" gains ")?;
    push_row(text, copy)?;
    text.push_str(" leaves ")?;
    push_row(text, row)?;
    Ok(text.push_str("\n")?)
}

/// Adds a value to a row; Null where none is given.
fn gain(alloc: Global, row: &mut Row, gains: Option<&Json>) -> Result<(), NoMemory> {
    row.push(match gains {
        Some(gains) => value_of(alloc, gains)?,
        None => Value::Null,
    })
}

/// Adds a copy of a row that gains a value, and the row.
fn push_copy(
    alloc: Global,
    text: &mut String,
    row: &Row,
    gains: Option<&Json>,
) -> Result<(), NoMemory> {
    let mut copy = row.copy(alloc)?;
    gain(alloc, &mut copy, gains)?;
    push_rows(text, &copy, row)
}

/// Adds a copy of a row that shares its values and then gains one, and the row.
pub(crate) fn push_gained(
    alloc: Global,
    text: &mut String,
    given: &Json,
    gains: Option<&Json>,
) -> Result<(), NoMemory> {
    let row = shared_row(alloc, given)?;
    push_copy(alloc, text, &row, gains)
}

/// The row of ten or of twelve values that lie in an array; none of so many others.
fn row_of_array(alloc: Global, values: Vec<Value>) -> Result<Option<Row>, NoMemory> {
    match <[Value; 10]>::try_from(values) {
        Ok(values) => Ok(Some(Row::of_ten(alloc, values)?)),
        Err(values) => match <[Value; 12]>::try_from(values) {
            Ok(values) => Ok(Some(Row::of_twelve(alloc, values)?)),
            Err(_) => Ok(None),
        },
    }
}

/// Adds a copy of a row that was made of an array and then gains a value, and the row.
pub(crate) fn push_array(
    alloc: Global,
    text: &mut String,
    given: &Json,
    gains: Option<&Json>,
) -> Result<(), NoMemory> {
    match row_of_array(alloc, values_of(alloc, given)?)? {
        Some(row) => push_copy(alloc, text, &row, gains),
        None => Ok(text.push_str(": no row has an array of so many\n")?),
    }
}
