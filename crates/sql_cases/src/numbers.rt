//! Numbers as text.

use osq_value::NoMemory;

pub(crate) fn push_number(shown: &mut String, number: i64) -> Result<(), NoMemory> {
    Ok(write!(shown, "{number}")?)
}

/// Adds the number of a place.
pub(crate) fn push_place(shown: &mut String, place: usize) -> Result<(), NoMemory> {
    Ok(write!(shown, "{place}")?)
}

/// Adds the places that a part of a text reaches from and to.
pub(crate) fn push_reach(shown: &mut String, start: usize, end: usize) -> Result<(), NoMemory> {
    push_place(shown, start)?;
    shown.push_str("-")?;
    push_place(shown, end)
}
