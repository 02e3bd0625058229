//! Lines of rows, and the kinds of rows.

use osq_value::NoMemory;
use serde_json::Value as Json;
use std::alloc::Global;

/// The row of a line: nothing where the line is empty or begins with `#`, and Null where it is no JSON.
pub fn json_of_line(alloc: Global, line: &str) -> Result<Option<Json>, NoMemory> {
    if line.is_empty() || line.starts_with('#') {
        return Ok(None);
    }
    match Json::from_str(alloc, line) {
        Ok(row) => Ok(Some(row)),
        Err(error) if error.is_memory() => Err(NoMemory),
        Err(_) => Ok(Some(Json::Null)),
    }
}

/// Whether each member of a row is one of these.
fn has_only(row: &Json, members: &[&str]) -> bool {
    match row.as_object() {
        Some(held) => held.iter().all(|(key, _)| members.contains(&key.as_str())),
        None => false,
    }
}

/// The kind of a row. A kind is given by the members that its rows may have, of which each row has the first: the kind's name. A row that
/// isn't an object, or has a member that none of the kinds allows it, is of no kind.
pub fn kind_of_row<'a>(kinds: &[&[&'a str]], row: &Json) -> Option<&'a str> {
    for members in kinds {
        if let Some((name, _)) = members.split_first() {
            if row.get(*name).is_some() && has_only(row, *members) {
                return Some(*name);
            }
        }
    }
    None
}

/// A kind of line: the member that tells it, and the other members that such a line may have.
pub type LineKind = (&'static str, &'static [&'static str]);

/// The first of the kinds whose member the line has.
pub fn kind_of(line: &Json, kinds: &[LineKind]) -> Option<LineKind> {
    kinds
        .iter()
        .find(|kind| line.get(kind.0).is_some())
        .copied()
}

/// The first member that a line of that kind may not have.
pub fn odd_member<'a>(line: &'a Json, kind: LineKind) -> Option<&'a str> {
    let members = line.as_object()?;
    members
        .iter()
        .map(|(key, _)| key.as_str())
        .find(|key| *key != kind.0 && !kind.1.contains(key))
}
