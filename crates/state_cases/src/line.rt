//! Members of lines.

use case_text::items_of;
use osq_value::{TableId, catalogue};
use serde_json::Value as Json;

/// The number of this name; another one where the line has none.
pub(crate) fn number_or(line: &Json, name: &str, other: u64) -> u64 {
    line.get(name).and_then(Json::as_u64).unwrap_or(other)
}

/// The number of this name; 0 where the line has none.
pub(crate) fn number_of(line: &Json, name: &str) -> u64 {
    number_or(line, name, 0)
}

/// The items of the array of this name.
pub(crate) fn items_in<'a>(line: &'a Json, name: &str) -> &'a [Json] {
    items_of(line.get(name))
}

/// The table of this name or number.
pub(crate) fn table_of(item: Option<&Json>) -> TableId {
    let Some(item) = item else {
        return TableId::NONE;
    };
    if let Some(found) = item.as_str().and_then(catalogue::table_of) {
        return found.id;
    }
    match item.as_u64().and_then(|number| u8::try_from(number).ok()) {
        Some(number) => TableId(number),
        None => TableId::NONE,
    }
}

/// The table that the line names.
pub(crate) fn table_in(line: &Json) -> TableId {
    table_of(line.get("table"))
}
