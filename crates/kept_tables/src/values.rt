//! What stands in the columns of a row.

ghost use Rattle.std.specs.Prelude.{◌≡◌, List, Some, map, IfOk};
ghost use Rattle.std.specs.List.{AllByRecursion};
ghost use Rattle.std.specs.Option.{option_copied};
ghost use Rattle.result_batches.specs.Json.{array};
ghost use Rattle.kept_tables.specs.Columns.{number_at, byte_at, text_at};
ghost use Rattle.kept_tables.specs.Reads.{Gives};

use crate::error::TableError;
use crate::lists::read_list;
use batch_frames::spelled::Spelled;
use osq_value::{Row, Sequence, Str, Value};
use std::alloc::Global;

/// The number in this column; none where it holds something else.
pub(crate) fn number_at(row: &Row, at: usize) -> Option<u64>
    ensures { result ≡ number_at row.now at }
{
    match row.get(at) {
        Some(Value::Int(number)) => u64::try_from(*number).ok(),
        _ => None,
    }
}

/// The number of one byte in this column.
pub(crate) fn byte_at(row: &Row, at: usize) -> Option<u8>
    ensures { result ≡ byte_at row.now at }
{
    u8::try_from(number_at(row, at)?).ok()
}

/// The text in this column.
pub(crate) fn text_at(row: &Row, at: usize) -> Option<&Str>
    ensures { option_copied result ≡ text_at row.now at }
{
    match row.get(at) {
        Some(Value::Text(text)) => Some(text),
        _ => None,
    }
}

/// The list in this column.
pub(crate) fn list_at<T: Spelled>(
    alloc: Global,
    row: &Row,
    at: usize,
) -> Result<Sequence<T>, TableError>
    ensures same { IfOk result (λ items. text_at row.now at ≡ Some (array (map T.text items))) }
    ensures back { (items : List T) → AllByRecursion T.is_held items → text_at row.now at ≡ Some (array (map T.text items)) → Gives items result }
{
    let Some(text) = text_at(row, at) else {
        return Err(TableError::Unreadable);
    };
    match read_list(alloc, text.as_str().as_bytes())? {
        Some(items) => Ok(items),
        None => Err(TableError::Unreadable),
    }
}
