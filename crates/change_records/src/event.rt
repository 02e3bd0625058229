ghost use Rattle.std.specs.Prelude.{◌≡◌, ◌↔◌, IfOk, IsTrue};
ghost use Rattle.std.specs.Option.{option_copied};
ghost use Rattle.change_records.specs.Events.{BeforeFound, FindsCategory, IsEventOf, SomeMatches, Takes, file_row};

use crate::change::Change;
use crate::pattern::path_matches;
use osq_value::{Category, CategoryList, Copied, Event, NoMemory, Row, Str, TableId, Value};
use std::alloc::Global;
use std::mem;

/// The event of the table `file_events` for a change of a file. Its category is the first, in byte order of names, of which some pattern
/// matches the path and no excluded pattern does; of equal names the first in the list is meant. None exactly where no category takes the
/// path. What the change has moves into the event's row.
pub fn change_event(
    alloc: Global,
    change: Change,
    paths: &CategoryList,
) -> Result<Option<Event>, NoMemory>
    ensures { IfOk result (λ event. IsEventOf change paths.now event) }
{
    match category_of(change.path.as_str(), paths.as_slice()) {
        None => Ok(None),
        Some(category) => Ok(Some(Event {
            table: TableId::FILE_EVENTS,
            row: row(alloc, change, &category.name)?,
        })),
    }
}

/// The category that takes the path. Patterns are tried only where the category's name stands before that of the one found so far: in a
/// list in byte order of names, behind the first that takes the path none are.
fn category_of<'a>(path: &str, categories: &'a [Category]) -> Option<&'a Category>
    ensures { FindsCategory path.now categories.now (option_copied result) }
{
    let mut first: Option<&Category> = None;
    for category in categories {
        if is_before(category, first) && takes(category, path) {
            first = Some(category);
        }
    }
    first
}

/// The category's name stands before the name of the one that was found so far.
fn is_before(category: &Category, first: Option<&Category>) -> bool
    ensures { IsTrue result ↔ BeforeFound category.now (option_copied first.entry) }
{
    match first {
        None => true,
        Some(found) => category.name.as_str() < found.name.as_str(),
    }
}

fn takes(category: &Category, path: &str) -> bool
    ensures { IsTrue result ↔ Takes category.now path.now }
{
    some_matches(category.patterns.as_slice(), path)
        && !some_matches(category.excluded.as_slice(), path)
}

fn some_matches(patterns: &[Str], path: &str) -> bool
    ensures { IsTrue result ↔ SomeMatches patterns.now path.now }
{
    patterns
        .iter()
        .any(|pattern| path_matches(pattern.as_str(), path))
}

fn row(alloc: Global, change: Change, category: &Str) -> Result<Row, NoMemory>
    ensures { IfOk result (λ row. row ≡ file_row change category.now) }
{
    let category = category.copy(alloc)?;
    let mut numbers = change.numbers;
    Row::of_ten(
        alloc,
        [
            Value::Text(change.path),
            Value::Text(category),
            Value::Text(change.action),
            mem::replace(&mut numbers[0], Value::Null),
            mem::replace(&mut numbers[1], Value::Null),
            mem::replace(&mut numbers[2], Value::Null),
            change.mode,
            mem::replace(&mut numbers[3], Value::Null),
            mem::replace(&mut numbers[4], Value::Null),
            change.time,
        ],
    )
}
