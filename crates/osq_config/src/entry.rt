//! Queries.

ghost use Rattle.std.specs.Prelude.{◌≡◌, Some};
ghost use Rattle.serde_json.specs.Find.{get};
ghost use Rattle.serde_json.specs.View.{members_view, view};
ghost use Rattle.osq_config.specs.Faults.{fault_at, fault_of, fault_of_members};
ghost use Rattle.osq_config.specs.Kinds.{each, entry_kind};
ghost use Rattle.osq_config.specs.Reads.{Reads};
ghost use Rattle.osq_config.specs.Values.{entries_in, entries_of, entry_of};

use crate::config::{QueryEntry, QueryEntryList, Rules};
use crate::error::ConfigError;
use crate::field::{
    Bounds, check_object, needed_text_at, number_at, path_to, text_at, truth_at, wrong_shape,
};
use osq_value::Str;
use serde_json::{Map, Value as Json};
use std::alloc::Global;

/// Seconds between two batches of a query.
const INTERVAL: Bounds = Bounds {
    least: 1,
    most: 604800,
    default: 3600,
};

/// Hundredths of the hosts.
pub const SHARD: Bounds = Bounds {
    least: 1,
    most: 100,
    default: 100,
};

/// The queries of a key that may be missing, in byte order of their names.
/// WrongShape where the value, or an entry in it, is no object; and the faults of the keys of entries.
pub fn entries_at(
    alloc: Global,
    path: &str,
    object: &Json,
    key: &str,
) -> Result<QueryEntryList, ConfigError>
    ensures { Reads (fault_at (each entry_kind) path.now key.now (view object.now))
        (entries_in (get key.now (view object.now))) result }
{
    let Some(value) = object.get(key) else {
        return Ok(QueryEntryList::new(alloc));
    };
    let path = path_to(alloc, path, key)?;
    entries(alloc, path.as_str(), value)
}

fn entries(alloc: Global, path: &str, value: &Json) -> Result<QueryEntryList, ConfigError>
    ensures { Reads (fault_of (each entry_kind) path.now (view value.now))
        (entries_in (Some (view value.now))) result }
{
    match value.as_object() {
        Some(members) => all_entries(alloc, path, members),
        None => Err(wrong_shape(alloc, path)),
    }
}

fn all_entries(
    alloc: Global,
    path: &str,
    members: &Map<String, Json>,
) -> Result<QueryEntryList, ConfigError>
    ensures { Reads
        (fault_of_members (fault_of entry_kind) path.now (members_view members.now.entries))
        (entries_of (members_view members.now.entries)) result }
{
    let mut entries = QueryEntryList::new(alloc);
    for (name, value) in members {
        let path = path_to(alloc, path, name.as_str())?;
        entries.push(entry(alloc, path.as_str(), name.as_str(), value)?)?;
    }
    Ok(entries)
}

/// The query of a name, from the object at a path. Its keys are read in byte order, so that the first fault is answered.
fn entry(alloc: Global, path: &str, name: &str, value: &Json) -> Result<QueryEntry, ConfigError>
    ensures { Reads (fault_of entry_kind path.now (view value.now))
        (entry_of name.now (view value.now)) result }
{
    check_object(alloc, path, value)?;
    truth_at(alloc, path, value, "denylist")?;
    let interval = number_at(alloc, path, value, "interval", INTERVAL)?;
    let platform = text_at(alloc, path, value, "platform")?;
    let text = needed_text_at(alloc, path, value, "query")?;
    truth_at(alloc, path, value, "removed")?;
    let shard = number_at(alloc, path, value, "shard", SHARD)?;
    let is_snapshot = truth_at(alloc, path, value, "snapshot")?;
    let version = text_at(alloc, path, value, "version")?;
    Ok(QueryEntry {
        name: Str::of(alloc, name)?,
        text,
        interval,
        is_snapshot,
        rules: Rules {
            platform,
            version,
            shard,
        },
    })
}
