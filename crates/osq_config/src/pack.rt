//! Query packs.

ghost use Rattle.std.specs.Prelude.{◌≡◌, [], Some, codes};
ghost use Rattle.serde_json.specs.Find.{get};
ghost use Rattle.serde_json.specs.View.{members_view, view};
ghost use Rattle.osq_config.specs.Faults.{fault_at, fault_of, fault_of_members};
ghost use Rattle.osq_config.specs.Kinds.{each, pack_kind, text_or, texts};
ghost use Rattle.osq_config.specs.Reads.{Reads};
ghost use Rattle.osq_config.specs.Values.{pack_of, pack_with, packs_in, packs_of, texts_in};

use crate::config::{Pack, PackList, QueryEntryList, Rules};
use crate::entry::{SHARD, entries_at};
use crate::error::ConfigError;
use crate::field::{
    check_object, number_at, path_to, text_at, texts_of, wrong_shape, wrong_shape_at,
};
use osq_value::{Str, TextList};
use serde_json::{Map, Value as Json};
use std::alloc::Global;

/// The packs of a document, in byte order of their names.
/// WrongShape where the value is no object, or a member of it neither a text nor an object; and the faults of the keys of packs.
pub fn packs_of(alloc: Global, document: &Json) -> Result<PackList, ConfigError>
    ensures { Reads (fault_at (each (text_or pack_kind)) [] (codes "packs") (view document.now))
        (packs_in (get (codes "packs") (view document.now))) result }
{
    match document.get("packs") {
        Some(packs) => packs_in(alloc, "packs", packs),
        None => Ok(PackList::new(alloc)),
    }
}

fn packs_in(alloc: Global, path: &str, value: &Json) -> Result<PackList, ConfigError>
    ensures { Reads (fault_of (each (text_or pack_kind)) path.now (view value.now))
        (packs_in (Some (view value.now))) result }
{
    match value.as_object() {
        Some(members) => all_packs(alloc, path, members),
        None => Err(wrong_shape(alloc, path)),
    }
}

fn all_packs(
    alloc: Global,
    path: &str,
    members: &Map<String, Json>,
) -> Result<PackList, ConfigError>
    ensures { Reads
        (fault_of_members (fault_of (text_or pack_kind)) path.now (members_view members.now.entries))
        (packs_of (members_view members.now.entries)) result }
{
    let mut packs = PackList::new(alloc);
    for (name, value) in members {
        let path = path_to(alloc, path, name.as_str())?;
        packs.push(pack(alloc, path.as_str(), name.as_str(), value)?)?;
    }
    Ok(packs)
}

/// The pack of a name, from the value at a path: a file's path, or the pack itself.
fn pack(alloc: Global, path: &str, name: &str, value: &Json) -> Result<Pack, ConfigError>
    ensures { Reads (fault_of (text_or pack_kind) path.now (view value.now))
        (pack_of name.now (view value.now)) result }
{
    let name = Str::of(alloc, name)?;
    match value.as_str() {
        Some(file) => Ok(Pack {
            name,
            path: Some(Str::of(alloc, file)?),
            discovery: TextList::new(alloc),
            queries: QueryEntryList::new(alloc),
            rules: Rules {
                platform: Str::empty(),
                version: Str::empty(),
                shard: SHARD.default,
            },
        }),
        None => pack_with(alloc, path, name, None, value),
    }
}

/// The pack that an object at a path holds. Its keys are read in byte order, so that the first fault is answered.
/// WrongShape where the value is no object; and the faults of its keys.
pub fn pack_with(
    alloc: Global,
    path: &str,
    name: Str,
    file: Option<Str>,
    value: &Json,
) -> Result<Pack, ConfigError>
    ensures { Reads (fault_of pack_kind path.now (view value.now))
        (pack_with name file (view value.now)) result }
{
    check_object(alloc, path, value)?;
    let discovery = texts_at(alloc, path, value, "discovery")?;
    let platform = text_at(alloc, path, value, "platform")?;
    let queries = entries_at(alloc, path, value, "queries")?;
    let shard = number_at(alloc, path, value, "shard", SHARD)?;
    let version = text_at(alloc, path, value, "version")?;
    Ok(Pack {
        name,
        path: file,
        discovery,
        queries,
        rules: Rules {
            platform,
            version,
            shard,
        },
    })
}

/// The array of texts of a key that may be missing.
fn texts_at(alloc: Global, path: &str, object: &Json, key: &str) -> Result<TextList, ConfigError>
    ensures { Reads (fault_at texts path.now key.now (view object.now))
        (texts_in (get key.now (view object.now))) result }
{
    let Some(value) = object.get(key) else {
        return Ok(TextList::new(alloc));
    };
    match texts_of(alloc, value)? {
        Some(texts) => Ok(texts),
        None => Err(wrong_shape_at(alloc, path, key)),
    }
}
