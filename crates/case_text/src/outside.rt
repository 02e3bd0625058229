//! What forms in memory of the outside begin with.

use crate::given::items_of;
use crate::parts::bytes_of;
use osq_outside::{Fail, FailList, NamedFile, NamedFileList};
use osq_value::{NoMemory, Str};
use serde_json::Value as Json;
use std::alloc::Global;

/// The calls that are to fail, by the array of their numbers.
pub fn fails_of(alloc: Global, calls: Option<&Json>) -> Result<FailList, NoMemory> {
    let mut fails = FailList::new(alloc);
    for call in items_of(calls).iter().filter_map(Json::as_u64) {
        fails.push(Fail { call })?;
    }
    Ok(fails)
}

/// The files of an object, whose names are their paths.
pub fn files_of(alloc: Global, members: Option<&Json>) -> Result<NamedFileList, NoMemory> {
    let mut files = NamedFileList::new(alloc);
    if let Some(held) = members.and_then(Json::as_object) {
        for (path, value) in held.iter() {
            files.push(NamedFile {
                path: Str::of(alloc, path.as_str())?,
                text: bytes_of(alloc, value)?,
            })?;
        }
    }
    Ok(files)
}
