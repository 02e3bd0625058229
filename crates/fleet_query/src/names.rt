//! The last frame of each query.

ghost use Rattle.std.specs.Prelude.{◌≡◌, IfOk, map};
ghost use Rattle.fleet_query.specs.Names.{last_frames};
ghost use Rattle.fleet_query.specs.Tables.{shown_lasts};

use batch_frames::Frame;
use osq_value::{NoMemory, Sequence};
use std::alloc::Global;
use std::collections::BTreeMap;

/// Frames that stay where they are.
pub(crate) type FrameRefs<'a> = Sequence<&'a Frame>;

/// The most queries that have a table. With the two other tables, the numbers of derived tables suffice.
const QUERY_TABLES: usize = 90;

/// The last frame of each query's name, in byte order of the names, for as many of them as have a table.
pub(crate) fn last_frames<'a>(alloc: Global, frames: &'a [Frame]) -> Result<FrameRefs<'a>, NoMemory>
    ensures { IfOk result (λ lasts. map (λ last. last.now) lasts ≡ shown_lasts frames.now) }
{
    let index = last_by_name(alloc, frames)?;
    let mut lasts = FrameRefs::new(alloc);
    for last in index.into_values() {
        if lasts.len() == QUERY_TABLES {
            break;
        }
        lasts.push(last)?;
    }
    Ok(lasts)
}

/// The last frame of each query's name. Strangers choose the names, so they are looked up by their order and not by a hash.
fn last_by_name<'a>(
    alloc: Global,
    frames: &'a [Frame],
) -> Result<BTreeMap<&'a str, &'a Frame>, NoMemory>
    ensures { IfOk result (λ index. map (λ entry. entry.1.now) index.entries ≡ last_frames frames.now) }
{
    let mut index = BTreeMap::new(alloc);
    for frame in frames {
        index.insert(frame.batch.query.name.as_str(), frame)?;
    }
    Ok(index)
}
