//! Stops, and what each left.

use crate::disks::{disks_of, left_of, sealed};
use case_lists::{entries_behind, push_all};
use case_text::items_of;
use entry_model::entry::EntryList;
use entry_summary::summary::summary_of;
use osq_value::{Copied, NoMemory, Sequence};
use serde_json::Value as Json;
use std::alloc::Global;

/// What is tried: seals one after another, with what the list has before the first and behind each.
#[derive(Drop)]
pub(crate) struct Trial {
    pub seals: Sequence<EntryList>,
    pub values: Sequence<String>,
    pub is_log: bool,
    pub frames: usize,
}

/// More calls than the seals of a row make.
const CALLS: u64 = 1000;

/// All values of a list.
fn values_of(alloc: Global, list: &EntryList) -> Result<String, NoMemory> {
    let mut text = String::new(alloc);
    push_all(&mut text, &summary_of(alloc, list.as_slice())?)?;
    Ok(text)
}

/// The trial of these seals; none where a word is none of an entry.
pub(crate) fn trial_of(
    alloc: Global,
    row: &Json,
    is_log: bool,
    frames: usize,
) -> Result<Option<Trial>, NoMemory> {
    let mut trial = Trial {
        seals: Sequence::new(alloc),
        values: Sequence::new(alloc),
        is_log,
        frames,
    };
    let mut list = EntryList::new(alloc);
    trial.values.push(values_of(alloc, &list)?)?;
    for item in items_of(row.get("seals")) {
        let words = item.as_str().unwrap_or("");
        if !add_seal(alloc, &mut trial, &mut list, words)? {
            return Ok(None);
        }
    }
    Ok(Some(trial))
}

/// Adds a seal of these entries to the trial; false where a word is none of an entry.
fn add_seal(
    alloc: Global,
    trial: &mut Trial,
    list: &mut EntryList,
    words: &str,
) -> Result<bool, NoMemory> {
    let Some(entries) = entries_behind(alloc, list.len() as u64, words)? else {
        return Ok(false);
    };
    list.append(entries.copy(alloc)?)?;
    trial.values.push(values_of(alloc, list)?)?;
    trial.seals.push(entries)?;
    Ok(true)
}

/// Behind so many seals, and perhaps one more that didn't answer, this is loaded.
fn is_whole(values: &[String], count: usize, loaded: &str) -> bool {
    let is_behind = match values.get(count) {
        Some(before) => before.as_str() == loaded,
        None => false,
    };
    let is_one_more = match values.get(count.saturating_add(1)) {
        Some(behind) => behind.as_str() == loaded,
        None => false,
    };
    is_behind || is_one_more
}

/// What a stop behind so many calls leaves: whether it is whole, and whether no seal stopped.
fn stopped(alloc: Global, trial: &Trial, calls: u64) -> Result<(bool, bool), NoMemory> {
    let disks = if trial.is_log {
        disks_of(alloc, calls, u64::MAX)
    } else {
        disks_of(alloc, u64::MAX, calls)
    };
    let (disks, count) = sealed(alloc, disks, trial.frames, trial.seals.as_slice());
    let loaded = left_of(alloc, disks, trial.frames)?;
    let is_whole = is_whole(trial.values.as_slice(), count, loaded.as_str());
    Ok((is_whole, count == trial.seals.len()))
}

/// Tells of the stops, from the first call on until no seal stops.
pub(crate) fn push_stops(alloc: Global, text: &mut String, trial: &Trial) -> Result<(), NoMemory> {
    for calls in 0..CALLS {
        let (is_whole, is_done) = stopped(alloc, trial, calls)?;
        if !is_whole {
            return Ok(writeln!(text, "a stop behind {calls} calls leaves neither")?);
        }
        if is_done {
            return Ok(text.push_str("each stop leaves the list before or behind\n")?);
        }
    }
    Ok(text.push_str("too many calls\n")?)
}
