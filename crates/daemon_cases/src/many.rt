//! Many runs that are made of numbers.

use crate::pair::tried;
use crate::seen::Seen;
use osq_value::NoMemory;
use std::alloc::Global;
use std::sync::Wait;
use std::thread::Threads;

/// Adds whether there was one of each kind among so many runs.
fn push_seen(text: &mut String, count: u64, seen: Seen) -> Result<(), NoMemory> {
    let kinds = if seen.is_all() {
        "of each kind"
    } else {
        "not of each kind"
    };
    writeln!(text, "{count} runs {kinds}")?;
    Ok(())
}

/// Adds what so many runs leave that are made of numbers, from this one on; or the first of them that leaves something wrong.
pub(crate) fn push_many<R: Threads + Wait + Sync>(
    rt: &R,
    alloc: Global,
    text: &mut String,
    from: u64,
    count: u64,
) -> Result<(), NoMemory> {
    let mut seen = Seen::NOTHING;
    for seed in from..from.saturating_add(count) {
        if let Some(fault) = tried(rt, alloc, seed, &mut seen)? {
            return Ok(writeln!(text, "run {seed}: {fault}")?);
        }
    }
    push_seen(text, count, seen)
}
