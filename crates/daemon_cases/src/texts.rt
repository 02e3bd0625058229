//! Texts that are made of numbers.

use crate::numbers::{below, one_of};
use osq_value::{Bytes, NoMemory};
use rand_pcg::Pcg32;
use std::alloc::Global;

/// The texts of queries.
const QUERIES: [&str; 6] = [
    "SELECT 1",
    "SELECT target_path, action FROM file_events",
    "SELECT COUNT(*), MAX(target_path) FROM file_events",
    "SELECT target_path FROM file_events WHERE action = 'CREATED'",
    "SELECT username FROM users ORDER BY username",
    "SELECT f.target_path, u.username FROM file_events f JOIN users u ON f.action = u.description",
];

const ACTIONS: [&str; 3] = ["CREATED", "UPDATED", "DELETED"];

/// Seconds between two batches.
const INTERVALS: [u64; 3] = [60, 60, 120];

/// Adds the query at this place of a schedule.
fn push_query(text: &mut String, random: &mut Pcg32, place: u64) -> Result<(), NoMemory> {
    if place > 0 {
        text.push_str(", ")?;
    }
    write!(text, "\"q{place}\": {{")?;
    write!(text, "\"query\": \"{}\", ", one_of(random, &QUERIES))?;
    write!(text, "\"snapshot\": {}, ", below(random, 3) == 0)?;
    let interval = INTERVALS[below(random, 3) as usize];
    write!(text, "\"interval\": {interval}}}")?;
    Ok(())
}

/// Adds a configuration of one to six queries.
fn push_config(text: &mut String, random: &mut Pcg32) -> Result<(), NoMemory> {
    text.push_str("{\"schedule\": {")?;
    for place in 0..below(random, 6) + 1 {
        push_query(text, random, place)?;
    }
    Ok(text.push_str("}, \"file_paths\": {\"etc\": [\"/etc/%%\"]}}")?)
}

/// A configuration of one to six queries.
pub(crate) fn config_of(alloc: Global, random: &mut Pcg32) -> Result<Bytes, NoMemory> {
    let mut text = String::new(alloc);
    push_config(&mut text, random)?;
    Ok(Bytes::from_vec(text.into_bytes()))
}

/// Adds a change line, the one of this number in a source.
fn push_change(
    text: &mut String,
    random: &mut Pcg32,
    source: u64,
    line: u64,
) -> Result<(), NoMemory> {
    let action = one_of(random, &ACTIONS);
    write!(text, "{{\"path\":\"/etc/{source}/{line}\",")?;
    writeln!(text, "\"action\":\"{action}\",\"time\":1}}")?;
    Ok(())
}

/// Adds so many change lines.
fn push_changes(
    text: &mut String,
    random: &mut Pcg32,
    source: u64,
    lines: u64,
) -> Result<(), NoMemory> {
    for line in 0..lines {
        push_change(text, random, source, line)?;
    }
    Ok(())
}

/// So many change lines.
pub(crate) fn changes_of(
    alloc: Global,
    random: &mut Pcg32,
    source: u64,
    lines: u64,
) -> Result<Bytes, NoMemory> {
    let mut text = String::new(alloc);
    push_changes(&mut text, random, source, lines)?;
    Ok(Bytes::from_vec(text.into_bytes()))
}

/// Adds a line that sets the users to one, by this number.
fn push_user(text: &mut String, random: &mut Pcg32, line: u64) -> Result<(), NoMemory> {
    let action = one_of(random, &ACTIONS);
    write!(
        text,
        "{{\"table\":\"users\",\"rows\":[{{\"uid\":\"{line}\",\"gid\":\"0\","
    )?;
    writeln!(
        text,
        "\"username\":\"u{line}\",\"description\":\"{action}\"}}]}}"
    )?;
    Ok(())
}

/// Adds so many lines that set the users.
fn push_users(text: &mut String, random: &mut Pcg32, lines: u64) -> Result<(), NoMemory> {
    for line in 0..lines {
        push_user(text, random, line)?;
    }
    Ok(())
}

/// So many lines that set the users.
pub(crate) fn users_of(alloc: Global, random: &mut Pcg32, lines: u64) -> Result<Bytes, NoMemory> {
    let mut text = String::new(alloc);
    push_users(&mut text, random, lines)?;
    Ok(Bytes::from_vec(text.into_bytes()))
}
