//! Schedules of configurations, with their notes.

ghost use Rattle.std.specs.Prelude.{◌≡◌, length};

use crate::given::{found_of, host_of};
use case_text::{bytes_of, member_text};
use osq_config::{Config, ConfigError, read_config};
use osq_value::NoMemory;
use pack_rules::schedule::{Form, Mode, Schedule, Scheduled};
use pack_rules::{Host, schedule_of};
use schedule_notes::schedule_notes;
use serde_json::Value as Json;
use std::alloc::Global;
use std::str;

fn mode_word(mode: Mode) -> &'static str {
    match mode {
        Mode::Evented => "evented",
        Mode::Snapshot => "snapshot",
    }
}

fn form_word(form: Form) -> &'static str {
    match form {
        Form::Event => "event",
        Form::Batch => "batch",
    }
}

fn push_query(text: &mut String, query: &Scheduled) -> Result<(), NoMemory> {
    let (name, held) = (query.key.name.as_str(), query.key.text.as_str());
    let mode = mode_word(query.key.mode);
    Ok(writeln!(text, "{mode} {name}/{} '{held}'", query.interval)?)
}

fn push_schedule(text: &mut String, schedule: &Schedule) -> Result<(), NoMemory> {
    let (expiry, most) = (schedule.events_expiry, schedule.events_max);
    writeln!(text, "{expiry} {most} {}", form_word(schedule.form))?;
    for query in schedule.queries.as_slice() {
        push_query(text, query)?;
    }
    Ok(())
}

fn push_notes(text: &mut String, notes: &[u8]) -> Result<(), NoMemory> {
    match str::from_utf8(notes) {
        Ok(lines) => Ok(text.push_str(lines)?),
        Err(_) => Ok(text.push_str("notes that aren't UTF-8\n")?),
    }
}

/// Tells the schedule of a configuration with a word for each of its packs, and the notes with these lines of packs that are left out.
fn push_scheduled(
    alloc: Global,
    text: &mut String,
    config: &Config,
    host: &Host,
    found: &[bool],
    left_out: &str,
) -> Result<(), NoMemory>
    requires { length found.now ≡ length config.now.packs }
{
    let schedule = schedule_of(alloc, config, host, found)?;
    push_schedule(text, &schedule)?;
    let queries = schedule.queries.as_slice();
    let notes = schedule_notes(alloc, config, host, found, queries, left_out.as_bytes())?;
    push_notes(text, notes.as_slice())
}

/// Tells the schedule of a row's configuration, where the row has a word for each of its packs.
fn push_found(
    alloc: Global,
    text: &mut String,
    config: &Config,
    row: &Json,
) -> Result<(), NoMemory> {
    let host = host_of(alloc, row)?;
    let found = found_of(alloc, row)?;
    if found.len() != config.packs.len() {
        return Ok(text.push_str("not a word for each pack\n")?);
    }
    let left_out = member_text(row, "left_out");
    push_scheduled(alloc, text, config, &host, found.as_slice(), left_out)
}

/// Reads the configuration of a row, and tells its schedule.
pub(crate) fn push_read(alloc: Global, text: &mut String, row: &Json) -> Result<(), NoMemory> {
    let document = bytes_of(alloc, row.get("schedule").unwrap_or(row))?;
    match read_config(alloc, document.as_slice()) {
        Ok(config) => push_found(alloc, text, &config, row),
        Err(ConfigError::NoMemory) => Err(NoMemory),
        Err(_) => Ok(text.push_str("no configuration\n")?),
    }
}
