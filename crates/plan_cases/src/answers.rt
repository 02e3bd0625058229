//! Lines with what a text answers, and with the packs of a configuration.

use crate::queries::push_all;
use crate::sql::{answer, found_packs, names, schedule_for};
use crate::view::GivenTables;
use osq_config::{Config, ConfigError, Pack, read_config};
use osq_value::{NoMemory, Str};
use pack_rules::Host;
use pack_rules::schedule::Scheduled;
use serde_json::Value as Json;
use std::alloc::Global;

fn push_each(shown: &mut String, names: &[Str]) -> Result<(), NoMemory> {
    for name in names {
        shown.push_str(" ")?;
        shown.push_str(name.as_str())?;
        shown.push_str(";")?;
    }
    Ok(())
}

/// Adds the names of the columns of the text's result.
fn push_names(alloc: Global, shown: &mut String, text: &str) -> Result<(), NoMemory> {
    match names(alloc, text)? {
        None => Ok(shown.push_str(" no names;")?),
        Some(list) => push_each(shown, list.as_slice()),
    }
}

fn push_answered(
    alloc: Global,
    shown: &mut String,
    text: &str,
    view: &GivenTables,
) -> Result<(), NoMemory> {
    match answer(alloc, text, view)? {
        None => Ok(shown.push_str(" not accepted")?),
        Some(rows) => push_all(shown, &rows),
    }
}

/// Adds the names of the columns of the text's result, and its rows.
pub(crate) fn push_answer(
    alloc: Global,
    shown: &mut String,
    text: &str,
    view: &GivenTables,
) -> Result<(), NoMemory> {
    push_names(alloc, shown, text)?;
    push_answered(alloc, shown, text, view)
}

/// The host that schedules are made for.
fn host(alloc: Global) -> Result<Host, NoMemory> {
    Ok(Host {
        identifier: Str::of(alloc, "h1")?,
        platform: Str::of(alloc, "linux")?,
        agent: Str::of(alloc, "5.10.0")?,
    })
}

/// Adds the names of the packs, behind a dash those that are not found.
fn push_marked(shown: &mut String, packs: &[Pack], found: &[bool]) -> Result<(), NoMemory> {
    shown.push_str(" packs")?;
    for (pack, is_found) in packs.iter().zip(found.iter()) {
        shown.push_str(if *is_found { " " } else { " -" })?;
        shown.push_str(pack.name.as_str())?;
    }
    Ok(())
}

fn push_found(
    alloc: Global,
    shown: &mut String,
    config: &Config,
    view: &GivenTables,
) -> Result<(), NoMemory> {
    let found = found_packs(alloc, config, view)?;
    push_marked(shown, config.packs.as_slice(), found.as_slice())
}

fn push_queries(shown: &mut String, queries: &[Scheduled]) -> Result<(), NoMemory> {
    shown.push_str("; queries")?;
    for query in queries {
        shown.push_str(" ")?;
        shown.push_str(query.key.name.as_str())?;
    }
    Ok(())
}

fn push_schedule(
    alloc: Global,
    shown: &mut String,
    config: &Config,
    host: &Host,
    view: &GivenTables,
) -> Result<(), NoMemory> {
    let schedule = schedule_for(alloc, config, host, view)?;
    push_queries(shown, schedule.queries.as_slice())
}

fn push_scheduled(
    alloc: Global,
    shown: &mut String,
    config: &Config,
    view: &GivenTables,
) -> Result<(), NoMemory> {
    let host = host(alloc)?;
    push_schedule(alloc, shown, config, &host, view)
}

fn push_configured(
    alloc: Global,
    shown: &mut String,
    config: &Config,
    view: &GivenTables,
) -> Result<(), NoMemory> {
    push_found(alloc, shown, config, view)?;
    push_scheduled(alloc, shown, config, view)
}

fn push_read(
    alloc: Global,
    shown: &mut String,
    document: &[u8],
    view: &GivenTables,
) -> Result<(), NoMemory> {
    match read_config(alloc, document) {
        Err(ConfigError::NoMemory) => Err(NoMemory),
        Err(_) => Ok(shown.push_str(" no configuration")?),
        Ok(config) => push_configured(alloc, shown, &config, view),
    }
}

/// Adds which packs of a configuration are found, and the queries that it schedules.
pub(crate) fn push_packs(
    alloc: Global,
    shown: &mut String,
    line: &Json,
    view: &GivenTables,
) -> Result<(), NoMemory> {
    match line.get("packs") {
        None => Ok(()),
        Some(document) => {
            let text = document.to_string(alloc)?;
            push_read(alloc, shown, text.as_bytes(), view)
        }
    }
}
