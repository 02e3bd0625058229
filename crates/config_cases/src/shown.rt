//! Configurations as text.

use config_files::{key_of, kind_of};
use osq_config::{Config, ConfigError, Pack, QueryEntry, QueryEntryList, Rules, pack_files};
use osq_value::{Category, NoMemory, TextList};
use std::alloc::Global;

/// The most queries of a list that are printed.
const MOST: usize = 8;

/// Adds the kind of a refusal, and the key that it names.
pub(crate) fn push_refusal(text: &mut String, error: &ConfigError) -> Result<(), NoMemory> {
    let key = key_of(error);
    text.push_str(kind_of(error))?;
    if !key.is_empty() {
        write!(text, " {key}")?;
    }
    text.push_str("\n")?;
    Ok(())
}

/// Adds the rules that don't hold everywhere.
fn push_rules(text: &mut String, rules: &Rules) -> Result<(), NoMemory> {
    let (platform, version) = (rules.platform.as_str(), rules.version.as_str());
    if !platform.is_empty() {
        write!(text, " on '{platform}'")?;
    }
    if !version.is_empty() {
        write!(text, " from '{version}'")?;
    }
    if rules.shard != 100 {
        write!(text, " shard {}", rules.shard)?;
    }
    Ok(())
}

/// Adds a query as its name, its seconds and its text.
fn push_query(text: &mut String, entry: &QueryEntry) -> Result<(), NoMemory> {
    let (name, query) = (entry.name.as_str(), entry.text.as_str());
    write!(text, "query {name}/{} '{query}'", entry.interval)?;
    if entry.is_snapshot {
        text.push_str(" snapshot")?;
    }
    push_rules(text, &entry.rules)?;
    text.push_str("\n")?;
    Ok(())
}

/// Adds a line for each query behind a margin, or for the first of many.
fn push_queries(text: &mut String, margin: &str, queries: &QueryEntryList) -> Result<(), NoMemory> {
    for entry in queries.as_slice().iter().take(MOST) {
        text.push_str(margin)?;
        push_query(text, entry)?;
    }
    if MOST < queries.len() {
        writeln!(text, "{margin}and {} more", queries.len() - MOST)?;
    }
    Ok(())
}

fn push_texts(text: &mut String, texts: &TextList) -> Result<(), NoMemory> {
    for item in texts.as_slice() {
        write!(text, " '{}'", item.as_str())?;
    }
    Ok(())
}

/// Adds a line for a pack, and one for each of its queries.
fn push_pack(text: &mut String, pack: &Pack) -> Result<(), NoMemory> {
    write!(text, "pack {}", pack.name.as_str())?;
    if let Some(path) = &pack.path {
        write!(text, " {}", path.as_str())?;
    }
    push_rules(text, &pack.rules)?;
    if !pack.discovery.as_slice().is_empty() {
        text.push_str(" where")?;
        push_texts(text, &pack.discovery)?;
    }
    text.push_str("\n")?;
    push_queries(text, "  ", &pack.queries)
}

fn push_category(text: &mut String, category: &Category) -> Result<(), NoMemory> {
    write!(text, "category {}", category.name.as_str())?;
    push_texts(text, &category.patterns)?;
    if !category.excluded.as_slice().is_empty() {
        text.push_str(" but")?;
        push_texts(text, &category.excluded)?;
    }
    text.push_str("\n")?;
    Ok(())
}

/// Adds a line for the paths of packs, where there are any.
fn push_paths(alloc: Global, text: &mut String, config: &Config) -> Result<(), NoMemory> {
    let files = pack_files(alloc, config)?;
    if files.as_slice().is_empty() {
        return Ok(());
    }
    text.push_str("files")?;
    for file in files.as_slice() {
        write!(text, " {} {}", file.name.as_str(), file.path.as_str())?;
    }
    text.push_str("\n")?;
    Ok(())
}

/// Adds a line for each pack and each category.
fn push_lists(text: &mut String, config: &Config) -> Result<(), NoMemory> {
    for pack in config.packs.as_slice() {
        push_pack(text, pack)?;
    }
    for category in config.categories.as_slice() {
        push_category(text, category)?;
    }
    Ok(())
}

/// Adds what a configuration says.
pub(crate) fn push_config(
    alloc: Global,
    text: &mut String,
    config: &Config,
) -> Result<(), NoMemory> {
    let form = if config.is_batch_form {
        "batch"
    } else {
        "event"
    };
    writeln!(
        text,
        "{} {} {form}",
        config.events_expiry, config.events_max
    )?;
    push_queries(text, "", &config.schedule)?;
    push_lists(text, config)?;
    push_paths(alloc, text, config)
}
