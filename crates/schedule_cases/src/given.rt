//! Hosts and rules that rows give.

use case_text::items_of;
use osq_config::Rules;
use osq_value::{NoMemory, Str};
use pack_rules::Host;
use serde_json::Value as Json;
use std::alloc::Global;

/// The text of a member, where there is one.
fn text_or(
    alloc: Global,
    item: Option<&Json>,
    name: &str,
    otherwise: &str,
) -> Result<Str, NoMemory> {
    match item.and_then(|held| held.get(name)).and_then(Json::as_str) {
        Some(text) => Str::of(alloc, text),
        None => Str::of(alloc, otherwise),
    }
}

/// The host of a row.
pub(crate) fn host_of(alloc: Global, row: &Json) -> Result<Host, NoMemory> {
    let host = row.get("host");
    Ok(Host {
        identifier: text_or(alloc, host, "identifier", "abc")?,
        platform: text_or(alloc, host, "platform", "linux")?,
        agent: text_or(alloc, host, "agent", "5.10.0")?,
    })
}

/// The rules of a row.
pub(crate) fn rules_of(alloc: Global, row: &Json) -> Result<Rules, NoMemory> {
    let rules = row.get("rules");
    let shard = rules
        .and_then(|held| held.get("shard"))
        .and_then(Json::as_u64);
    Ok(Rules {
        platform: text_or(alloc, rules, "platform", "")?,
        version: text_or(alloc, rules, "version", "")?,
        shard: shard.unwrap_or(100),
    })
}

/// The truth values of the row's `found`; others are passed over.
pub(crate) fn found_of(alloc: Global, row: &Json) -> Result<Vec<bool>, NoMemory> {
    let mut found = Vec::new(alloc);
    for word in items_of(row.get("found")).iter().filter_map(Json::as_bool) {
        found.push(word)?;
    }
    Ok(found)
}
