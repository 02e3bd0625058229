//! Reads a configuration.

ghost use Rattle.std.specs.Prelude.{◌≡◌, ◌+◌, ◌≤◌, IfOk, nat_lt};
ghost use Rattle.serde_json.specs.View.{view};
ghost use Rattle.osq_config.specs.Bounds.{IsBounded};
ghost use Rattle.osq_config.specs.Counts.{fault_of_config, query_count};
ghost use Rattle.osq_config.specs.Names.{NamesRise};
ghost use Rattle.osq_config.specs.Reads.{Answers, Reads};
ghost use Rattle.osq_config.specs.Values.{config_of};

use crate::category::{categories_of, check_excluded};
use crate::config::{Config, PackList, QueryEntryList};
use crate::document::parse;
use crate::entry::entries_at;
use crate::error::ConfigError;
use crate::field::check_object;
use crate::option::Options;
use crate::pack::packs_of;
use serde_json::Value as Json;
use std::alloc::Global;

/// The most queries that a schedule and its packs may hold together.
pub const QUERIES: usize = 10000;

/// Reads a configuration: a JSON object in UTF-8. Before it is read, each backslash that ends a line is left out with the line feed, and
/// then each line that begins, behind spaces and tabs, with `//` or `#`. The first fault is answered, in byte order of the keys at each
/// level and an object before its members; the number of queries is tried last. The numbers of what is read lie between their bounds.
///
/// The errors: NotJson where the document isn't UTF-8, or is no JSON (RFC 8259) behind these steps; WrongShape with the path of a key
/// whose value has another kind, or that is missing; OutOfRange with the path of a key whose number or word isn't allowed;
/// TooManyQueries for more than 10000 queries. The keys are those of osquery; docs/CONFIGURATION.md says where their meaning differs.
/// The names of what is read rise by their bytes, so no name stands twice in a list.
///
/// ```
/// let config = read_config(alloc, b"{\"schedule\": {\"who\": {\"query\": \"SELECT uid FROM users\", \"interval\": 60}}}")?;
/// config.events_expiry      // 3600: seconds
/// config.schedule.len()     // 1: the entry `who`, each 60 seconds
/// read_config(alloc, b"{\"schedule\": {\"who\": {\"query\": \"x\", \"interval\": 0}}}")
/// // Err(ConfigError::OutOfRange { key }), where the key is `schedule.who.interval`
/// ```
pub fn read_config(alloc: Global, document: &[u8]) -> Result<Config, ConfigError>
    ensures answer { Answers fault_of_config config_of document.now result }
    ensures bounded { IfOk result IsBounded }
    ensures named { IfOk result NamesRise }
{
    let json = parse(alloc, document)?;
    config(alloc, &json)
}

#[tactic(auto, unfolding(crate::specs::Counts::fault_of_config, crate::specs::Values::config_of))]
fn config(alloc: Global, document: &Json) -> Result<Config, ConfigError>
    ensures { Reads (fault_of_config (view document.now)) (config_of (view document.now)) result }
{
    check_object(alloc, "", document)?;
    check_excluded(alloc, document)?;
    let categories = categories_of(alloc, document)?;
    let options = Options::of(alloc, document)?;
    let packs = packs_of(alloc, document)?;
    let schedule = entries_at(alloc, "", document, "schedule")?;
    if QUERIES < held_queries(&schedule, &packs) {
        return Err(ConfigError::TooManyQueries);
    }
    Ok(Config {
        events_expiry: options.events_expiry,
        events_max: options.events_max,
        is_batch_form: options.is_batch_form,
        schedule,
        packs,
        categories,
    })
}

/// The number of queries that a schedule and packs hold together; where they are more than 10000, some number above 10000.
pub fn held_queries(schedule: &QueryEntryList, packs: &PackList) -> usize
    ensures exact { query_count schedule.now packs.now ≤ 10000 → result ≡ query_count schedule.now packs.now }
    ensures over { nat_lt 10000 result ≡ nat_lt 10000 (query_count schedule.now packs.now) }
{
    let mut count = schedule.len();
    for pack in packs.as_slice() {
        let added = pack.queries.len();
        if exceeds(count, added) {
            return QUERIES + 1;
        }
        count += added;
    }
    count
}

/// Whether so many queries and those that are added are more than 10000.
pub fn exceeds(count: usize, added: usize) -> bool
    ensures { result ≡ nat_lt 10000 (count + added) }
{
    QUERIES < count || QUERIES - count < added
}
