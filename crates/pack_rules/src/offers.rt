//! What a configuration offers a host.

ghost use Rattle.std.specs.Prelude.{◌≡◌, ◌++◌, length, Some, option_map, IfOk, IfSome, OnOk};
ghost use Rattle.sql_texts.specs.Texts.{query_in};
ghost use Rattle.pack_rules.specs.Offers.{all_pack_queries, entries_in_pack, mode_in, mode_of, name_in_pack, named, offered, own_queries, own_query, pack_queries, pack_query, taken_mode};

use crate::host::Host;
use crate::rules::rules_hold;
use crate::schedule::{Mode, QueryKey, Scheduled, ScheduledList};
use osq_config::{Config, Pack, QueryEntry, QueryEntryList};
use osq_value::{Copied, NoMemory, Str};
use sql_query::answers::is_evented;
use sql_texts::text::TextError;
use sql_texts::{AcceptedQuery, QueryText};
use std::alloc::Global;

/// The text of an entry that is taken, and the mode in which it runs.
#[derive(Drop)]
struct Taken {
    text: QueryText,
    mode: Mode,
}

fn mode_of(is_snapshot: bool, is_evented: bool) -> Mode
    ensures { result ≡ mode_of is_snapshot is_evented }
{
    if !is_snapshot && is_evented {
        Mode::Evented
    } else {
        Mode::Snapshot
    }
}

/// An accepted text, with the mode of its entry.
fn taken_with(alloc: Global, entry: &QueryEntry, query: AcceptedQuery) -> Result<Taken, NoMemory>
    requires { query ≡ entry.now.text }
    ensures mode { IfOk result (λ taken. Some taken.mode ≡ mode_in entry.now.is_snapshot (query_in entry.now.text)) }
    ensures text { IfOk result (λ taken. taken.text ≡ entry.now.text) }
{
    let mode = mode_of(entry.is_snapshot, is_evented(query.query()));
    Ok(Taken {
        text: QueryText::accepted(alloc, query)?,
        mode,
    })
}

/// The text and the mode of an entry whose text is accepted.
fn accepted(alloc: Global, entry: &QueryEntry) -> Result<Option<Taken>, NoMemory>
    ensures mode { IfOk result (λ found. option_map (λ taken. taken.mode) found ≡ mode_in entry.now.is_snapshot (query_in entry.now.text)) }
    ensures text { IfOk result (λ found. IfSome found (λ taken. taken.text ≡ entry.now.text)) }
{
    match AcceptedQuery::of(alloc, entry.text.as_str()) {
        Ok(query) => Ok(Some(taken_with(alloc, entry, query)?)),
        Err(TextError::NoMemory) => Err(NoMemory),
        Err(TextError::Parse(_)) => Ok(None),
        Err(TextError::Name(_)) => Ok(None),
    }
}

/// The text and the mode of an entry whose rules hold and whose text is accepted.
fn taken_of(alloc: Global, host: &Host, entry: &QueryEntry) -> Result<Option<Taken>, NoMemory>
    ensures mode { IfOk result (λ found. option_map (λ taken. taken.mode) found ≡ taken_mode host.now entry.now) }
    ensures text { IfOk result (λ found. IfSome found (λ taken. taken.text ≡ entry.now.text)) }
{
    if rules_hold(host, &entry.rules) {
        accepted(alloc, entry)
    } else {
        Ok(None)
    }
}

/// The name of a pack's entry.
fn name_in_pack(alloc: Global, pack: &str, key: &str) -> Result<Str, NoMemory>
    ensures { IfOk result (λ name. name ≡ name_in_pack pack.now key.now) }
{
    let mut name = String::from_str(alloc, "pack_")?;
    name.push_str(pack)?;
    name.push_str("_")?;
    name.push_str(key)?;
    Ok(Str::from_string(name))
}

/// Adds the query of a taken entry under a name.
fn push_named(
    offers: &mut ScheduledList,
    name: Str,
    entry: &QueryEntry,
    taken: Taken,
) -> Result<(), NoMemory>
    requires { taken.text ≡ entry.now.text }
    ensures { OnOk result (offers.new ≡ offers.old ++ named name entry.now (Some taken.mode)) }
{
    let key = QueryKey {
        name,
        text: taken.text,
        mode: taken.mode,
    };
    offers.push(Scheduled {
        key,
        interval: entry.interval,
    })
}

/// Adds the query of an entry of the schedule, where the entry is taken.
fn push_own(
    alloc: Global,
    offers: &mut ScheduledList,
    host: &Host,
    entry: &QueryEntry,
) -> Result<(), NoMemory>
    ensures { OnOk result (offers.new ≡ offers.old ++ own_query host.now entry.now) }
{
    match taken_of(alloc, host, entry)? {
        None => Ok(()),
        Some(taken) => {
            let name = entry.name.copy(alloc)?;
            push_named(offers, name, entry, taken)
        }
    }
}

/// Adds the query of a pack's entry, where the entry is taken.
fn push_packed(
    alloc: Global,
    offers: &mut ScheduledList,
    host: &Host,
    pack: &Str,
    entry: &QueryEntry,
) -> Result<(), NoMemory>
    ensures { OnOk result (offers.new ≡ offers.old ++ pack_query host.now pack.now entry.now) }
{
    match taken_of(alloc, host, entry)? {
        None => Ok(()),
        Some(taken) => {
            let name = name_in_pack(alloc, pack.as_str(), entry.name.as_str())?;
            push_named(offers, name, entry, taken)
        }
    }
}

fn push_schedule(
    alloc: Global,
    offers: &mut ScheduledList,
    host: &Host,
    entries: &QueryEntryList,
) -> Result<(), NoMemory>
    ensures { OnOk result (offers.new ≡ offers.old ++ own_queries host.now entries.now) }
{
    for entry in entries.as_slice() {
        push_own(alloc, offers, host, entry)?;
    }
    Ok(())
}

fn push_entries(
    alloc: Global,
    offers: &mut ScheduledList,
    host: &Host,
    pack: &Str,
    entries: &QueryEntryList,
) -> Result<(), NoMemory>
    ensures { OnOk result (offers.new ≡ offers.old ++ entries_in_pack host.now pack.now entries.now) }
{
    for entry in entries.as_slice() {
        push_packed(alloc, offers, host, pack, entry)?;
    }
    Ok(())
}

/// Adds the queries of a pack, where it is active.
fn push_pack(
    alloc: Global,
    offers: &mut ScheduledList,
    host: &Host,
    pack: &Pack,
    is_found: bool,
) -> Result<(), NoMemory>
    ensures { OnOk result (offers.new ≡ offers.old ++ pack_queries host.now pack.now is_found) }
{
    if is_found && rules_hold(host, &pack.rules) {
        push_entries(alloc, offers, host, &pack.name, &pack.queries)
    } else {
        Ok(())
    }
}

fn push_packs(
    alloc: Global,
    offers: &mut ScheduledList,
    host: &Host,
    packs: &[Pack],
    found: &[bool],
) -> Result<(), NoMemory>
    requires { length found.now ≡ length packs.now }
    ensures { OnOk result (offers.new ≡ offers.old ++ all_pack_queries host.now packs.now found.now) }
{
    for at in 0..packs.len() {
        push_pack(alloc, offers, host, &packs[at], found[at])?;
    }
    Ok(())
}

/// The queries of taken entries, those of the schedule before those of the packs.
pub fn offers_of(
    alloc: Global,
    config: &Config,
    host: &Host,
    found: &[bool],
) -> Result<ScheduledList, NoMemory>
    requires { length found.now ≡ length config.now.packs }
    ensures { IfOk result (λ offers. offers ≡ offered config.now host.now found.now) }
{
    let mut offers = ScheduledList::new(alloc);
    push_schedule(alloc, &mut offers, host, &config.schedule)?;
    push_packs(alloc, &mut offers, host, config.packs.as_slice(), found)?;
    Ok(offers)
}
