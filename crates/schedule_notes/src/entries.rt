//! The entries of a configuration that a host is to run, and what becomes of each.

ghost use Rattle.std.specs.Prelude.{◌≡◌, ◌∷◌, [], ◌++◌, length, filter, Some, None, IfOk, IfSome, OnOk};
ghost use Rattle.std.specs.List.{dedup};
ghost use Rattle.sql_query.specs.Resolved.{query_of};
ghost use Rattle.sql_texts.specs.TextFaults.{text_fault};
ghost use Rattle.sql_texts.specs.Texts.{query_in};
ghost use Rattle.pack_rules.specs.Offers.{name_in_pack};
ghost use Rattle.schedule_notes.specs.Listed.{IsInOrder, all_pack_judged, judged, judged_as, judged_in_pack, outcome_by, outcome_of, own_judged, pack_judged};
ghost use Rattle.schedule_notes.specs.Notes.{has_same_name, is_taken};

use osq_config::{Config, Pack, QueryEntry};
use osq_value::{Copied, NoMemory, Sequence, Str};
use pack_rules::schedule::Scheduled;
use pack_rules::{Host, rules_hold};
use sql_query::answers::is_evented;
use sql_query::query::Query;
use sql_texts::AcceptedQuery;
use sql_texts::text::{TextError, query_of_text};
use std::alloc::Global;

/// What becomes of an entry whose rules hold.
#[derive(Clone, Copy)]
pub enum Outcome {
    /// Its text isn't accepted, and not for want of memory.
    Refused(TextError),
    /// It runs as it is configured.
    AsConfigured,
    /// It has no evented table and runs as a snapshot, though it isn't marked so.
    AsSnapshot,
}

/// An entry whose rules hold, by the name under which it is scheduled.
#[derive(Drop)]
pub struct Judged {
    /// The name in the schedule, with the pack's name before it where it is an entry of a pack.
    pub name: Str,
    /// What becomes of it.
    pub outcome: Outcome,
}

/// Entries whose rules hold.
pub(crate) type JudgedList = Sequence<Judged>;

impl Judged {
    /// Its text is accepted.
    pub(crate) fn is_taken(&self) -> bool
        ensures { result ≡ is_taken self.now }
    {
        match self.outcome {
            Outcome::Refused(_) => false,
            Outcome::AsConfigured => true,
            Outcome::AsSnapshot => true,
        }
    }
}

fn outcome_by(is_configured: bool) -> Outcome
    ensures { result ≡ outcome_by is_configured }
{
    if is_configured {
        Outcome::AsConfigured
    } else {
        Outcome::AsSnapshot
    }
}

/// The place of the first query whose name isn't before this one, of queries in byte order of their names.
fn place_of(scheduled: &[Scheduled], name: &Str) -> usize {
    let (mut low, mut high) = (0, scheduled.len());
    while low < high {
        let middle = low + (high - low) / 2;
        let found = scheduled[middle].key.name.as_str().as_bytes();
        if found.cmp(name.as_str().as_bytes()).is_lt() {
            low = middle + 1;
        } else {
            high = middle;
        }
    }
    low
}

/// What was made of this text when it was scheduled under this name. Of queries that stand in another order some may be missed.
fn scheduled_text<'a>(
    scheduled: &'a [Scheduled],
    name: &Str,
    text: &Str,
) -> Option<&'a AcceptedQuery>
    ensures { IfSome result (λ query. query.now ≡ text.now) }
{
    let found = scheduled.get(place_of(scheduled, name))?.key.text.query()?;
    if found.as_str().as_bytes() == text.as_str().as_bytes() {
        Some(found)
    } else {
        None
    }
}

/// The query that this text asks for, where it was accepted when it was scheduled under this name.
fn scheduled_query<'a>(scheduled: &'a [Scheduled], name: &Str, text: &Str) -> Option<&'a Query>
    ensures asks { IfSome result (λ query. query_in text.now ≡ Some (query_of query.now)) }
    ensures sound { IfSome result (λ query. text_fault text.now ≡ None) }
{
    match scheduled_text(scheduled, name, text) {
        Some(found) => Some(found.query()),
        None => None,
    }
}

/// What becomes of an entry whose rules hold, and whose text is to be read.
fn outcome_of(alloc: Global, entry: &QueryEntry) -> Result<Outcome, NoMemory>
    ensures { IfOk result (λ outcome. outcome ≡ outcome_of entry.now) }
{
    match query_of_text(alloc, entry.text.as_str()) {
        Ok(query) => Ok(outcome_by(entry.is_snapshot || is_evented(&query))),
        Err(TextError::NoMemory) => Err(NoMemory),
        Err(error) => Ok(Outcome::Refused(error)),
    }
}

/// What becomes of an entry whose rules hold. A text that the schedule has under this name was accepted before, and isn't read again.
fn outcome_under(
    alloc: Global,
    name: &Str,
    entry: &QueryEntry,
    scheduled: &[Scheduled],
) -> Result<Outcome, NoMemory>
    ensures { IfOk result (λ outcome. outcome ≡ outcome_of entry.now) }
{
    match scheduled_query(scheduled, name, &entry.text) {
        Some(query) => Ok(outcome_by(entry.is_snapshot || is_evented(query))),
        None => outcome_of(alloc, entry),
    }
}

/// The name of a pack's entry.
fn name_in_pack(alloc: Global, pack: &str, key: &str) -> Result<Str, NoMemory>
    ensures { IfOk result (λ name. name ≡ name_in_pack pack.now key.now) }
{
    Ok(Str::from_string(format!(in alloc; "pack_{pack}_{key}")?))
}

/// Adds an entry under this name.
fn push_named(
    alloc: Global,
    judged: &mut JudgedList,
    name: Str,
    entry: &QueryEntry,
    scheduled: &[Scheduled],
) -> Result<(), NoMemory>
    ensures { OnOk result (judged.new ≡ judged.old ++ record { name = name; outcome = outcome_of entry.now } ∷ []) }
{
    let outcome = outcome_under(alloc, &name, entry, scheduled)?;
    judged.push(Judged { name, outcome })
}

/// Adds an entry of the schedule, where its rules hold.
fn push_own(
    alloc: Global,
    judged: &mut JudgedList,
    host: &Host,
    entry: &QueryEntry,
    scheduled: &[Scheduled],
) -> Result<(), NoMemory>
    ensures { OnOk result (judged.new ≡ judged.old ++ judged_as host.now entry.now.name entry.now) }
{
    if !rules_hold(host, &entry.rules) {
        return Ok(());
    }
    let name = entry.name.copy(alloc)?;
    push_named(alloc, judged, name, entry, scheduled)
}

/// Adds an entry of a pack, where its rules hold.
fn push_packed(
    alloc: Global,
    judged: &mut JudgedList,
    host: &Host,
    pack: &Str,
    entry: &QueryEntry,
    scheduled: &[Scheduled],
) -> Result<(), NoMemory>
    ensures { OnOk result (judged.new ≡ judged.old ++ judged_as host.now (name_in_pack pack.now entry.now.name) entry.now) }
{
    if !rules_hold(host, &entry.rules) {
        return Ok(());
    }
    let name = name_in_pack(alloc, pack.as_str(), entry.name.as_str())?;
    push_named(alloc, judged, name, entry, scheduled)
}

fn push_schedule(
    alloc: Global,
    judged: &mut JudgedList,
    host: &Host,
    entries: &[QueryEntry],
    scheduled: &[Scheduled],
) -> Result<(), NoMemory>
    ensures { OnOk result (judged.new ≡ judged.old ++ own_judged host.now entries.now) }
{
    for entry in entries {
        push_own(alloc, judged, host, entry, scheduled)?;
    }
    Ok(())
}

fn push_entries(
    alloc: Global,
    judged: &mut JudgedList,
    host: &Host,
    pack: &Str,
    entries: &[QueryEntry],
    scheduled: &[Scheduled],
) -> Result<(), NoMemory>
    ensures { OnOk result (judged.new ≡ judged.old ++ judged_in_pack host.now pack.now entries.now) }
{
    for entry in entries {
        push_packed(alloc, judged, host, pack, entry, scheduled)?;
    }
    Ok(())
}

/// Adds the entries of a pack, where it is active.
fn push_pack(
    alloc: Global,
    judged: &mut JudgedList,
    host: &Host,
    pack: &Pack,
    is_found: bool,
    scheduled: &[Scheduled],
) -> Result<(), NoMemory>
    ensures { OnOk result (judged.new ≡ judged.old ++ pack_judged host.now pack.now is_found) }
{
    if is_found && rules_hold(host, &pack.rules) {
        push_entries(
            alloc,
            judged,
            host,
            &pack.name,
            pack.queries.as_slice(),
            scheduled,
        )
    } else {
        Ok(())
    }
}

fn push_packs(
    alloc: Global,
    judged: &mut JudgedList,
    host: &Host,
    packs: &[Pack],
    found: &[bool],
    scheduled: &[Scheduled],
) -> Result<(), NoMemory>
    requires { length found.now ≡ length packs.now }
    ensures { OnOk result (judged.new ≡ judged.old ++ all_pack_judged host.now packs.now found.now) }
{
    for at in 0..packs.len() {
        push_pack(alloc, judged, host, &packs[at], found[at], scheduled)?;
    }
    Ok(())
}

/// The entries in byte order of their names, those of one name as they stood. They are moved.
fn by_name(judged: JudgedList) -> Result<JudgedList, NoMemory>
    ensures { IfOk result (IsInOrder judged) }
{
    let mut entries = judged.into_vec();
    entries.sort_by(|left, right| {
        left.name
            .as_str()
            .as_bytes()
            .cmp(right.name.as_str().as_bytes())
    })?;
    Ok(JudgedList::from_vec(entries))
}

/// The entries whose rules hold, of the schedule and of active packs, in byte order of their names. Those of one name stand as they are
/// offered: that of the schedule first, then those of the packs in their order. Texts of these scheduled queries aren't read again.
pub(crate) fn judged_entries(
    alloc: Global,
    config: &Config,
    host: &Host,
    found: &[bool],
    scheduled: &[Scheduled],
) -> Result<JudgedList, NoMemory>
    requires { length found.now ≡ length config.now.packs }
    ensures { IfOk result (IsInOrder (judged config.now host.now found.now)) }
{
    let mut judged = JudgedList::new(alloc);
    push_schedule(
        alloc,
        &mut judged,
        host,
        config.schedule.as_slice(),
        scheduled,
    )?;
    push_packs(
        alloc,
        &mut judged,
        host,
        config.packs.as_slice(),
        found,
        scheduled,
    )?;
    by_name(judged)
}

/// Of these entries those that are scheduled: each whose text is accepted, and of those of one name that stand together the first.
pub(crate) fn scheduled(judged: JudgedList) -> JudgedList
    ensures { result ≡ dedup has_same_name (filter is_taken judged) }
{
    let mut entries = judged.into_vec();
    entries.retain(|entry| entry.is_taken());
    entries.dedup_by(|later, earlier| later.name.is(&earlier.name));
    JudgedList::from_vec(entries)
}
