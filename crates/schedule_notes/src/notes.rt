//! The lines that tell of a configuration on a host.

ghost use Rattle.std.specs.Prelude.{◌≡◌, ◌++◌, length, flat_map, codes, IfOk, OnOk};
ghost use Rattle.std.specs.Fmt.{decimal};
ghost use Rattle.sql_texts.specs.TextFaults.{text_fault};
ghost use Rattle.schedule_notes.specs.Notes.{AreNotes, discovery_by, discovery_lines, line_of, refusal, refused_line, snapshot_line};

use crate::entries::{Judged, Outcome, judged_entries, scheduled};
use control_escapes::push_text;
use osq_config::{Config, Pack};
use osq_value::{Bytes, NoMemory, Str};
use pack_rules::schedule::Scheduled;
use pack_rules::{Host, rules_hold};
use sql_texts::text::{TextError, query_of_text};
use std::alloc::Global;

/// Adds a line that names something, and what is told of it. Control characters of the name are escaped.
fn push_line(notes: &mut Bytes, what: &str, name: &Str, told: &[u8]) -> Result<(), NoMemory>
    ensures { OnOk result (notes.new ≡ notes.old ++ line_of what.now name.now told.now) }
{
    notes.extend(what.as_bytes())?;
    push_text(notes, name.as_str().as_bytes())?;
    notes.extend(told)
}

/// Adds the place of a fault.
fn push_place(alloc: Global, notes: &mut Bytes, place: usize) -> Result<(), NoMemory>
    ensures { OnOk result (notes.new ≡ notes.old ++ codes " refused at " ++ decimal place) }
{
    let place = place.to_string(alloc)?;
    notes.extend(b" refused at ")?;
    notes.extend(place.as_bytes())
}

/// Adds the end of a line that tells of a text that isn't accepted.
fn push_refusal(alloc: Global, notes: &mut Bytes, error: &TextError) -> Result<(), NoMemory>
    ensures { OnOk result (notes.new ≡ notes.old ++ refusal error.now) }
{
    push_place(alloc, notes, error.place())?;
    notes.extend(b": ")?;
    notes.extend(error.name().as_bytes())?;
    notes.extend(b"\n")
}

/// Adds a line that tells of a text that isn't accepted, of what is named so.
fn push_refusal_line(
    alloc: Global,
    notes: &mut Bytes,
    what: &str,
    name: &Str,
    text: &str,
    error: &TextError,
) -> Result<(), NoMemory>
    ensures { OnOk result (notes.new ≡ notes.old ++ line_of what.now name.now (text.now ++ refusal error.now)) }
{
    push_line(notes, what, name, text.as_bytes())?;
    push_refusal(alloc, notes, error)
}

/// Adds a line where the entry's text isn't accepted.
fn push_refused(alloc: Global, notes: &mut Bytes, entry: &Judged) -> Result<(), NoMemory>
    ensures { OnOk result (notes.new ≡ notes.old ++ refused_line entry.now) }
{
    match entry.outcome {
        Outcome::Refused(error) => {
            push_refusal_line(alloc, notes, "osqd: query ", &entry.name, "", &error)
        }
        Outcome::AsConfigured => Ok(()),
        Outcome::AsSnapshot => Ok(()),
    }
}

/// Adds a line for each entry whose text isn't accepted.
fn push_all_refused(alloc: Global, notes: &mut Bytes, entries: &[Judged]) -> Result<(), NoMemory>
    ensures { OnOk result (notes.new ≡ notes.old ++ flat_map refused_line entries.now) }
{
    for entry in entries {
        push_refused(alloc, notes, entry)?;
    }
    Ok(())
}

/// Adds a line where a discovery text of the pack of this name isn't accepted.
fn push_discovery(alloc: Global, notes: &mut Bytes, pack: &Str, text: &Str) -> Result<(), NoMemory>
    ensures { OnOk result (notes.new ≡ notes.old ++ discovery_by pack.now (text_fault text.now)) }
{
    match query_of_text(alloc, text.as_str()) {
        Ok(_query) => Ok(()),
        Err(TextError::NoMemory) => Err(NoMemory),
        Err(error) => push_refusal_line(alloc, notes, "osqd: pack ", pack, " discovery", &error),
    }
}

/// Adds a line for each of these discovery texts that isn't accepted.
fn push_discovery_texts(
    alloc: Global,
    notes: &mut Bytes,
    pack: &Str,
    texts: &[Str],
) -> Result<(), NoMemory>
    ensures { OnOk result (notes.new ≡ notes.old ++ flat_map (λ text. discovery_by pack.now (text_fault text)) texts.now) }
{
    for text in texts {
        push_discovery(alloc, notes, pack, text)?;
    }
    Ok(())
}

/// Adds a line for each discovery text of a pack that isn't accepted, where the pack's rules hold.
fn push_pack_discovery(
    alloc: Global,
    notes: &mut Bytes,
    host: &Host,
    pack: &Pack,
) -> Result<(), NoMemory>
    ensures { OnOk result (notes.new ≡ notes.old ++ discovery_lines host.now pack.now) }
{
    if !rules_hold(host, &pack.rules) {
        return Ok(());
    }
    push_discovery_texts(alloc, notes, &pack.name, pack.discovery.as_slice())
}

/// Adds a line for each discovery text that isn't accepted, of the packs whose rules hold.
fn push_all_discovery(
    alloc: Global,
    notes: &mut Bytes,
    host: &Host,
    packs: &[Pack],
) -> Result<(), NoMemory>
    ensures { OnOk result (notes.new ≡ notes.old ++ flat_map (discovery_lines host.now) packs.now) }
{
    for pack in packs {
        push_pack_discovery(alloc, notes, host, pack)?;
    }
    Ok(())
}

/// Adds a line where the entry runs as a snapshot, though it isn't marked so.
fn push_snapshot(notes: &mut Bytes, entry: &Judged) -> Result<(), NoMemory>
    ensures { OnOk result (notes.new ≡ notes.old ++ snapshot_line entry.now) }
{
    match entry.outcome {
        Outcome::Refused(_) => Ok(()),
        Outcome::AsConfigured => Ok(()),
        Outcome::AsSnapshot => push_line(
            notes,
            "osqd: query ",
            &entry.name,
            b" runs as a snapshot\n",
        ),
    }
}

/// Adds a line for each entry that runs as a snapshot, though it isn't marked so.
fn push_snapshots(notes: &mut Bytes, entries: &[Judged]) -> Result<(), NoMemory>
    ensures { OnOk result (notes.new ≡ notes.old ++ flat_map snapshot_line entries.now) }
{
    for entry in entries {
        push_snapshot(notes, entry)?;
    }
    Ok(())
}

/// The lines that tell of a configuration on a host, where `found` says of each pack whether its discovery found something: one for each entry
/// whose rules hold and whose text isn't accepted, of the schedule or of an active pack; one for each discovery text that isn't accepted, of a
/// pack whose rules hold; the lines `left_out`, which tell of packs that are left out; and one for each scheduled query that has no evented
/// table and isn't marked as a snapshot. Each kind stands in byte order of names. `queries` are those of a schedule, by name: what the lines tell
/// doesn't rest on them, but a text that was accepted for one of them isn't read again.
///
/// ```
/// // a schedule {"q": {"query": "SELECT x FROM users"}}, and no pack
/// schedule_notes(alloc, &config, &host, &[], &[], b"")?
/// // b"osqd: query q refused at 7: NoColumn\n"
/// ```
pub fn schedule_notes(
    alloc: Global,
    config: &Config,
    host: &Host,
    found: &[bool],
    queries: &[Scheduled],
    left_out: &[u8],
) -> Result<Bytes, NoMemory>
    requires { length found.now ≡ length config.now.packs }
    ensures { IfOk result (AreNotes config.now host.now found.now left_out.now) }
{
    let entries = judged_entries(alloc, config, host, found, queries)?;
    let mut notes = Bytes::new(alloc);
    push_all_refused(alloc, &mut notes, entries.as_slice())?;
    push_all_discovery(alloc, &mut notes, host, config.packs.as_slice())?;
    notes.extend(left_out)?;
    let entries = scheduled(entries);
    push_snapshots(&mut notes, entries.as_slice())?;
    Ok(notes)
}
