//! The command `check`: the schedule that a configuration gives a host.

ghost use Rattle.std.specs.Prelude.{◌≡◌, ℕ, ◌∷◌, [], true, map, length, IfOk};
ghost use Rattle.osq_config.specs.declared.config.Pack.{Pack};
ghost use Rattle.osq_program.specs.Answers.{IsUsageStatus};
ghost use Rattle.osq_program.specs.Checking.{IsCheck, IsListing, all_found, checked_host};
ghost use Rattle.osq_program.specs.Telling.{TellsCheck};
ghost use Rattle.schedule_notes.specs.Notes.{AreNotes};

use crate::configuration::configured;
use crate::outside::{Observes, Outside};
use crate::schedule_lines::lines_of;
use crate::setup::host_of;
use crate::status::Status;
use crate::stop::{refuse, refuse_unconfigured, starve};
use batch_forwarder::Link;
use batch_keeper::Keeper;
use config_files::Configured;
use osq_config::{Config, Pack};
use osq_outside::{Clock, Files, Sink, Source, write_all};
use osq_value::{Bytes, NoMemory};
use pack_rules::{Host, schedule_of};
use program_words::CheckWords;
use schedule_notes::schedule_notes;
use std::alloc::Global;

/// One truth value for each pack: every pack counts as found.
fn all_found(alloc: Global, packs: &[Pack]) -> Result<Vec<bool>, NoMemory>
    ensures { IfOk result (λ found. found.items ≡ map (λ (pack : Pack). true) packs.now) }
{
    let mut found = Vec::new(alloc);
    for _pack in packs {
        found.push(true)?;
    }
    Ok(found)
}

/// What is written of a configuration that is checked.
#[derive(Drop)]
struct Checked {
    /// The lines of the schedule that it gives the host.
    lines: Bytes,
    /// What a session of that host would tell of it, where every pack is found.
    notes: Bytes,
}

/// What is written of a configuration on a host, with lines of packs that are left out.
fn texts_for(
    alloc: Global,
    config: &Config,
    host: &Host,
    found: &[bool],
    left_out: &[u8],
) -> Result<Checked, NoMemory>
    requires { length found.now ≡ length config.now.packs }
    ensures lines { IfOk result (λ checked. IsListing config.now host.now found.now checked.lines) }
    ensures notes { IfOk result (λ checked. AreNotes config.now host.now found.now left_out.now checked.notes) }
{
    let schedule = schedule_of(alloc, config, host, found)?;
    let queries = schedule.queries.as_slice();
    let lines = lines_of(alloc, queries)?;
    let notes = schedule_notes(alloc, config, host, found, queries, left_out)?;
    Ok(Checked { lines, notes })
}

/// What is written of a configuration.
fn texts_of(alloc: Global, configured: &Configured, words: &CheckWords) -> Result<Checked, NoMemory>
    ensures lines { IfOk result (λ checked. IsListing configured.now.config (checked_host words.now) (all_found configured.now.config) checked.lines) }
    ensures notes { IfOk result (λ checked. AreNotes configured.now.config (checked_host words.now) (all_found configured.now.config) configured.now.notes checked.notes) }
{
    let config = &configured.config;
    let host = host_of(alloc, &words.host, &words.platform, &words.agent)?;
    let found = all_found(alloc, config.packs.as_slice())?;
    let found = found.as_slice();
    let checked = texts_for(alloc, config, &host, found, configured.notes.as_slice())?;
    Ok(checked)
}

/// Writes the schedule of the configuration, and tells on the status stream what a session would tell of the configuration, or why nothing is
/// written.
pub(crate) fn run_check<S: Source, O: Sink, F: Files, C: Clock, K: Keeper, L: Link>(
    alloc: Global,
    words: &CheckWords,
    outside: &mut Outside<S, O, F, C, K, L>,
) -> Status
    ensures usage { ¬ IsUsageStatus result }
    ensures link { outside.new.link ≡ outside.old.link }
    ensures ledger { outside.new.ledger ≡ outside.old.ledger }
    ensures sources { outside.new.sources ≡ outside.old.sources }
    ensures clock { outside.new.clock ≡ outside.old.clock }
    ensures keeper { outside.new.keeper ≡ outside.old.keeper }
    ensures does { IsCheck (words.now) (⟦<Outside<S, O, F, C, K, L> as Observes>⟧.observed outside.old outside.new) result }
    ensures told { TellsCheck words.now (⟦<Outside<S, O, F, C, K, L> as Observes>⟧.observed outside.old outside.new) result }
{
    let made = match configured(alloc, &mut outside.files, &words.config) {
        Ok(made) => made,
        Err(refused) => return refuse_unconfigured(alloc, &mut outside.status, refused),
    };
    let Ok(checked) = texts_of(alloc, &made, words) else {
        return starve(&mut outside.status);
    };
    match write_all(&mut outside.status, checked.notes.as_slice()) {
        Ok(()) => {}
        Err(_) => return Status::SinkFault,
    }
    match write_all(&mut outside.results, checked.lines.as_slice()) {
        Ok(()) => Status::Ok,
        Err(_) => refuse(alloc, &mut outside.status, Status::SinkFault),
    }
}
