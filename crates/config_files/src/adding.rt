//! Adds the packs that stand in files of their own, in one walk over all packs.

ghost use Rattle.std.specs.Prelude.{◌≡◌, ◌≤◌, ℕ, List, [], ◌∷◌, ◌++◌, IfErr, OnOk, length, true};
ghost use Rattle.osq_outside.specs.Causes.{Rose};
ghost use Rattle.osq_config.specs.declared.config.Pack.{Pack};
ghost use Rattle.osq_config.specs.Bounds.{IsBounded};
ghost use Rattle.osq_config.specs.Files.{files_of};
ghost use Rattle.osq_config.specs.Names.{NamesRise};
ghost use Rattle.config_files.specs.Adding.{AddsPack, AddsPacks, HoldsWith, with_packs};
ghost use Rattle.config_files.specs.Refusals.{IsUnreadOf};
ghost use Rattle.config_files.specs.Texts.{texts_in};

use crate::configured::Configured;
use crate::error::ConfiguredError;
use crate::naming::push_note;
use crate::reading::pack_text;
use osq_config::{ConfigError, Pack, PackList, held_queries, read_file};
use osq_outside::Files;
use osq_value::NoMemory;
use std::alloc::Global;
use std::mem;

/// Puts a pack behind those that were added, with what this text says. By a fault of the text the pack is left out, which a line tells.
/// So many queries are held, and those of the pack are among them.
fn add_text(
    alloc: Global,
    made: &mut Configured,
    count: &mut usize,
    pack: Pack,
    text: &str,
) -> Result<(), NoMemory>
    requires { length pack.queries ≤ count.old }
    ensures adds { OnOk result ((line : List ℕ) × ((rest : List Pack) → HoldsWith made.old.config (pack ∷ rest) count.old
        → AddsPack text.now pack.name (with_packs made.old.config (pack ∷ rest)) (with_packs made.new.config rest) line × HoldsWith made.new.config rest count.new)
        × (made.new.notes ≡ made.old.notes ++ line)) }
    ensures documents { OnOk result (made.new.documents ≡ made.old.documents) }
{
    match read_file(alloc, *count, text.as_bytes()) {
        Ok(read) => {
            *count = *count - pack.queries.len() + read.queries.len();
            let mut filled = pack;
            filled.refill(read);
            made.config.packs.push(filled)
        }
        Err(ConfigError::NoMemory) => Err(NoMemory),
        Err(error) => {
            *count -= pack.queries.len();
            push_note(&mut made.notes, pack.name.as_str(), &error)
        }
    }
}

/// Puts a pack behind those that were added; one that stands in a file of its own with what that file's text says, which is kept.
fn add_file<F: Files>(
    alloc: Global,
    files: &mut F,
    made: &mut Configured,
    count: &mut usize,
    pack: Pack,
) -> Result<(), ConfiguredError>
    requires { length pack.queries ≤ count.old }
    ensures adds { OnOk result ((texts : List (List ℕ)) × (lines : List ℕ) × ((rest : List Pack) → HoldsWith made.old.config (pack ∷ rest) count.old
        → AddsPacks (files_of (pack ∷ [])) texts (with_packs made.old.config (pack ∷ rest)) (with_packs made.new.config rest) lines × HoldsWith made.new.config rest count.new)
        × (F.tells → texts ≡ texts_in (F.file files.old) (files_of (pack ∷ [])))
        × (made.new.documents ≡ made.old.documents ++ texts) × (made.new.notes ≡ made.old.notes ++ lines)) }
    ensures cause { IfErr result (IsUnreadOf (files_of (pack ∷ [])) (Rose (F.faults files.old) (F.faults files.new))) }
    ensures same { F.tells → (path : List ℕ) → F.file files.new path ≡ F.file files.old path }
    ensures later { F.faults files.old ≤ F.faults files.new }
{
    let text = match &pack.path {
        None => {
            made.config.packs.push(pack)?;
            return Ok(());
        }
        Some(path) => pack_text(alloc, files, path.as_str())?,
    };
    add_text(alloc, made, count, pack, text.as_str())?;
    made.documents.push(text)?;
    Ok(())
}

/// Adds the packs that stand in files of their own, one after another. The numbers of the configuration lie between their bounds, and its
/// names rise, so that each pack is the first of its name and one walk serves all.
pub(crate) fn add_files<F: Files>(
    alloc: Global,
    files: &mut F,
    made: &mut Configured,
) -> Result<(), ConfiguredError>
    requires bounded { IsBounded made.old.config }
    requires named { NamesRise made.old.config }
    ensures adds { OnOk result ((texts : List (List ℕ)) × (lines : List ℕ) × AddsPacks (files_of made.old.config.packs) texts made.old.config made.new.config lines
        × (F.tells → texts ≡ texts_in (F.file files.old) (files_of made.old.config.packs))
        × (made.new.documents ≡ made.old.documents ++ texts) × (made.new.notes ≡ made.old.notes ++ lines)) }
    ensures cause { IfErr result (IsUnreadOf (files_of made.old.config.packs) (Rose (F.faults files.old) (F.faults files.new))) }
    ensures same { F.tells → (path : List ℕ) → F.file files.new path ≡ F.file files.old path }
    ensures later { F.faults files.old ≤ F.faults files.new }
{
    let mut count = held_queries(&made.config.schedule, &made.config.packs);
    let packs = mem::replace(&mut made.config.packs, PackList::new(alloc));
    for pack in packs.into_vec() {
        add_file(alloc, files, made, &mut count, pack)?;
    }
    Ok(())
}
