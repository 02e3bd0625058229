//! What stands in a file: a configuration, or the text of a pack.

ghost use Rattle.std.specs.Prelude.{◌≡◌, ◌≤◌, ℕ, List, [], ◌∷◌, Some, Ok, IfOk, IfErr};
ghost use Rattle.osq_config.specs.Bounds.{IsBounded};
ghost use Rattle.osq_config.specs.Counts.{fault_of_config};
ghost use Rattle.osq_config.specs.Names.{NamesRise};
ghost use Rattle.osq_config.specs.Reads.{Answers};
ghost use Rattle.osq_config.specs.Values.{config_of};
ghost use Rattle.osq_outside.specs.Causes.{Rose};
ghost use Rattle.config_files.specs.Causes.{IsCaused};
ghost use Rattle.config_files.specs.Refusals.{IsUnreadAt};
ghost use Rattle.config_files.specs.Texts.{text_in, text_of};

use crate::configured::Configured;
use crate::error::{ConfiguredError, unread};
use crate::text::text_of;
use osq_config::{Config, read_config};
use osq_outside::Files;
use osq_value::{Bytes, NoMemory, Str, TextList};
use std::alloc::Global;

/// The configuration with its document, before packs are added.
fn begun(alloc: Global, config: Config, document: Bytes) -> Result<Configured, NoMemory>
    ensures config { IfOk result (λ made. made.config ≡ config) }
    ensures documents { IfOk result (λ made. made.documents ≡ text_of document ∷ []) }
    ensures notes { IfOk result (λ made. made.notes ≡ []) }
{
    let mut documents = TextList::new(alloc);
    documents.push(text_of(document))?;
    Ok(Configured {
        config,
        documents,
        notes: Bytes::new(alloc),
    })
}

/// The bytes of the file of this path, and `None` where there is no such file. A fault names the file.
fn bytes_in<F: Files>(
    alloc: Global,
    files: &mut F,
    path: &str,
) -> Result<Option<Bytes>, ConfiguredError>
    ensures bytes { F.tells → IfOk result (λ found. found ≡ F.file files.old path.now) }
    ensures cause { IfErr result (IsUnreadAt path.now (Rose (F.faults files.old) (F.faults files.new))) }
    ensures same { F.tells → (path : List ℕ) → F.file files.new path ≡ F.file files.old path }
    ensures later { F.faults files.old ≤ F.faults files.new }
{
    match files.read(alloc, path) {
        Ok(found) => Ok(found),
        Err(error) => Err(unread(alloc, path, error)),
    }
}

/// The configuration in the file of this path, before packs are added.
pub(crate) fn config_in<F: Files>(
    alloc: Global,
    files: &mut F,
    path: &str,
) -> Result<Configured, ConfiguredError>
    ensures config { IfOk result (λ made. (document : List ℕ) × (F.tells → F.file files.old path.now ≡ Some document)
        × Answers fault_of_config config_of document (Ok made.config) × (made.documents ≡ document ∷ []) × (made.notes ≡ [])) }
    ensures bounded { IfOk result (λ made. IsBounded made.config) }
    ensures named { IfOk result (λ made. NamesRise made.config) }
    ensures cause { IfErr result (IsCaused F.tells (F.file files.old) path.now (Rose (F.faults files.old) (F.faults files.new))) }
    ensures same { F.tells → (path : List ℕ) → F.file files.new path ≡ F.file files.old path }
    ensures later { F.faults files.old ≤ F.faults files.new }
{
    let Some(document) = bytes_in(alloc, files, path)? else {
        return Err(ConfiguredError::Missing);
    };
    let config = read_config(alloc, document.as_slice())?;
    Ok(begun(alloc, config, document)?)
}

/// The text in a pack's file; the empty text where there is no such file or it isn't UTF-8. A fault names the file.
pub(crate) fn pack_text<F: Files>(
    alloc: Global,
    files: &mut F,
    path: &str,
) -> Result<Str, ConfiguredError>
    ensures text { F.tells → IfOk result (λ text. text ≡ text_in (F.file files.old path.now)) }
    ensures cause { IfErr result (IsUnreadAt path.now (Rose (F.faults files.old) (F.faults files.new))) }
    ensures same { F.tells → (path : List ℕ) → F.file files.new path ≡ F.file files.old path }
    ensures later { F.faults files.old ≤ F.faults files.new }
{
    match bytes_in(alloc, files, path)? {
        None => Ok(Str::empty()),
        Some(bytes) => Ok(text_of(bytes)),
    }
}
