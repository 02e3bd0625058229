//! A configuration with its packs.

ghost use Rattle.std.specs.Prelude.{◌≡◌, ◌≤◌, ℕ, List, IfOk, IfErr};
ghost use Rattle.osq_outside.specs.Causes.{Rose};
ghost use Rattle.osq_config.specs.Names.{NamesRise};
ghost use Rattle.config_files.specs.Causes.{IsCaused};
ghost use Rattle.config_files.specs.Configurations.{IsConfigured};

use crate::adding::add_files;
use crate::error::ConfiguredError;
use crate::reading::config_in;
use osq_config::Config;
use osq_outside::Files;
use osq_value::{Bytes, TextList};
use std::alloc::Global;

/// A configuration with its packs, the documents that it was read from, and the lines that tell of packs that are left out.
#[derive(Drop)]
pub struct Configured {
    /// What the configuration says, with the queries of the packs that were read.
    pub config: Config,
    /// The text of the configuration's file, and then one text for each pack that is given as a path, in byte order of names: the text of
    /// its file, or the empty text where the file is missing or isn't UTF-8.
    pub documents: TextList,
    /// A line for each pack that is left out.
    pub notes: Bytes,
}

/// The configuration in the file of this path, with the packs that stand in files of their own. A pack whose file is missing or refused is
/// left out. `Fault` comes only where the count of the files' faults rose, and names the file that wasn't read, the path's or that of a pack of
/// the configuration in it; `Missing` comes exactly where there is no such file, and `Refused` by
/// the first fault of the file's document.
/// A pack that is left out is no error: a note tells of it. The names rise by their bytes.
pub fn read_configured<F: Files>(
    alloc: Global,
    files: &mut F,
    path: &str,
) -> Result<Configured, ConfiguredError>
    ensures configured { IfOk result (λ made. IsConfigured F.tells (F.file files.old) path.now made.config made.documents made.notes) }
    ensures named { IfOk result (λ made. NamesRise made.config) }
    ensures cause { IfErr result (IsCaused F.tells (F.file files.old) path.now (Rose (F.faults files.old) (F.faults files.new))) }
    ensures same { F.tells → (path : List ℕ) → F.file files.new path ≡ F.file files.old path }
    ensures later { F.faults files.old ≤ F.faults files.new }
{
    let mut made = config_in(alloc, files, path)?;
    add_files(alloc, files, &mut made)?;
    Ok(made)
}
