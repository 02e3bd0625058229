//! Packs that stand in files of their own.

ghost use Rattle.std.specs.Prelude.{◌≡◌, ◌+◌, ◌≤◌, ◌++◌, IfOk, OnErr, OnOk, length, true};
ghost use Rattle.std.specs.List.{filter_map};
ghost use Rattle.std.specs.Option.{option_to_list};
ghost use Rattle.serde_json.specs.View.{view};
ghost use Rattle.osq_config.specs.Bounds.{IsBounded};
ghost use Rattle.osq_config.specs.Files.{Fills, fault_beside, fault_of_file, file_names, file_of, file_pack, files_of, left_out};
ghost use Rattle.osq_config.specs.Names.{NamesRise, names_rise};
ghost use Rattle.osq_config.specs.Reads.{Answers, Reads};

use crate::config::{Config, Pack};
use crate::document::parse;
use crate::error::ConfigError;
use crate::pack::pack_with;
use crate::place::{fill, leave_out};
use crate::read::{exceeds, held_queries};
use osq_value::{Copied, NoMemory, Sequence, Str};
use serde_json::Value as Json;
use std::alloc::Global;

/// The file of a pack.
#[derive(Drop)]
pub struct PackFile {
    /// The name of the pack.
    pub name: Str,
    /// Where the file stands.
    pub path: Str,
}

/// Files of packs, in byte order of the packs' names.
pub type PackFileList = Sequence<PackFile>;

/// The packs that are given as a path.
pub fn pack_files(alloc: Global, config: &Config) -> Result<PackFileList, NoMemory>
    ensures files { IfOk result (λ files. files ≡ files_of config.now.packs) }
    ensures named { NamesRise config.now → IfOk result (λ files. names_rise (file_names files) ≡ true) }
{
    let mut files = PackFileList::new(alloc);
    for pack in config.packs.as_slice() {
        push_file(alloc, &mut files, pack)?;
    }
    Ok(files)
}

/// Adds the file of a pack, where it has one.
fn push_file(alloc: Global, files: &mut PackFileList, pack: &Pack) -> Result<(), NoMemory>
    ensures { OnOk result (files.new ≡ files.old ++ option_to_list (file_of pack.now)) }
{
    let Some(path) = &pack.path else {
        return Ok(());
    };
    files.push(PackFile {
        name: pack.name.copy(alloc)?,
        path: path.copy(alloc)?,
    })
}

/// Reads the file of a pack, and puts what it says into the pack of this name. The document is read as a configuration is, and the paths
/// of its keys begin at the pack. TooManyQueries comes last, where the configuration would hold more than 10000 queries. After an error
/// the pack is left out, and all else stands. The numbers stay between their bounds.
/// The other errors are those of `read_config`.
pub fn add_pack(
    alloc: Global,
    config: &mut Config,
    name: &str,
    document: &[u8],
) -> Result<(), ConfigError>
    ensures answer { Answers (fault_of_file config.old) (λ _. tt) document.now result }
    ensures ok { OnOk result (Fills name.now document.now config.old config.new) }
    ensures err { OnErr result
        (config.new ≡ record config.old { packs = left_out name.now config.old.packs }) }
    ensures bounded { IsBounded config.old → IsBounded config.new }
    ensures named { NamesRise config.old → NamesRise config.new }
{
    let count = held_queries(&config.schedule, &config.packs);
    match read_file(alloc, count, document) {
        Ok(pack) => {
            fill(&mut config.packs, name, pack);
            Ok(())
        }
        Err(error) => {
            leave_out(alloc, &mut config.packs, name);
            Err(error)
        }
    }
}

/// Reads the file of a pack of a configuration that holds so many queries; with those of the file they are at most 10000. The pack has
/// neither a name nor a path. The errors are those of `add_pack`.
pub fn read_file(alloc: Global, count: usize, document: &[u8]) -> Result<Pack, ConfigError>
    ensures answer { Answers (fault_beside count) file_pack document.now result }
    ensures count { IfOk result (λ pack. count + length pack.queries ≤ 10000) }
{
    let json = parse(alloc, document)?;
    read_pack(alloc, count, &json)
}

#[tactic(auto, unfolding(crate::specs::Files::fault_beside, crate::specs::Files::file_pack))]
fn read_pack(alloc: Global, count: usize, document: &Json) -> Result<Pack, ConfigError>
    ensures answer { Reads (fault_beside count (view document.now)) (file_pack (view document.now)) result }
    ensures count { IfOk result (λ pack. count + length pack.queries ≤ 10000) }
{
    let pack = pack_with(alloc, "", Str::empty(), None, document)?;
    if exceeds(count, pack.queries.len()) {
        return Err(ConfigError::TooManyQueries);
    }
    Ok(pack)
}
