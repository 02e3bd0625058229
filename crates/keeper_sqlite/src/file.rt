//! The keeper over a file.

ghost use Rattle.std.specs.Prelude.{◌≡◌};
ghost use Rattle.osq_outside.specs.Causes.{FaultHasCause};

use crate::connection::ConnectionKeeper;
use crate::stop::{Stop, told};
use batch_keeper::{Keeper, KeeperError};
use entry_model::entry::{Batch, EntryList};
use entry_model::restored::Restored;
use osq_value::Str;
use sqlite::{Connection, File, FileStore};
use std::alloc::Global;

/// An open database, once there is one.
type Slot = Option<ConnectionKeeper<FileStore<File>>>;

/// The keeper over the database at a path. Its first call opens the file.
#[derive(Drop)]
pub struct SqliteKeeper {
    rt: HostRuntime,
    path: Str,
    opened: Slot,
    faults: u64,
}

impl SqliteKeeper {
    /// The keeper over the database at this path. It opens nothing.
    pub fn new(rt: HostRuntime, path: Str) -> SqliteKeeper
        ensures { result.faults ≡ 0 }
    {
        SqliteKeeper {
            rt,
            path,
            opened: None,
            faults: 0,
        }
    }
}

fn connect(rt: &HostRuntime, path: &str) -> Result<ConnectionKeeper<FileStore<File>>, Stop> {
    Ok(ConnectionKeeper::adopt(Connection::open(rt, path)?))
}

/// Opens the database, if it isn't open.
fn open(rt: &HostRuntime, path: &str, slot: &mut Slot) -> Result<(), Stop> {
    if slot.is_none() {
        *slot = Some(connect(rt, path)?);
    }
    Ok(())
}

fn load(rt: &HostRuntime, path: &str, slot: &mut Slot, alloc: Global) -> Result<Restored, Stop> {
    open(rt, path, slot)?;
    match slot {
        Some(keeper) => Ok(keeper.load(alloc)?),
        None => Err(Stop::Fault),
    }
}

fn fetch(
    rt: &HostRuntime,
    path: &str,
    slot: &mut Slot,
    alloc: Global,
    number: u64,
) -> Result<Option<Batch>, Stop> {
    open(rt, path, slot)?;
    match slot {
        Some(keeper) => Ok(keeper.fetch(alloc, number)?),
        None => Err(Stop::Fault),
    }
}

fn seal(
    rt: &HostRuntime,
    path: &str,
    slot: &mut Slot,
    alloc: Global,
    entries: &EntryList,
) -> Result<(), Stop> {
    open(rt, path, slot)?;
    match slot {
        Some(keeper) => Ok(keeper.seal(alloc, entries)?),
        None => Err(Stop::Fault),
    }
}

impl Keeper for SqliteKeeper {
    ghost use Rattle.std.specs.Prelude.{[]};
    ghost use Rattle.batch_keeper.specs.Calling.{no_calls};

    ghost tells = { ⊥ };

    ghost kept = { λ _. [] };

    ghost faults = { λ s. s.faults };

    ghost counts = { ⊥ };

    ghost calls = { λ _. no_calls };

    fn load(&mut self, alloc: Global) -> Result<Restored, KeeperError> {
        let loaded = load(&self.rt, self.path.as_str(), &mut self.opened, alloc);
        told(&mut self.faults, loaded)
    }

    fn fetch(&mut self, alloc: Global, number: u64) -> Result<Option<Batch>, KeeperError> {
        let fetched = fetch(
            &self.rt,
            self.path.as_str(),
            &mut self.opened,
            alloc,
            number,
        );
        told(&mut self.faults, fetched)
    }

    fn seal(&mut self, alloc: Global, entries: &EntryList) -> Result<(), KeeperError> {
        let sealed = seal(
            &self.rt,
            self.path.as_str(),
            &mut self.opened,
            alloc,
            entries,
        );
        told(&mut self.faults, sealed)
    }
}
