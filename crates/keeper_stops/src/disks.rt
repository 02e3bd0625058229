//! Keepers over disks in memory.

use batch_keeper::{Keeper, KeeperError};
use case_lists::push_all;
use entry_model::entry::EntryList;
use keeper_sqlite::ConnectionKeeper;
use osq_value::NoMemory;
use sqlite::{Connection, FileStore, Files, Options};
use sqlite_disk::{Crash, Fuse, Memory};
use std::alloc::Global;

type Disks = Files<Fuse<Memory>>;

type Kept = ConnectionKeeper<FileStore<Fuse<Memory>>>;

/// Empty disks that stop behind so many calls.
pub(crate) fn disks_of(alloc: Global, log_calls: u64, database_calls: u64) -> Disks {
    Files {
        log: Fuse::new(Memory::new(alloc), log_calls),
        db: Fuse::new(Memory::new(alloc), database_calls),
    }
}

/// The keeper over these disks, or what is left of them.
fn open(alloc: Global, disks: Disks, frames: usize) -> Result<Kept, Disks> {
    if !disks.may_be_used() {
        return Err(disks);
    }
    let mut options = Options::new(1);
    options.checkpoint_frames = frames;
    match Connection::open_files(alloc, disks, options) {
        Ok(conn) => Ok(ConnectionKeeper::adopt(conn)),
        Err((_, left)) => Err(left.into_files()),
    }
}

/// Seals until a seal stops, and answers how many didn't.
fn seal_all(alloc: Global, keeper: &mut Kept, seals: &[EntryList]) -> usize {
    let mut count = 0usize;
    for entries in seals {
        if keeper.seal(alloc, entries).is_err() {
            return count;
        }
        count = count.saturating_add(1);
    }
    count
}

/// Seals over these disks, and answers them with how many seals didn't stop.
pub(crate) fn sealed(
    alloc: Global,
    disks: Disks,
    frames: usize,
    seals: &[EntryList],
) -> (Disks, usize) {
    match open(alloc, disks, frames) {
        Ok(mut keeper) => {
            let count = seal_all(alloc, &mut keeper, seals);
            (keeper.into_connection().into_store().close(), count)
        }
        Err(disks) => (disks, 0),
    }
}

/// All that is loaded from what a crash leaves of these disks.
pub(crate) fn left_of(alloc: Global, disks: Disks, frames: usize) -> Result<String, NoMemory> {
    let mut disks = disks;
    disks.log.crash();
    disks.db.crash();
    match open(alloc, disks, frames) {
        Ok(keeper) => all_of(alloc, keeper),
        Err(_) => Ok(String::from_str(alloc, "no database")?),
    }
}

fn all_of(alloc: Global, keeper: Kept) -> Result<String, NoMemory> {
    let mut keeper = keeper;
    let mut text = String::new(alloc);
    match keeper.load(alloc) {
        Ok(restored) => push_all(&mut text, &restored)?,
        Err(KeeperError::Fault) => text.push_str("a fault")?,
        Err(KeeperError::NoMemory) => return Err(NoMemory),
    }
    Ok(text)
}
