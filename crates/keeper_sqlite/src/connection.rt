//! The keeper over an open connection.

ghost use Rattle.std.specs.Prelude.{◌≡◌, IfOk, OnErr, OnOk, false, true};
ghost use Rattle.osq_outside.specs.Causes.{FaultHasCause};
ghost use Rattle.sqlite.specs.Held.{state};
ghost use Rattle.sqlite.specs.State.{HasCleanDisk};
ghost use Rattle.keeper_sqlite.specs.Commits.{CommitsNothing, IsOneCommit};
ghost use Rattle.keeper_sqlite.specs.Asking.{Adds, AreFound, FindsCounts, HasLoaded, IsReady, IsReadyOnce, IsSealed, Loads};

use crate::database::{make_all, show, show_of};
use crate::stop::{Stop, told};
use batch_keeper::{Keeper, KeeperError};
use entry_model::entry::{Batch, EntryList};
use entry_model::restored::Restored;
use kept_tables::{
    Counts, Found, FoundBatch, batch_of, changes_of, counts_of, has_layout, is_fetched, layout,
    restored_of,
};
use sqlite::{Alter, Connection, Transaction};
use std::alloc::Global;

/// The keeper over an open connection. The first call that needs its tables makes them.
pub struct ConnectionKeeper<S: Alter> {
    conn: Connection<S>,
    faults: u64,
    /// Whether the last seal succeeded: its tables needn't be looked at again.
    is_known: bool,
}

// It is written out, so that the parts of a connection aren't dropped here again.
impl<S: Alter + Drop> Drop for ConnectionKeeper<S> {
    fn drop(self) {
        let ConnectionKeeper {
            conn: _,
            faults: _,
            is_known: _,
        } = self;
    }
}

impl<S: Alter> ConnectionKeeper<S> {
    /// The keeper over this connection.
    pub fn adopt(conn: Connection<S>) -> ConnectionKeeper<S>
        ensures faults { result.faults ≡ 0 }
        ensures conn { result.conn ≡ conn }
        ensures unknown { result.is_known ≡ false }
    {
        ConnectionKeeper {
            conn,
            faults: 0,
            is_known: false,
        }
    }

    /// The connection.
    pub fn into_connection(self) -> Connection<S>
        ensures { result ≡ self.conn }
    {
        let ConnectionKeeper {
            conn,
            faults: _,
            is_known: _,
        } = self;
        conn
    }
}

/// Makes the tables where there are none, and refuses those of another layout.
#[tactic(auto, using(crate::proofs::Commits::same_commits_nothing, crate::proofs::Commits::nothing_then_nothing))]
fn ready<S: Alter>(alloc: Global, tx: &mut Transaction<'_, S>) -> Result<(), Stop>
    ensures same_reference { tx.new.conn.ghost_name ≡ tx.old.conn.ghost_name }
    ensures survives { CommitsNothing (state S.Store tx.old.conn.now) (state S.Store tx.new.conn.now) }
    ensures tables { HasCleanDisk (state S.Store tx.new.conn.now) → OnOk result (IsReady S.Store tx.old.conn.now tx.new.conn.now) }
{
    let names = show(alloc, tx, layout::NAMES)?;
    if names.as_slice().is_empty() {
        tx.execute_batch(layout::TABLES)?;
        return Ok(());
    }
    let found = show(alloc, tx, layout::LAYOUT_OF)?;
    if has_layout(&found) {
        Ok(())
    } else {
        Err(Stop::Fault)
    }
}

/// Sees to the tables, unless an earlier seal of the connection has.
#[tactic(auto, using(crate::proofs::Commits::same_commits_nothing))]
fn ready_once<S: Alter>(
    alloc: Global,
    tx: &mut Transaction<'_, S>,
    is_known: bool,
) -> Result<(), Stop>
    ensures same_reference { tx.new.conn.ghost_name ≡ tx.old.conn.ghost_name }
    ensures survives { CommitsNothing (state S.Store tx.old.conn.now) (state S.Store tx.new.conn.now) }
    ensures tables { HasCleanDisk (state S.Store tx.new.conn.now) → OnOk result (IsReadyOnce S.Store is_known tx.old.conn.now tx.new.conn.now) }
{
    if is_known {
        return Ok(());
    }
    ready(alloc, tx)
}

/// The counts of the list.
fn counts<S: Alter>(alloc: Global, tx: &mut Transaction<'_, S>) -> Result<Counts, Stop>
    ensures same_reference { tx.new.conn.ghost_name ≡ tx.old.conn.ghost_name }
    ensures survives { CommitsNothing (state S.Store tx.old.conn.now) (state S.Store tx.new.conn.now) }
    ensures found { HasCleanDisk (state S.Store tx.new.conn.now) → IfOk result (λ counts. FindsCounts S.Store counts tx.old.conn.now tx.new.conn.now) }
{
    let found = show(alloc, tx, layout::COUNTS)?;
    Ok(counts_of(&found)?)
}

/// What the tables show to a load.
#[tactic(auto, using(crate::proofs::Commits::nothing_then_nothing))]
fn found<S: Alter>(alloc: Global, tx: &mut Transaction<'_, S>) -> Result<Found, Stop>
    ensures same_reference { tx.new.conn.ghost_name ≡ tx.old.conn.ghost_name }
    ensures survives { CommitsNothing (state S.Store tx.old.conn.now) (state S.Store tx.new.conn.now) }
    ensures found { HasCleanDisk (state S.Store tx.new.conn.now) → IfOk result (λ found. AreFound S.Store found tx.old.conn.now tx.new.conn.now) }
{
    ready(alloc, tx)?;
    Ok(Found {
        counts: counts(alloc, tx)?,
        live: show(alloc, tx, layout::LIVE)?,
        taken: show(alloc, tx, layout::TAKEN)?,
        set: show(alloc, tx, layout::SET)?,
        runs: show(alloc, tx, layout::RUNS)?,
    })
}

fn load_inside<S: Alter>(alloc: Global, tx: &mut Transaction<'_, S>) -> Result<Restored, Stop>
    ensures same_reference { tx.new.conn.ghost_name ≡ tx.old.conn.ghost_name }
    ensures survives { CommitsNothing (state S.Store tx.old.conn.now) (state S.Store tx.new.conn.now) }
    ensures loaded { HasCleanDisk (state S.Store tx.new.conn.now) → IfOk result (λ restored. Loads S.Store restored tx.old.conn.now tx.new.conn.now) }
{
    let found = found(alloc, tx)?;
    Ok(restored_of(alloc, &found)?)
}

/// What is shown of the batch of this number.
fn find_batch<S: Alter>(
    alloc: Global,
    tx: &mut Transaction<'_, S>,
    number: u64,
) -> Result<FoundBatch, Stop> {
    Ok(FoundBatch {
        batches: show_of(alloc, tx, layout::BATCH, number)?,
        parts: show_of(alloc, tx, layout::BATCH_PARTS, number)?,
    })
}

fn fetch_inside<S: Alter>(
    alloc: Global,
    tx: &mut Transaction<'_, S>,
    number: u64,
) -> Result<Option<Batch>, Stop> {
    ready(alloc, tx)?;
    let counts = counts(alloc, tx)?;
    if !is_fetched(&counts, number) {
        return Ok(None);
    }
    let found = find_batch(alloc, tx, number)?;
    Ok(Some(batch_of(alloc, &found)?))
}

/// Makes the changes of a seal.
#[tactic(auto, using(crate::proofs::Commits::same_commits_nothing, crate::proofs::Commits::nothing_then_nothing))]
fn seal_inside<S: Alter>(
    alloc: Global,
    tx: &mut Transaction<'_, S>,
    entries: &EntryList,
    is_known: bool,
) -> Result<(), Stop>
    ensures same_reference { tx.new.conn.ghost_name ≡ tx.old.conn.ghost_name }
    ensures survives { CommitsNothing (state S.Store tx.old.conn.now) (state S.Store tx.new.conn.now) }
    ensures added { HasCleanDisk (state S.Store tx.new.conn.now) → OnOk result (Adds S.Store is_known entries.now tx.old.conn.now tx.new.conn.now) }
{
    ready_once(alloc, tx, is_known)?;
    let counts = counts(alloc, tx)?;
    let changes = changes_of(alloc, counts, entries)?;
    make_all(alloc, tx, &changes)
}

fn load<S: Alter>(alloc: Global, conn: &mut Connection<S>) -> Result<Restored, Stop>
    ensures { HasCleanDisk (state S.Store conn.new) → IfOk result (λ restored. HasLoaded S.Store restored conn.old) }
{
    if !conn.is_autocommit() {
        return Err(Stop::Fault);
    }
    let mut tx = conn.transaction();
    let restored = load_inside(alloc, &mut tx)?;
    tx.commit()?;
    Ok(restored)
}

fn fetch<S: Alter>(
    alloc: Global,
    conn: &mut Connection<S>,
    number: u64,
) -> Result<Option<Batch>, Stop> {
    if !conn.is_autocommit() {
        return Err(Stop::Fault);
    }
    let mut tx = conn.transaction();
    let batch = fetch_inside(alloc, &mut tx, number)?;
    tx.commit()?;
    Ok(batch)
}

fn seal<S: Alter>(
    alloc: Global,
    conn: &mut Connection<S>,
    entries: &EntryList,
    is_known: bool,
) -> Result<(), Stop>
    ensures whole { IsOneCommit (state S.Store conn.old) (state S.Store conn.new) result }
    ensures sealed { HasCleanDisk (state S.Store conn.new) → OnOk result (IsSealed S.Store is_known entries.now conn.old conn.new) }
{
    if !conn.is_autocommit() {
        return Err(Stop::Fault);
    }
    let mut tx = conn.transaction();
    seal_inside(alloc, &mut tx, entries, is_known)?;
    tx.commit()?;
    Ok(())
}

impl<S: Alter> Keeper for ConnectionKeeper<S> {
    ghost use Rattle.std.specs.Prelude.{[]};
    ghost use Rattle.batch_keeper.specs.Calling.{no_calls};

    ghost tells = { ⊥ };

    ghost kept = { λ _. [] };

    ghost faults = { λ s. s.faults };

    ghost counts = { ⊥ };

    ghost calls = { λ _. no_calls };

    /// What is loaded are the values that the tables show, where the disk has failed nowhere and they show some.
    fn load(&mut self, alloc: Global) -> Result<Restored, KeeperError>
        ensures known { self.new.is_known ≡ self.old.is_known }
        ensures loaded { HasCleanDisk (state S.Store self.new.conn) → IfOk result (λ restored. HasLoaded S.Store restored self.old.conn) }
        ensures cause { FaultHasCause KeeperError.Fault self.old.faults self.new.faults result }
    {
        let loaded = load(alloc, &mut self.conn);
        told(&mut self.faults, loaded)
    }

    fn fetch(&mut self, alloc: Global, number: u64) -> Result<Option<Batch>, KeeperError>
        ensures known { self.new.is_known ≡ self.old.is_known }
        ensures cause { FaultHasCause KeeperError.Fault self.old.faults self.new.faults result }
    {
        let fetched = fetch(alloc, &mut self.conn, number);
        told(&mut self.faults, fetched)
    }

    /// All that a call writes is one commit: a crash behind it leaves what it could leave before, or all of the entries. What it
    /// commits is what the statements of these entries leave, where the disk has failed nowhere. The tables are looked at, unless the seal before
    /// it on this connection succeeded, which looked at them or went on from one that did: SQLite's lock keeps other hands from them in between.
    fn seal(&mut self, alloc: Global, entries: &EntryList) -> Result<(), KeeperError>
        ensures whole { IsOneCommit (state S.Store self.old.conn) (state S.Store self.new.conn) result }
        ensures sealed { HasCleanDisk (state S.Store self.new.conn) → OnOk result (IsSealed S.Store self.old.is_known entries.now self.old.conn self.new.conn) }
        ensures known { OnOk result (self.new.is_known ≡ true) }
        ensures unknown { OnErr result (self.new.is_known ≡ false) }
        ensures cause { FaultHasCause KeeperError.Fault self.old.faults self.new.faults result }
    {
        let sealed = seal(alloc, &mut self.conn, entries, self.is_known);
        self.is_known = sealed.is_ok();
        told(&mut self.faults, sealed)
    }
}
