//! Two sessions over one list, of whose calls on the keeper one fails.

ghost use Rattle.std.specs.Prelude.{◌≡◌, ◌≤◌, ◌<◌, ◌^◌, [], IfOk};
ghost use Rattle.generated_changes.specs.Generated.{lines_of};
ghost use Rattle.replay_rounds.specs.Called.{HasSealedOf, HasStoppedOf};
ghost use Rattle.osq_program.specs.Answers.{IsDoneStatus};
ghost use Rattle.osq_program.specs.Killing.{IsKillRun, IsKilled, IsRunOver, made_calls};
ghost use Rattle.osq_program.specs.SelfTesting.{ticks_for};

use crate::self_session::{Ran, START, STEP, run_over, self_numbers, ticks_for};
use crate::status::Status;
use batch_keeper::{Keeper, MemoryKeeper};
use entry_model::entry::EntryList;
use generated_changes::lines_of;
use osq_outside::{Fail, FailList};
use osq_value::NoMemory;
use std::alloc::Global;

/// How two sessions ended, one behind the other, and the numbers of the list that they leave.
#[derive(Drop)]
pub struct KillReport {
    /// What the first answers: Ok, or KeeperFault.
    pub first: Status,
    /// What the second answers: Ok, or KeeperFault.
    pub second: Status,
    /// The number of the last event, 0 where there is none.
    pub events: u64,
    /// How many batches there are.
    pub batches: u64,
    /// How many rows the batches have together.
    pub rows: u64,
    /// The number up to which the query has read the events, 0 where it has no batch.
    pub cursor: u64,
}

/// A keeper of an empty list, of whose calls the one of this number fails, counted from 1.
fn keeper_of(alloc: Global, kill: u64, whole: bool) -> Result<MemoryKeeper, NoMemory>
    ensures empty { IfOk result (λ keeper. ⟦<MemoryKeeper as Keeper>⟧.kept keeper ≡ []) }
    ensures calls { IfOk result (λ keeper. ⟦<MemoryKeeper as Keeper>⟧.calls keeper ≡ made_calls kill whole 0) }
{
    let mut fails = FailList::new(alloc);
    fails.push(Fail { call: kill })?;
    Ok(MemoryKeeper::new(EntryList::new(alloc), fails, whole))
}

/// Over objects in memory of which the keeper alone fails, a session ends otherwise only for want of memory.
fn killed(status: Status) -> Result<Status, NoMemory>
    ensures same { IfOk result (λ ended. ended ≡ status) }
    ensures ended { IfOk result IsKilled }
{
    match status {
        Status::Ok => Ok(Status::Ok),
        Status::KeeperFault => Ok(Status::KeeperFault),
        _ => Err(NoMemory),
    }
}

/// Runs a session over the generated lines behind the keeper's list. The clock begins at `start`.
fn run_killed(
    alloc: Global,
    from: u64,
    count: u64,
    start: u64,
    keeper: MemoryKeeper,
) -> Result<Ran, NoMemory>
    requires count { count ≤ 1000000 }
    requires start { start < 2 ^ 63 }
    ensures run { IfOk result (λ ran. IsRunOver (lines_of from count) count start (⟦<MemoryKeeper as Keeper>⟧.kept keeper) (⟦<MemoryKeeper as Keeper>⟧.kept ran.keeper) ran.status) }
    ensures sealed { IfOk result (λ ran. IsDoneStatus ran.status → HasSealedOf ⟦<MemoryKeeper as Keeper>⟧ keeper ran.keeper (ticks_for count)) }
    ensures stopped { IfOk result (λ ran. ran.status ≡ Status.KeeperFault → HasStoppedOf ⟦<MemoryKeeper as Keeper>⟧ keeper ran.keeper (ticks_for count)) }
{
    let lines = lines_of(alloc, from, count)?;
    let ran = run_over(alloc, lines, count, start, keeper)?;
    let status = killed(ran.status)?;
    Ok(Ran {
        status,
        keeper: ran.keeper,
    })
}

/// Runs the session of `selftest` over `count` lines behind the number `from`, and over the list that it leaves the same session again, whose clock begins
/// where the first ends. The keeper's call `kill` fails, counted from 1 over both; 0 means none. A seal that fails has kept all of its entries where `whole`,
/// else none. NoMemory where either session wants memory.
pub fn kill_run(
    alloc: Global,
    from: u64,
    count: u64,
    kill: u64,
    whole: bool,
) -> Result<KillReport, NoMemory>
    requires some { 1 ≤ count }
    requires few { count ≤ 1000000 }
    ensures { IfOk result (IsKillRun from count kill whole) }
{
    let keeper = keeper_of(alloc, kill, whole)?;
    let first = run_killed(alloc, from, count, START, keeper)?;
    let start = START + STEP * ticks_for(count);
    let second = run_killed(alloc, from, count, start, first.keeper)?;
    let numbers = self_numbers(alloc, second.keeper.entries())?;
    Ok(KillReport {
        first: first.status,
        second: second.status,
        events: numbers.events,
        batches: numbers.batches,
        rows: numbers.rows,
        cursor: numbers.cursor,
    })
}
