//! Turns of several threads.

ghost use Rattle.std.specs.Prelude.{◌≡◌, ◌≢◌, ◌+◌, ◌<◌, ◌≤◌, ◌^◌, IfOk, OnOk, length, map};
ghost use Rattle.std.specs.List.{All, AllZip};
ghost use Rattle.turn_lock.specs.Turns.{total};
ghost use Rattle.turn_lock.specs.Words.{number, seen, seats_out, split_off, IsAtRest, IsFirst, IsSame};
ghost use Rattle.shared_store.specs.Words.{most_seats, IsSeatOf};
ghost use Rattle.shared_store.specs.Seats.{own_count, HasAdded};

use crate::given::opened;
use crate::turns::{add_one, last_cut};
use osq_value::NoMemory;
use shared_store::{Store, StoreSeat};
use std::alloc::Global;
use std::sync::Wait;
use std::sync::atomic::{AtomicU64, Ordering};
use std::thread::{Threads, join, map_vec};

const SOURCES: [&str; 8] = ["a", "b", "c", "d", "e", "f", "g", "h"];

/// That many turns, each of which adds an event of this source, unless memory is wanting, and how many were added.
fn add_each<R: Wait>(
    rt: &R,
    alloc: Global,
    store: &Store,
    mut seat: StoreSeat,
    source: &str,
    turns: u32,
) -> (StoreSeat, u32)
    requires { IsSeatOf store.now seat × IsAtRest seat }
    ensures { HasAdded seat result }
{
    let mut added = 0;
    for at in 0..turns {
        if add_one(rt, alloc, store, &mut seat, source, u64::from(at) + 1).is_ok() {
            added += 1;
        }
    }
    (seat, added)
}

/// Two threads of that many turns each, each with a seat and a source of its own.
fn add_by_two<R: Threads + Wait + Sync>(
    rt: &R,
    alloc: Global,
    store: &Store,
    one: StoreSeat,
    two: StoreSeat,
    sources: [&str; 2],
    turns: u32,
) -> (StoreSeat, StoreSeat)
    requires one { IsSeatOf store.now one × IsAtRest one }
    requires two { IsSeatOf store.now two × IsAtRest two }
    ensures first { IsSame one result.0 × IsAtRest result.0 }
    ensures second { IsSame two result.1 × IsAtRest result.1 }
{
    let [left, right] = sources;
    join(
        rt,
        || -> StoreSeat
            requires { IsSeatOf store.now one × IsAtRest one }
            ensures { IsSame one result × IsAtRest result }
        {
            let (seat, _added) = add_each(rt, alloc, store, one, left, turns);
            seat
        },
        || -> StoreSeat
            requires { IsSeatOf store.now two × IsAtRest two }
            ensures { IsSame two result × IsAtRest result }
        {
            let (seat, _added) = add_each(rt, alloc, store, two, right, turns);
            seat
        },
    )
}

/// Two threads of two threads each.
fn add_by_pairs<R: Threads + Wait + Sync>(
    rt: &R,
    alloc: Global,
    store: &Store,
    left: (StoreSeat, StoreSeat),
    right: (StoreSeat, StoreSeat),
    turns: u32,
) -> ((StoreSeat, StoreSeat), (StoreSeat, StoreSeat))
    requires left { IsSeatOf store.now left.0 × IsAtRest left.0 × IsSeatOf store.now left.1 × IsAtRest left.1 }
    requires right { IsSeatOf store.now right.0 × IsAtRest right.0 × IsSeatOf store.now right.1 × IsAtRest right.1 }
    ensures left { IsSame left.0 result.0.0 × IsAtRest result.0.0 × IsSame left.1 result.0.1 × IsAtRest result.0.1 }
    ensures right { IsSame right.0 result.1.0 × IsAtRest result.1.0 × IsSame right.1 result.1.1 × IsAtRest result.1.1 }
{
    let (one, two) = left;
    let (three, four) = right;
    join(
        rt,
        || -> (StoreSeat, StoreSeat)
            requires { IsSeatOf store.now one × IsAtRest one × IsSeatOf store.now two × IsAtRest two }
            ensures { IsSame one result.0 × IsAtRest result.0 × IsSame two result.1 × IsAtRest result.1 }
        { add_by_two(rt, alloc, store, one, two, ["a", "b"], turns) },
        || -> (StoreSeat, StoreSeat)
            requires { IsSeatOf store.now three × IsAtRest three × IsSeatOf store.now four × IsAtRest four }
            ensures { IsSame three result.0 × IsAtRest result.0 × IsSame four result.1 × IsAtRest result.1 }
        { add_by_two(rt, alloc, store, three, four, ["c", "d"], turns) },
    )
}

/// Splits two seats off.
fn split_two(store: &Store, first: &mut StoreSeat) -> Result<(StoreSeat, StoreSeat), NoMemory>
    requires seat { IsSeatOf store.now first.old × IsAtRest first.old × IsFirst first.old }
    requires room { seats_out first.old + 2 ≤ most_seats store.now }
    ensures seat { IsSeatOf store.now first.new × IsAtRest first.new × IsFirst first.new }
    ensures out { OnOk result (seats_out first.new ≡ seats_out first.old + 2) }
    ensures one { IfOk result (λ r. IsSeatOf store.now r.0 × IsAtRest r.0 × (number r.0 ≢ 0)) }
    ensures other { IfOk result (λ r. IsSeatOf store.now r.1 × IsAtRest r.1 × (number r.1 ≢ 0)) }
{
    let one = store.split(first)?;
    let two = store.split(first)?;
    Ok((one, two))
}

/// Splits two seats off, adds by each of them in a thread of its own, and joins them: the last number.
fn last_by_two<R: Threads + Wait + Sync>(
    rt: &R,
    alloc: Global,
    store: &Store,
    first: &mut StoreSeat,
    turns: u32,
) -> Result<u64, NoMemory>
    requires seat { IsSeatOf store.now first.old × IsAtRest first.old × IsFirst first.old }
    requires room { seats_out first.old + 2 ≤ most_seats store.now }
{
    let (one, two) = split_two(store, first)?;
    let (one, two) = add_by_two(rt, alloc, store, one, two, ["a", "b"], turns);
    store.join(first, two);
    store.join(first, one);
    last_cut(rt, alloc, store, first)
}

/// The last number after two threads of that many turns each.
pub(crate) fn two_threads<R: Threads + Wait + Sync>(
    rt: &R,
    alloc: Global,
    turns: u32,
) -> Result<u64, NoMemory> {
    let (store, mut first) = opened(rt, alloc, 3)?;
    last_by_two(rt, alloc, &store, &mut first, turns)
}

/// Splits four seats off, adds by each of them in a thread of its own, and joins them out of order: the last number.
fn last_by_four<R: Threads + Wait + Sync>(
    rt: &R,
    alloc: Global,
    store: &Store,
    first: &mut StoreSeat,
    turns: u32,
) -> Result<u64, NoMemory>
    requires seat { IsSeatOf store.now first.old × IsAtRest first.old × IsFirst first.old }
    requires room { seats_out first.old + 4 ≤ most_seats store.now }
{
    let left = split_two(store, first)?;
    let right = split_two(store, first)?;
    let ((one, two), (three, four)) = add_by_pairs(rt, alloc, store, left, right, turns);
    store.join(first, four);
    store.join(first, two);
    store.join(first, three);
    store.join(first, one);
    last_cut(rt, alloc, store, first)
}

/// The last number after four threads of that many turns each, whose seats are joined out of order.
pub(crate) fn four_threads<R: Threads + Wait + Sync>(
    rt: &R,
    alloc: Global,
    turns: u32,
) -> Result<u64, NoMemory> {
    let (store, mut first) = opened(rt, alloc, 5)?;
    last_by_four(rt, alloc, &store, &mut first, turns)
}

/// Gives each seat a thread and a source, of which it adds that many events, one in each turn.
fn add_in_threads<R: Threads + Wait + Sync>(
    rt: &R,
    alloc: Global,
    store: &Store,
    seats: Vec<StoreSeat>,
    turns: u32,
) -> Result<Vec<(StoreSeat, u32)>, NoMemory>
    requires { All (λ seat. IsSeatOf store.now seat × IsAtRest seat) seats.items }
    ensures { IfOk result (λ worked. AllZip HasAdded seats.items worked.items) }
{
    let sources = AtomicU64::new(0);
    let worked = map_vec(
        rt,
        seats,
        &|seat: StoreSeat| -> (StoreSeat, u32)
            requires { IsSeatOf store.now seat × IsAtRest seat }
            ensures { HasAdded seat result }
        {
            let at = sources.fetch_add(1, Ordering::SeqCst) % 8;
            add_each(rt, alloc, store, seat, SOURCES[at as usize], turns)
        },
    )?;
    Ok(worked)
}

/// The seats, and how much they have added together.
fn gathered(alloc: Global, worked: Vec<(StoreSeat, u32)>) -> Result<(Vec<StoreSeat>, u64), NoMemory>
    requires { length worked.items < 2 ^ 32 }
    ensures seats { IfOk result (λ r. r.0.items ≡ map (λ w. w.0) worked.items) }
    ensures added { IfOk result (λ r. r.1 ≡ total (λ w. w.1) worked.items) }
{
    let mut seats = Vec::new(alloc);
    let mut all = 0;
    for one in worked {
        let (seat, added) = one;
        seats.push(seat)?;
        all += u64::from(added);
    }
    Ok((seats, all))
}

/// Splits off so many seats, each of which makes that many turns in a thread of its own, and joins them. Answers how many
/// readings were added: behind the joins the first seat has seen these and its own, and nothing else.
fn add_by_many<R: Threads + Wait + Sync>(
    rt: &R,
    alloc: Global,
    store: &Store,
    first: &mut StoreSeat,
    threads: u32,
    turns: u32,
) -> Result<u64, NoMemory>
    requires seat { IsSeatOf store.now first.old × IsAtRest first.old × IsFirst first.old }
    requires none { split_off first.old ≡ 0 }
    requires some { 1 ≤ threads }
    requires room { seats_out first.old + threads ≤ most_seats store.now }
    ensures seat { IsSeatOf store.now first.new × IsAtRest first.new × IsFirst first.new }
    ensures all { IfOk result (λ added. length (seen first.new) ≡ own_count first.old + added) }
{
    let seats = store.split_many(alloc, first, threads)?;
    let worked = add_in_threads(rt, alloc, store, seats, turns)?;
    let (seats, added) = gathered(alloc, worked)?;
    store.join_all(first, seats);
    Ok(added)
}

/// How much that many threads of that many turns each have added, and the last number behind them.
fn last_by_many<R: Threads + Wait + Sync>(
    rt: &R,
    alloc: Global,
    store: &Store,
    first: &mut StoreSeat,
    threads: u32,
    turns: u32,
) -> Result<(u64, u64), NoMemory>
    requires seat { IsSeatOf store.now first.old × IsAtRest first.old × IsFirst first.old }
    requires none { split_off first.old ≡ 0 }
    requires some { 1 ≤ threads }
    requires room { seats_out first.old + threads ≤ most_seats store.now }
{
    let added = add_by_many(rt, alloc, store, first, threads, turns)?;
    Ok((added, last_cut(rt, alloc, store, first)?))
}

/// The same over a store of its own.
pub(crate) fn many_threads<R: Threads + Wait + Sync>(
    rt: &R,
    alloc: Global,
    threads: u32,
    turns: u32,
) -> Result<(u64, u64), NoMemory>
    requires { (1 ≤ threads) × (threads + 1 < 2 ^ 32) }
{
    let (store, mut first) = opened(rt, alloc, threads + 1)?;
    last_by_many(rt, alloc, &store, &mut first, threads, turns)
}
