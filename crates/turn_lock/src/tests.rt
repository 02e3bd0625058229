ghost use Rattle.std.specs.Prelude.{◌≡◌, ◌≢◌, ◌+◌, ◌++◌, ◌*◌, ◌^◌, ◌<◌, [], ◌∷◌, length, replicate, IfOk};
ghost use Rattle.turn_lock.specs.Own.{own};
ghost use Rattle.turn_lock.specs.Words.{number, seen, IsSeatOf, IsFirst, IsAtRest, IsSame};

use crate::{Says, Stands, TurnLock, TurnSeat};
use osq_value::NoMemory;
use std::alloc::Global;
use std::snapshot::Snapshot;
use std::sync::Wait;
use std::test::*;
use std::thread::{Threads, join};

// How many entries there are, modulo 2^64.
#[derive(Drop)]
struct Tally {
    count: u64,
}

impl Stands for Tally {
    ghost use Rattle.std.specs.Prelude.{◌≡◌, ◌%◌, ◌^◌, length};

    type Start = ();

    type Entry = u64;

    ghost stands = { λ t _ es. t.count ≡ length es % 2 ^ 64 };
}

#[derive(Clone, Copy)]
struct One(u64);

impl Says<u64> for One {
    ghost use Rattle.std.specs.Prelude.{[], ◌∷◌};

    ghost says = { λ x. x.0 ∷ [] };
}

// One turn, which adds an entry.
fn count_one<R: Wait>(rt: &R, lock: &TurnLock<Tally>, seat: &mut TurnSeat<Tally>, entry: u64)
    requires { IsSeatOf lock.now seat.old × IsAtRest seat.old }
    ensures seat { IsSame seat.old seat.new × IsAtRest seat.new }
    ensures own { own (number seat.old) (seen seat.new) ≡ own (number seat.old) (seen seat.old) ++ entry ∷ [] }
{
    let mut turn = lock.turn(rt, seat);
    turn.value.count = turn.value.count.wrapping_add(1);
    lock.pass(seat, turn, Snapshot::of(&One(entry)));
}

// That many turns, each of which adds an entry.
fn take_turns<R: Wait>(
    rt: &R,
    lock: &TurnLock<Tally>,
    mut seat: TurnSeat<Tally>,
    turns: u64,
) -> TurnSeat<Tally>
    requires { IsSeatOf lock.now seat × IsAtRest seat }
    ensures seat { IsSame seat result × IsAtRest result }
    ensures own { own (number seat) (seen result) ≡ own (number seat) (seen seat) ++ replicate turns 1 }
{
    for i in 0..turns {
        count_one(rt, lock, &mut seat, 1);
    }
    seat
}

// Two seats take that many turns each, in two threads.
fn take_both<R: Threads + Wait + Sync>(
    rt: &R,
    lock: &TurnLock<Tally>,
    one: TurnSeat<Tally>,
    two: TurnSeat<Tally>,
    turns: u64,
) -> (TurnSeat<Tally>, TurnSeat<Tally>)
    requires one { IsSeatOf lock.now one × IsAtRest one }
    requires two { IsSeatOf lock.now two × IsAtRest two }
    ensures first { IsSame one result.0 × IsAtRest result.0 × (own (number one) (seen result.0) ≡ own (number one) (seen one) ++ replicate turns 1) }
    ensures second { IsSame two result.1 × IsAtRest result.1 × (own (number two) (seen result.1) ≡ own (number two) (seen two) ++ replicate turns 1) }
{
    join(
        rt,
        || -> TurnSeat<Tally>
            requires { IsSeatOf lock.now one × IsAtRest one }
            ensures { IsSame one result × IsAtRest result × (own (number one) (seen result) ≡ own (number one) (seen one) ++ replicate turns 1) }
        { take_turns(rt, lock, one, turns) },
        || -> TurnSeat<Tally>
            requires { IsSeatOf lock.now two × IsAtRest two }
            ensures { IsSame two result × IsAtRest result × (own (number two) (seen result) ≡ own (number two) (seen two) ++ replicate turns 1) }
        { take_turns(rt, lock, two, turns) },
    )
}

// Two threads take that many turns each. Each turn is counted.
fn two_threads<R: Threads + Wait + Sync>(rt: &R, alloc: Global, turns: u64) -> Result<u64, NoMemory>
    requires { turns < 2 ^ 32 }
    ensures { IfOk result (λ n. n ≡ 2 * turns) }
{
    let (lock, mut first) = TurnLock::make(alloc, Tally { count: 0 }, Snapshot::of(&()), 3)?;
    let one = lock.split(&mut first)?;
    let two = lock.split(&mut first)?;
    let (one, two) = take_both(rt, &lock, one, two, turns);
    lock.join(&mut first, one);
    lock.join(&mut first, two);
    let Tally { count } = lock.close(first);
    Ok(count)
}

// Four threads take that many turns each.
fn four_threads<R: Threads + Wait + Sync>(
    rt: &R,
    alloc: Global,
    turns: u64,
) -> Result<u64, NoMemory> {
    let (lock, mut first) = TurnLock::make(alloc, Tally { count: 0 }, Snapshot::of(&()), 5)?;
    let one = lock.split(&mut first)?;
    let two = lock.split(&mut first)?;
    let three = lock.split(&mut first)?;
    let four = lock.split(&mut first)?;
    let ((one, two), (three, four)) = join(
        rt,
        || -> (TurnSeat<Tally>, TurnSeat<Tally>)
            requires { IsSeatOf lock one × IsAtRest one × IsSeatOf lock two × IsAtRest two }
            ensures { IsSame one result.0 × IsAtRest result.0 × IsSame two result.1 × IsAtRest result.1 }
        { take_both(rt, &lock, one, two, turns) },
        || -> (TurnSeat<Tally>, TurnSeat<Tally>)
            requires { IsSeatOf lock three × IsAtRest three × IsSeatOf lock four × IsAtRest four }
            ensures { IsSame three result.0 × IsAtRest result.0 × IsSame four result.1 × IsAtRest result.1 }
        { take_both(rt, &lock, three, four, turns) },
    );
    lock.join(&mut first, four);
    lock.join(&mut first, two);
    lock.join(&mut first, three);
    lock.join(&mut first, one);
    let Tally { count } = lock.close(first);
    Ok(count)
}

// How many seats are out before, during and after the life of a second seat, and the count after three turns.
fn one_thread<R: Wait>(rt: &R, alloc: Global) -> Result<([u32; 3], u64), NoMemory> {
    let (lock, mut first) = TurnLock::make(alloc, Tally { count: 0 }, Snapshot::of(&()), 2)?;
    let before = lock.seats_out(&first);
    let mut second = lock.split(&mut first)?;
    let during = lock.seats_out(&first);
    count_one(rt, &lock, &mut first, 7);
    count_one(rt, &lock, &mut second, 8);
    lock.join(&mut first, second);
    count_one(rt, &lock, &mut first, 9);
    let after = lock.seats_out(&first);
    let Tally { count } = lock.close(first);
    Ok(([before, during, after], count))
}

#[test]
fn counts_each_turn_of_two_threads(rt: HostRuntime) -> Result<(), Fail> {
    let count = two_threads(&rt, rt.alloc(), 1000).or(Err("memory"))?;
    assert_eq!(rt; count, 2000);
    Ok(())
}

#[test]
fn counts_each_turn_of_four_threads(rt: HostRuntime) -> Result<(), Fail> {
    let count = four_threads(&rt, rt.alloc(), 1000).or(Err("memory"))?;
    assert_eq!(rt; count, 4000);
    Ok(())
}

#[test]
fn hands_the_entries_on(rt: HostRuntime) -> Result<(), Fail> {
    let (out, count) = one_thread(&rt, rt.alloc()).or(Err("memory"))?;
    assert_eq!(rt; out, [1, 2, 1]);
    assert_eq!(rt; count, 3);
    Ok(())
}
