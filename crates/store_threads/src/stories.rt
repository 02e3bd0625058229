//! Stories of one thread, with one seat or several. Each opens a store, and lends it to what happens.

ghost use Rattle.std.specs.Prelude.{◌≢◌, ◌+◌, ◌<◌, ◌≤◌};
ghost use Rattle.turn_lock.specs.Words.{number, seats_out, IsAtRest, IsFirst, IsSame};
ghost use Rattle.shared_store.specs.Words.{most_seats, IsSeatOf};

use crate::given::opened;
use crate::turns::{Outcome, add_one, answer_next, claimed, commit, last_cut};
use osq_value::{NoMemory, TableId, Tables};
use session_state::{AppendError, State, TickRefusal};
use shared_store::{Store, StoreSeat};
use std::alloc::Global;
use std::sync::Wait;

/// A cut by the first seat, behind which the second seat's is made and answered: what becomes of the second seat's, and of the first's.
fn answer_late<R: Wait>(
    rt: &R,
    alloc: Global,
    store: &Store,
    first: &mut StoreSeat,
    second: &mut StoreSeat,
) -> Result<[Outcome; 2], NoMemory>
    requires first { IsSeatOf store.now first.old × IsAtRest first.old }
    requires second { IsSeatOf store.now second.old × IsAtRest second.old }
{
    let cut = claimed(rt, alloc, store, first)?;
    let answered = answer_next(rt, alloc, store, second);
    let late = commit(rt, alloc, store, first, cut)?;
    Ok([answered?, late])
}

/// Two cuts of one query by two seats, which are then both answered.
fn cut_by_two<R: Wait>(
    rt: &R,
    alloc: Global,
    store: &Store,
    first: &mut StoreSeat,
) -> Result<[Outcome; 2], NoMemory>
    requires seat { IsSeatOf store.now first.old × IsAtRest first.old × IsFirst first.old }
    requires room { seats_out first.old < most_seats store.now }
{
    let mut second = store.split(first)?;
    answer_late(rt, alloc, store, first, &mut second)
}

/// Two cuts of one query by two seats, which are then both answered.
pub(crate) fn two_cuts<R: Wait>(rt: &R, alloc: Global) -> Result<[Outcome; 2], NoMemory> {
    let (store, mut first) = opened(rt, alloc, 2)?;
    cut_by_two(rt, alloc, &store, &mut first)
}

/// The second seat adds an event, and the first joins it and cuts: the last number of that cut.
fn cut_behind_join<R: Wait>(
    rt: &R,
    alloc: Global,
    store: &Store,
    first: &mut StoreSeat,
    mut second: StoreSeat,
) -> Result<u64, NoMemory>
    requires first { IsSeatOf store.now first.old × IsAtRest first.old × IsFirst first.old }
    requires second { IsSeatOf store.now second × IsAtRest second × (number second ≢ 0) }
    ensures { IsSeatOf store.now first.new × IsAtRest first.new × IsFirst first.new }
{
    let added = add_one(rt, alloc, store, &mut second, "a", 30);
    store.join(first, second);
    match added {
        Ok(_) => last_cut(rt, alloc, store, first),
        Err(_) => Err(NoMemory),
    }
}

/// The same while a third seat is out, which is joined last.
fn cut_beside_third<R: Wait>(
    rt: &R,
    alloc: Global,
    store: &Store,
    first: &mut StoreSeat,
) -> Result<u64, NoMemory>
    requires seat { IsSeatOf store.now first.old × IsAtRest first.old × IsFirst first.old }
    requires room { seats_out first.old + 2 ≤ most_seats store.now }
    ensures { IsFirst first.new }
{
    let second = store.split(first)?;
    let third = store.split(first)?;
    let last = cut_behind_join(rt, alloc, store, first, second);
    store.join(first, third);
    last
}

/// Of three seats the second adds an event, and the first joins it and cuts: the last number of that cut. And how many seats are out
/// when the third is joined too.
pub(crate) fn joined_cut<R: Wait>(rt: &R, alloc: Global) -> Result<(u64, u32), NoMemory> {
    let (store, mut first) = opened(rt, alloc, 3)?;
    let last = cut_beside_third(rt, alloc, &store, &mut first)?;
    Ok((last, store.seats_out(&first)))
}

/// Three readings by one seat, of which the second goes backwards.
fn add_backwards<R: Wait>(
    rt: &R,
    alloc: Global,
    store: &Store,
    seat: &mut StoreSeat,
) -> [Result<(u64, u64), AppendError>; 3]
    requires { IsSeatOf store.now seat.old × IsAtRest seat.old }
{
    let before = add_one(rt, alloc, store, seat, "a", 20);
    let refused = add_one(rt, alloc, store, seat, "a", 20);
    let after = add_one(rt, alloc, store, seat, "a", 21);
    [before, refused, after]
}

/// Three readings by one seat, of which the second goes backwards.
pub(crate) fn backwards<R: Wait>(
    rt: &R,
    alloc: Global,
) -> Result<[Result<(u64, u64), AppendError>; 3], NoMemory> {
    let (store, mut seat) = opened(rt, alloc, 1)?;
    Ok(add_backwards(rt, alloc, &store, &mut seat))
}

/// A tick while the query is due, and one behind its batch.
fn tick_twice<R: Wait>(
    rt: &R,
    alloc: Global,
    store: &Store,
    seat: &mut StoreSeat,
) -> Result<[Result<(), TickRefusal>; 2], NoMemory>
    requires { IsSeatOf store.now seat.old × IsAtRest seat.old }
{
    let refused = store.tick(rt, seat, 1060);
    answer_next(rt, alloc, store, seat)?;
    Ok([refused, store.tick(rt, seat, 1060)])
}

/// A tick while the query is due, and one behind its batch.
pub(crate) fn ticks<R: Wait>(
    rt: &R,
    alloc: Global,
) -> Result<[Result<(), TickRefusal>; 2], NoMemory> {
    let (store, mut seat) = opened(rt, alloc, 1)?;
    tick_twice(rt, alloc, &store, &mut seat)
}

/// How many entries the next tail has.
fn tail<R: Wait>(
    rt: &R,
    alloc: Global,
    store: &Store,
    seat: &mut StoreSeat,
) -> Result<usize, NoMemory>
    requires { IsSeatOf store.now seat.old × IsAtRest seat.old }
    ensures { IsSame seat.old seat.new × IsAtRest seat.new }
{
    let entries = store.take_tail(rt, alloc, seat)?;
    Ok(entries.len())
}

/// The lengths of three tails behind a batch, of which the second is taken at once and the third behind an acknowledgement.
fn take_tails<R: Wait>(
    rt: &R,
    alloc: Global,
    store: &Store,
    seat: &mut StoreSeat,
) -> Result<[usize; 3], NoMemory>
    requires { IsSeatOf store.now seat.old × IsAtRest seat.old }
{
    answer_next(rt, alloc, store, seat)?;
    let first = tail(rt, alloc, store, seat)?;
    let second = tail(rt, alloc, store, seat)?;
    store.acknowledge(rt, seat, 1)?;
    Ok([first, second, tail(rt, alloc, store, seat)?])
}

/// The lengths of three tails, of which the second is taken at once and the third behind an acknowledgement.
pub(crate) fn tails<R: Wait>(rt: &R, alloc: Global) -> Result<[usize; 3], NoMemory> {
    let (store, mut seat) = opened(rt, alloc, 1)?;
    take_tails(rt, alloc, &store, &mut seat)
}

/// How many rows of the table of events are shown.
fn shown<R: Wait>(
    rt: &R,
    alloc: Global,
    store: &Store,
    seat: &mut StoreSeat,
) -> Result<usize, NoMemory>
    requires { IsSeatOf store.now seat.old × IsAtRest seat.old }
    ensures { IsSame seat.old seat.new × IsAtRest seat.new }
{
    let view = store.tables_view(rt, alloc, seat, 1000)?;
    Ok(view.count(TableId::FILE_EVENTS))
}

/// What expires, and how many rows of the table of events are shown.
fn expire<R: Wait>(
    rt: &R,
    alloc: Global,
    store: &Store,
    seat: &mut StoreSeat,
) -> Result<(u32, usize), NoMemory>
    requires { IsSeatOf store.now seat.old × IsAtRest seat.old }
    ensures { IsSame seat.old seat.new × IsAtRest seat.new }
{
    let expired = store.expire(rt, seat)?;
    Ok((expired, shown(rt, alloc, store, seat)?))
}

/// How many entries a state's tail has.
fn left(alloc: Global, state: &mut State) -> Result<usize, NoMemory> {
    let entries = state.take_tail(alloc)?;
    Ok(entries.len())
}

/// What expires, how many rows of the table of events are shown, and how many entries the closed state has.
pub(crate) fn closed<R: Wait>(rt: &R, alloc: Global) -> Result<(u32, usize, usize), NoMemory> {
    let (store, mut seat) = opened(rt, alloc, 1)?;
    let (expired, shown) = expire(rt, alloc, &store, &mut seat)?;
    let mut state = store.close(seat);
    Ok((expired, shown, left(alloc, &mut state)?))
}
