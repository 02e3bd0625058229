//! The steps of a seat on the table behind the lock.
ghost use Rattle.std.specs.Prelude.{◌≡◌, ◌≢◌, ◌+◌, ◌<◌, ◌≤◌, ◌++◌, ◌∷◌, ◌⊎◌, [], length, Some, None, MatchBool};
ghost use Rattle.std.specs.List.{All};
ghost use Rattle.turn_lock.specs.declared.board.Phase.TheVariants.{Idle, Joined};
ghost use Rattle.turn_lock.specs.Turns.{Grows, Told, Served, entries, stamp, left_of, right_of, both_of};
ghost use Rattle.turn_lock.specs.Seats.{IsSized, IsSeatOf, IsAtRest, IsInTurn, IsSame, Overhears, WaitsFor, Differs, seen, number, given, joined};

use crate::board::{Law, NEXT, SERVED, Stands, Terms, View};
use crate::plays::{Adds, Cut, Draw, Glue, Learn, Look, Pass};
use crate::waiting::{LOOKS, Sleepers};
use atomic_table::{Seat, Shared};
use std::hint::spin_loop;
use std::sync::Wait;

pub(crate) type Board<T> = Shared<
    Option<T>,
    View<<T as Stands>::Start, <T as Stands>::Entry>,
    Terms<<T as Stands>::Start>,
    Law<T>,
>;

pub(crate) type Place<T> = Seat<Option<T>, View<<T as Stands>::Start, <T as Stands>::Entry>>;

// Whether the seat's ticket is served. Where it is, the seat is in turn.
fn look<T: Stands>(board: &Board<T>, place: &mut Place<T>, ticket: u64) -> bool
    requires table { IsSized board.now.table_id × (place.old.table_id ≡ board.now.table_id) }
    requires waits { WaitsFor ticket place.old }
    ensures seat { (place.new.table_id ≡ place.old.table_id) × (place.new.id ≡ place.old.id) }
    ensures served { MatchBool result (Served T.stands place.old.me place.new.me) (place.new.me ≡ place.old.me) }
{
    board.load::<Look<T>>(place, SERVED) == ticket
}

// Looks a few times, until the seat's ticket is served.
fn look_often<T: Stands>(board: &Board<T>, place: &mut Place<T>, ticket: u64) -> bool
    requires table { IsSized board.now.table_id × (place.old.table_id ≡ board.now.table_id) }
    requires waits { WaitsFor ticket place.old }
    ensures seat { (place.new.table_id ≡ place.old.table_id) × (place.new.id ≡ place.old.id) }
    ensures served { MatchBool result (Served T.stands place.old.me place.new.me) (place.new.me ≡ place.old.me) }
{
    for _ in 0..LOOKS {
        if look(board, place, ticket) {
            return true;
        }
        spin_loop();
    }
    false
}

// Waits until the seat's ticket is served.
fn wait<T: Stands, R: Wait>(
    rt: &R,
    board: &Board<T>,
    sleepers: &Sleepers,
    place: &mut Place<T>,
    ticket: u64,
)
    requires table { IsSized board.now.table_id × (place.old.table_id ≡ board.now.table_id) }
    requires waits { WaitsFor ticket place.old }
    ensures seat { (place.new.table_id ≡ place.old.table_id) × (place.new.id ≡ place.old.id) }
    ensures served { Served T.stands place.old.me place.new.me }
{
    for _ in rt.forever() {
        if look_often(board, place, ticket) {
            return;
        }
        let served = board.peek(SERVED);
        if served != ticket {
            sleepers.sleep(rt, board, served);
        }
    }
    unreachable!()
}

// Draws the next ticket.
fn draw<T: Stands>(board: &Board<T>, place: &mut Place<T>) -> u64
    requires table { IsSized board.now.table_id × (place.old.table_id ≡ board.now.table_id) }
    requires rest { IsAtRest place.old }
    ensures seat { (place.new.table_id ≡ place.old.table_id) × (place.new.id ≡ place.old.id) }
    ensures waits { WaitsFor result place.new }
    ensures view { Differs place.old.me.0 place.new.me.0 }
{
    board.fetch_add::<Draw>(place, NEXT, 1)
}

// Draws a ticket, waits until it is served, and takes the value.
pub(crate) fn take_turn<T: Stands, R: Wait>(
    rt: &R,
    board: &Board<T>,
    sleepers: &Sleepers,
    place: &mut Place<T>,
) -> T
    requires table { IsSized board.now.table_id × IsSeatOf board.now.table_id board.now.key.start.value place.old }
    requires rest { IsAtRest place.old }
    ensures seat { IsSame place.old place.new × IsInTurn place.new }
    ensures seen { Overhears place.old place.new }
    ensures stands { T.stands result board.now.key.start.value (entries (seen place.new)) }
    ensures numbered { number place.old ≡ 0 → All (λ x. x.0 ≤ given place.old) (seen place.new) }
    ensures alone { number place.old ≡ 0 → length (joined place.old) ≡ given place.old → seen place.new ≡ seen place.old }
{
    sleepers.await_quiet(rt, board);
    let ticket = draw(board, place);
    wait(rt, board, sleepers, place, ticket);
    let Some(value) = board.exchange(place, 0, None) else {
        unreachable!()
    };
    value
}

// Gives the value back, and serves the next ticket.
pub(crate) fn end_turn<T: Stands, B: Adds<T::Entry>>(
    board: &Board<T>,
    place: &mut Place<T>,
    value: T,
)
    requires table { IsSized board.now.table_id × IsSeatOf board.now.table_id board.now.key.start.value place.old }
    requires turn { IsInTurn place.old }
    requires stands { T.stands value board.now.key.start.value (entries (seen place.old) ++ B.added) }
    ensures seat { IsSame place.old place.new × IsAtRest place.new }
    ensures seen { seen place.new ≡ seen place.old ++ stamp (number place.old) B.added }
{
    let vacant = board.exchange(place, 0, Some(value));
    let None = vacant else { unreachable!() };
    board.fetch_add::<Pass<B>>(place, SERVED, 1);
}

// What the rule says of a seat at rest.
pub(crate) fn learn<T: Stands>(board: &Board<T>, place: &mut Place<T>)
    requires table { IsSized board.now.table_id × IsSeatOf board.now.table_id board.now.key.start.value place.old }
    requires rest { IsAtRest place.old }
    ensures { (place.new.table_id ≡ place.old.table_id) × (place.new.id ≡ place.old.id) × (place.new.me ≡ place.old.me) × Told place.old.me.0 }
{
    board.load::<Learn>(place, SERVED);
}

// The new seat has seen what the first one has, and the next number.
pub(crate) fn split<T: Stands>(board: &Board<T>, place: &mut Place<T>) -> Place<T>
    requires table { IsSized board.now.table_id × IsSeatOf board.now.table_id board.now.key.start.value place.old }
    requires rest { IsAtRest place.old }
    requires first { number place.old ≡ 0 }
    requires room { given place.old + 1 < board.now.key.seats + length (joined place.old) }
    ensures kept { (place.new.table_id ≡ place.old.table_id) × (place.new.id ≡ place.old.id) × (place.new.me ≡ (left_of place.old.me.0, [])) }
    ensures new { (result.table_id ≡ place.old.table_id) × (result.me ≡ (right_of place.old.me.0, [])) }
    ensures fresh { All (λ x. x.0 ≤ given place.old) (seen place.old) }
{
    learn(board, place);
    board.split_seat::<Cut>(place)
}

// The first seat takes in the other, and has then seen the longer of the two lists.
pub(crate) fn join<T: Stands>(board: &Board<T>, place: &mut Place<T>, other: Place<T>)
    requires table { IsSized board.now.table_id × IsSeatOf board.now.table_id board.now.key.start.value place.old × IsSeatOf board.now.table_id board.now.key.start.value other }
    requires rest { IsAtRest place.old × IsAtRest other }
    requires first { (number place.old ≡ 0) × (number other ≢ 0) }
    ensures kept { (place.new.table_id ≡ place.old.table_id) × (place.new.id ≡ place.old.id) × (place.new.me ≡ (record (both_of place.old.me.0 other.me.0) { phase = Idle }, [])) }
    ensures told { Told (both_of place.old.me.0 other.me.0) }
    ensures one { (seen place.new ≡ seen place.old) ⊎ (seen place.new ≡ seen other) }
    ensures own { Overhears place.old place.new }
    ensures theirs { Grows (λ n. n ≢ number other) (seen other) (seen place.new) }
    ensures few { length (joined place.old) < given place.old }
    ensures numbered { All (λ x. x.0 ≤ given place.new) (seen place.new) }
{
    board.join_seat::<Glue>(place, other);
    board.load::<Learn>(place, SERVED);
}
