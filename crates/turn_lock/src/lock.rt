//! The lock, its seats and their turns.
//!
//! Contracts speak of one list of entries, which grows by the entries of each turn, in the order in which turns end.
//! Each entry stands beside the number of the seat whose turn added it. A seat knows a beginning of that list: what it
//! had seen at its last turn. What the entries are is up to the caller: where marks are to stand between them, the
//! entry's type is 'an entry or a mark', and a mark is numbered and ordered as any other entry.
ghost use Rattle.std.specs.Prelude.{◌≡◌};
ghost use Rattle.turn_lock.specs.Seats.{IsSized, seats_counted};

use crate::board::{Law, Stands, Terms, View};
use crate::plays::{Adds, Says};
use crate::steps;
use crate::waiting::Sleepers;
use atomic_table::{Seat, Table};
use osq_value::NoMemory;
use std::alloc::Global;
use std::marker::Brand;
use std::snapshot::Snapshot;
use std::sync::Wait;

/// A lock round a value, which serves its seats in the order of the tickets that they draw.
///
/// It knows the start from which the value stands for the entries of all turns, and how many seats may be out at once.
#[derive(Drop)]
pub struct TurnLock<T: Stands> {
    table: Table<Option<T>, View<T::Start, T::Entry>, Terms<T::Start>, Law<T>, Global>,
    seats: u32,
    sleepers: Sleepers,
    ghost sized: { IsSized table.shared.table_id },
    ghost most: { seats ≡ table.shared.key.seats },
}

/// The right to take turns at one lock, with a number of its own and the list of entries that its owner has seen.
///
/// The first seat has the number 0, and the k-th seat that it splits off has the number k. The first seat alone splits
/// and joins. It keeps how many seats it split off, and the numbers of those that were joined into it. A seat is in
/// turn from `TurnLock::turn` to `TurnLock::pass`, and at rest otherwise.
#[derive(Drop)]
pub struct TurnSeat<T: Stands> {
    seat: Seat<Option<T>, View<T::Start, T::Entry>>,
    out: u32,
    ghost counted: { seats_counted out seat },
}

// It can be let go in this file alone, so that a turn is spent by `pass` alone.
struct Owed;

/// A turn, which holds the lock's value. It cannot be let go of: `TurnLock::pass` ends it.
pub struct Turn<T> {
    /// The value, to be changed in place.
    pub value: T,
    owed: Owed,
}

impl<T: Stands> TurnLock<T> {
    ghost use Rattle.std.specs.Prelude.{◌≡◌, ◌≢◌, ◌+◌, ◌<◌, ◌≤◌, ◌++◌, ◌∷◌, ◌⊎◌, [], IfOk, OnOk, OnErr};
    ghost use Rattle.std.specs.List.{All};
    ghost use Rattle.turn_lock.specs.Turns.{Grows, entries, stamp};
    ghost use Rattle.turn_lock.specs.Words.{start_of, most_seats, number, seen, split_off, joined, seats_out, IsFirst, IsAtRest, IsInTurn, IsSeatOf, IsSame, Overhears};

    /// A lock round the value, and its first seat, which has seen the empty list.
    ///
    /// The value stands for the empty list from `start`, which is kept for contracts alone and has no bytes. At most
    /// `seats` seats may be out at once, the first one among them. Where memory is wanting the value is dropped.
    pub fn make(
        alloc: Global,
        value: T,
        start: Snapshot<T::Start>,
        seats: u32,
    ) -> Result<(TurnLock<T>, TurnSeat<T>), NoMemory>
    where
        T: Drop,
        requires seats { 1 ≤ seats }
        requires stands { T.stands value start.value [] }
        ensures lock { IfOk result (λ r. (start_of r.0 ≡ start.value) × (most_seats r.0 ≡ seats)) }
        ensures seat { IfOk result (λ r. IsSeatOf r.0 r.1 × IsAtRest r.1) }
        ensures first { IfOk result (λ r. (number r.1 ≡ 0) × (split_off r.1 ≡ 0) × (joined r.1 ≡ []) × (seen r.1 ≡ [])) }
    {
        let terms = Terms { start, seats };
        let mut slots = Vec::new(alloc);
        let Ok(()) = slots.push(Some(value)) else {
            return Err(NoMemory);
        };
        let Ok((table, seat)) = Table::new(alloc, &[0, 0], slots, &terms) else {
            return Err(NoMemory);
        };
        let lock = TurnLock {
            table,
            seats,
            sleepers: Sleepers::none(),
        };
        Ok((lock, TurnSeat { seat, out: 1 }))
    }

    /// Waits for a turn.
    ///
    /// The value of the turn stands for a list that begins with the seat's own, and which the seat has then seen. No
    /// entry behind the seat's own list is its own, or that of a seat joined into it. Seen by the first seat, every
    /// number in it is that of a seat that was split off, or 0; where that seat alone is out, the list is exactly its
    /// own. Takes no memory.
    pub fn turn<R: Wait>(&self, rt: &R, seat: &mut TurnSeat<T>) -> Turn<T>
        requires lock { IsSeatOf self.now seat.old }
        requires rest { IsAtRest seat.old }
        ensures seat { IsSame seat.old seat.new × IsInTurn seat.new }
        ensures seen { Overhears seat.old seat.new }
        ensures stands { T.stands result.value (start_of self.now) (entries (seen seat.new)) }
        ensures numbered { IsFirst seat.old → All (λ x. x.0 ≤ split_off seat.old) (seen seat.new) }
        ensures alone { IsFirst seat.old → seats_out seat.old ≡ 1 → seen seat.new ≡ seen seat.old }
    {
        Turn {
            value: steps::take_turn(rt, &self.table.shared, &self.sleepers, &mut seat.seat),
            owed: Owed,
        }
    }

    /// Ends a turn, whose entries are those that `said` says. It has no bytes.
    ///
    /// The value has to stand for the list that the seat has seen, followed by these entries. The seat has then seen
    /// them too, under its own number. Takes no memory, and waits for nobody.
    pub fn pass<X: Says<T::Entry>>(&self, seat: &mut TurnSeat<T>, turn: Turn<T>, said: Snapshot<X>)
        requires lock { IsSeatOf self.now seat.old }
        requires turn { IsInTurn seat.old }
        requires stands { T.stands turn.value (start_of self.now) (entries (seen seat.old) ++ X.says said.value) }
        ensures seat { IsSame seat.old seat.new × IsAtRest seat.new }
        ensures seen { seen seat.new ≡ seen seat.old ++ stamp (number seat.old) (X.says said.value) }
    {
        let Turn { value, owed: Owed } = turn;
        self.pass_as::<Brand, X>(seat, value, said);
        self.sleepers.wake(&self.table.shared);
    }

    // B has the entries, as a name of the type that each call picks.
    fn pass_as<B: Adds<T::Entry>, X: Says<T::Entry>>(
        &self,
        seat: &mut TurnSeat<T>,
        value: T,
        said: Snapshot<X>,
    )
        requires lock { IsSeatOf self.now seat.old }
        requires turn { IsInTurn seat.old }
        requires says { B.added ≡ X.says said.value }
        requires stands { T.stands value (start_of self.now) (entries (seen seat.old) ++ B.added) }
        ensures seat { IsSame seat.old seat.new × IsAtRest seat.new }
        ensures seen { seen seat.new ≡ seen seat.old ++ stamp (number seat.old) B.added }
    {
        let _said = said;
        steps::end_turn::<T, B>(&self.table.shared, &mut seat.seat, value);
    }

    /// A new seat, which has seen what the first one has, and whose number no entry of that list has.
    ///
    /// The seat is the first one, and fewer seats are out than the lock was made for. Waits for nobody. Where memory is
    /// wanting, the seat is as before.
    pub fn split(&self, seat: &mut TurnSeat<T>) -> Result<TurnSeat<T>, NoMemory>
        requires lock { IsSeatOf self.now seat.old }
        requires rest { IsAtRest seat.old }
        requires first { IsFirst seat.old }
        requires room { seats_out seat.old < most_seats self.now }
        ensures seat { IsSeatOf self.now seat.new × IsAtRest seat.new × IsFirst seat.new }
        ensures counts { OnOk result ((split_off seat.new ≡ split_off seat.old + 1) × (joined seat.new ≡ joined seat.old) × (seen seat.new ≡ seen seat.old)) }
        ensures out { OnOk result (seats_out seat.new ≡ seats_out seat.old + 1) }
        ensures new { IfOk result (λ s. IsSeatOf self.now s × IsAtRest s) }
        ensures same { IfOk result (λ s. (number s ≡ split_off seat.new) × (seen s ≡ seen seat.old)) }
        ensures fresh { IfOk result (λ s. All (λ x. x.0 ≢ number s) (seen s)) }
        ensures refused { OnErr result (seat.new ≡ seat.old) }
    {
        let _most = self.seats;
        let place = steps::split(&self.table.shared, &mut seat.seat);
        seat.out += 1;
        Ok(TurnSeat {
            seat: place,
            out: 0,
        })
    }

    /// How many seats are out, by the first seat: itself and those that it split off and that were not joined.
    pub fn seats_out(&self, seat: &TurnSeat<T>) -> u32
        requires { IsFirst seat.now }
        ensures { result ≡ seats_out seat.now }
    {
        seat.out
    }

    /// The first seat takes in another and its number, and has then seen the longer of the two lists, which begins with
    /// the shorter one.
    ///
    /// No entry of it behind the other's list has the other's number, and none behind the first seat's has the number
    /// of the first seat or of one that was joined before. Takes no memory, and waits for nobody.
    pub fn join(&self, seat: &mut TurnSeat<T>, other: TurnSeat<T>)
        requires lock { IsSeatOf self.now seat.old × IsSeatOf self.now other }
        requires rest { IsAtRest seat.old × IsAtRest other }
        requires first { IsFirst seat.old × (number other ≢ 0) }
        ensures seat { IsSeatOf self.now seat.new × IsAtRest seat.new × IsFirst seat.new }
        ensures counts { (split_off seat.new ≡ split_off seat.old) × (joined seat.new ≡ number other ∷ joined seat.old) }
        ensures out { seats_out seat.old ≡ seats_out seat.new + 1 }
        ensures one { (seen seat.new ≡ seen seat.old) ⊎ (seen seat.new ≡ seen other) }
        ensures own { Overhears seat.old seat.new }
        ensures theirs { Grows (λ n. n ≢ number other) (seen other) (seen seat.new) }
        ensures numbered { All (λ x. x.0 ≤ split_off seat.new) (seen seat.new) }
    {
        let TurnSeat {
            seat: place,
            out: _,
        } = other;
        steps::join(&self.table.shared, &mut seat.seat, place);
        seat.out -= 1;
    }

    /// The value, which stands for exactly the list that the first seat has seen. That seat alone is out.
    ///
    /// Takes no memory, and waits for nobody.
    pub fn close(self, seat: TurnSeat<T>) -> T
        requires lock { IsSeatOf self seat }
        requires rest { IsAtRest seat }
        requires first { IsFirst seat }
        requires alone { seats_out seat ≡ 1 }
        ensures { T.stands result (start_of self) (entries (seen seat)) }
    {
        let TurnLock {
            table,
            seats: _,
            sleepers: _,
        } = self;
        let TurnSeat { seat, out: _ } = seat;
        let mut closed = table.close_with(seat);
        let last = closed.take(0);
        closed.free();
        let Some(value) = last else { unreachable!() };
        value
    }
}
