//! Many seats at once.

ghost use Rattle.std.specs.Prelude.{◌≡◌, ◌≢◌, ◌+◌, ◌<◌, ◌≤◌, ◌++◌, ◌∷◌, [], IfOk, OnOk, OnErr, Contains, length, map, reverse, vec_capacity};
ghost use Rattle.std.specs.List.{All, range_with_len};
ghost use Rattle.turn_lock.specs.Turns.{Grows};
ghost use Rattle.turn_lock.specs.Words.{number, seen, split_off, joined, seats_out, IsAtRest, IsFirst, Overhears};
ghost use Rattle.shared_store.specs.Words.{most_seats, IsSeatOf};
ghost use Rattle.shared_store.specs.Seats.{IsSplitFrom};

use crate::store::{Store, StoreSeat};
use osq_value::NoMemory;
use std::alloc::Global;

impl Store {
    /// Splits off so many seats, whose numbers follow one another. Each has seen what the first one has.
    ///
    /// The seat is the first one, and with the new ones no more are out than the store was opened for. Waits for nobody. Where
    /// memory is wanting, as many seats are out as before.
    pub fn split_many(
        &self,
        alloc: Global,
        seat: &mut StoreSeat,
        count: u32,
    ) -> Result<Vec<StoreSeat>, NoMemory>
        requires seat { IsSeatOf self.now seat.old }
        requires rest { IsAtRest seat.old }
        requires first { IsFirst seat.old }
        requires room { seats_out seat.old + count ≤ most_seats self.now }
        ensures seat { IsSeatOf self.now seat.new × IsAtRest seat.new × IsFirst seat.new }
        ensures seen { seen seat.new ≡ seen seat.old }
        ensures counts { OnOk result ((split_off seat.new ≡ split_off seat.old + count) × (joined seat.new ≡ joined seat.old) × (seats_out seat.new ≡ seats_out seat.old + count)) }
        ensures numbers { IfOk result (λ seats. map number seats.items ≡ range_with_len (split_off seat.old + 1) count) }
        ensures new { IfOk result (λ seats. All (IsSplitFrom self.now seat.old) seats.items) }
        ensures refused { OnErr result (seats_out seat.new ≡ seats_out seat.old) }
    {
        let mut seats = Vec::with_capacity(alloc, count as usize)?;
        match self.split_into(seat, &mut seats, count) {
            Ok(()) => Ok(seats),
            Err(NoMemory) => {
                self.join_all(seat, seats);
                Err(NoMemory)
            }
        }
    }

    /// Splits off so many seats, or where memory is wanting fewer, and puts them where there is room for them.
    fn split_into(
        &self,
        seat: &mut StoreSeat,
        seats: &mut Vec<StoreSeat>,
        count: u32,
    ) -> Result<(), NoMemory>
        requires seat { IsSeatOf self.now seat.old × IsAtRest seat.old × IsFirst seat.old }
        requires room { seats_out seat.old + count ≤ most_seats self.now }
        requires none { seats.old.items ≡ [] }
        requires reserved { count ≤ vec_capacity seats.old }
        ensures seat { IsSeatOf self.now seat.new × IsAtRest seat.new × IsFirst seat.new }
        ensures seen { seen seat.new ≡ seen seat.old }
        ensures counts { (split_off seat.new ≡ split_off seat.old + length seats.new.items) × (joined seat.new ≡ joined seat.old) × (seats_out seat.new ≡ seats_out seat.old + length seats.new.items) }
        ensures numbers { map number seats.new.items ≡ range_with_len (split_off seat.old + 1) (length seats.new.items) }
        ensures new { All (IsSplitFrom self.now seat.old) seats.new.items }
        ensures all { OnOk result (length seats.new.items ≡ count) }
    {
        for _ in 0..count {
            let split = self.split(seat)?;
            seats.push_reserved(split);
        }
        Ok(())
    }

    /// The first seat takes in these, one after another, and their numbers. It has then seen the longest of all their lists,
    /// which begins with each of them.
    ///
    /// Nothing of it behind the list of one of them has that one's number, and nothing behind the first seat's has the number
    /// of the first seat or of one that was joined before. Takes no memory, and waits for nobody.
    pub fn join_all(&self, seat: &mut StoreSeat, others: Vec<StoreSeat>)
        requires seats { IsSeatOf self.now seat.old × All (IsSeatOf self.now) others.items }
        requires rest { IsAtRest seat.old × All IsAtRest others.items }
        requires first { IsFirst seat.old × All (λ s. number s ≢ 0) others.items }
        ensures seat { IsSeatOf self.now seat.new × IsAtRest seat.new × IsFirst seat.new }
        ensures counts { (split_off seat.new ≡ split_off seat.old) × (joined seat.new ≡ reverse (map number others.items) ++ joined seat.old) }
        ensures out { seats_out seat.old ≡ seats_out seat.new + length others.items }
        ensures one { Contains (seen seat.old ∷ map seen others.items) (seen seat.new) }
        ensures own { Overhears seat.old seat.new }
        ensures theirs { All (λ s. Grows (λ n. n ≢ number s) (seen s) (seen seat.new)) others.items }
        ensures numbered { 0 < length others.items → All (λ x. x.0 ≤ split_off seat.new) (seen seat.new) }
    {
        for other in others {
            self.join(seat, other);
        }
    }
}
