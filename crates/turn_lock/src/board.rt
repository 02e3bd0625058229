//! The table behind the lock, and what a seat at it knows.
//! The one slot has the value, but for the turns.
use atomic_table::TableRule;
use std::collections::LinkedList;
use std::marker::PhantomData;
use std::snapshot::Snapshot;

/// The word that is the next ticket to be drawn.
pub(crate) const NEXT: usize = 0;

/// The word that is the ticket served.
pub(crate) const SERVED: usize = 1;

/// A value that stands for a list of entries from a start. `stands` says whether it does.
pub trait Stands {
    ghost use Rattle.std.specs.Prelude.{List};

    /// What the value stands for before any entry.
    type Start;

    /// What a turn may add.
    type Entry;

    /// Whether the value stands for these entries from this start.
    ghost stands: { Self → Self.Start → List Self.Entry → Type 0 };
}

/// Where a seat stands between two turns.
pub enum Phase {
    /// It has drawn no ticket.
    Idle,
    /// It is the first seat, between the two steps of a join.
    Joined,
    /// It has drawn the ticket of this number, which isn't served yet.
    Waits(u64),
    /// It has the value, and has seen all entries.
    InTurn,
    /// Nothing is known of it any more.
    Spent,
}

/// What a seat knows. No value of it is made.
pub struct View<A, E> {
    /// What the lock's value stood for at first.
    pub start: Option<A>,
    /// The seat's number: 0 of the first seat, k of the k-th that it split off.
    pub number: u64,
    /// Where the seat stands.
    pub phase: Phase,
    /// The entries that its owner has seen, each with the number of the seat that added it.
    pub seen: LinkedList<(u64, E)>,
    /// Of the first seat: how many it split off.
    pub given: u64,
    /// Of the first seat: the numbers of those that were joined into it, the last one first.
    pub joined: LinkedList<u64>,
    /// Between the two steps of a join: what the first seat had seen, and what the other one had.
    pub before: LinkedList<(u64, E)>,
    /// What the other seat had seen, between the two steps of a join.
    pub heard: LinkedList<(u64, E)>,
}

/// What the lock is told once: the start, and how many seats may be out.
pub struct Terms<A> {
    /// What the lock's value stood for at first.
    pub start: Snapshot<A>,
    /// How many seats may be out at once, the first among them.
    pub seats: u32,
}

impl<A> Drop for Terms<A> {
    fn drop(self) {
        let Self { start: _, seats: _ } = self;
    }
}

/// The rule of the table of seats: what stands of all views and of the lock's value at each step.
pub struct Law<T> {
    value: PhantomData<T>,
}

impl<T: Stands> TableRule<Option<T>, View<T::Start, T::Entry>, Terms<T::Start>> for Law<T> {
    ghost use Rattle.turn_lock.specs.Turns.{Kept, first_view};

    ghost holds = { Kept T.stands };

    ghost first = { λ terms. first_view terms.start.value };
}
