//! The laws of a step that threads work on together, by the list of their store's lock.

ghost use Rattle.thread_laws.specs.Laws.{Alike, BySeats, Joins, NoneIntrudes, Numbers, OwnJoined, StayUndue, TimelyJoined};

/// Whichever seats saw a list, the states that stand for it behind one start are alike but for claims and room.
pub fn alike()
    ensures { Alike }
{}

/// Each entry of a step has the number of one of the step's seats, which differ.
pub fn numbers()
    ensures { Numbers }
{}

/// What a seat had added when its thread ended is what the joined list has under its number.
pub fn own_joined()
    ensures { OwnJoined }
{}

/// So it is of all publishers and workers of a step together.
pub fn joins()
    ensures { Joins }
{}

/// Whatever comes of the threads of a step, no reading of a publisher's source is of another seat.
pub fn none_intrudes()
    ensures { NoneIntrudes }
{}

/// Batches that a seat had added in time when its thread ended, are so in the joined list.
pub fn timely_joined()
    ensures { TimelyJoined }
{}

/// What one worker has seen at its end holds behind the joins: by a state behind the step no query is due.
pub fn stay_undue()
    ensures { StayUndue }
{}

/// Of each source a step has the entries under its seat's number, and all else are batches.
pub fn by_seats()
    ensures { BySeats }
{}
