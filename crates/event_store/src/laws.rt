//! The laws of images, which tie their contracts to the lists for which they stand.

ghost use Rattle.event_store.specs.Laws.{KeepsUp, Values, Shows};

/// An image that stands for a legal list, and then changes as the next entry says, stands for the list with that entry.
pub fn keeps_up()
    ensures { KeepsUp }
{}

/// An image that stands for a legal list has its last number, its floors, its live events and the rows of its recorded
/// tables, and what it owes at a tick is what the list does.
pub fn values()
    ensures { Values }
{}

/// What is cut of an image that stands for a legal list, with its computed tables set, shows each table as a query sees
/// it.
pub fn shows()
    ensures { Shows }
{}
