//! What the turns of a store leave in the list of its lock. Contracts alone read it.

ghost use Rattle.shared_store.specs.Notes.{grown, taken_by, given_by};

use entry_model::entry::{Entry, EntryList};
use osq_value::NoMemory;
use session_state::{Cut, State};
use std::snapshot::Snapshot;
use turn_lock::Says;

/// What is noted. No value of it is made.
pub enum Noted {
    /// This entry was added.
    Added(Entry),
    /// All entries before were taken, to be sealed.
    Taken,
    /// This cut was given. It sees all entries before.
    Given(Cut),
}

/// The state before a call and behind it: the entries by which its tail grew were added.
#[derive(Drop)]
pub(crate) struct Grown {
    pub(crate) before: Snapshot<State>,
    pub(crate) after: Snapshot<State>,
}

impl Says<Noted> for Grown {
    ghost says = { λ g. grown g.before.value.tail g.after.value.tail };
}

/// What a call took off: it leaves a mark.
#[derive(Drop)]
pub(crate) struct Took(pub(crate) Snapshot<Result<EntryList, NoMemory>>);

impl Says<Noted> for Took {
    ghost says = { λ t. taken_by t.0.value };
}

/// What a call gave.
#[derive(Drop)]
pub(crate) struct Gave(pub(crate) Snapshot<Result<Option<Cut>, NoMemory>>);

impl Says<Noted> for Gave {
    ghost says = { λ g. given_by g.0.value };
}
