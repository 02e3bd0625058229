//! What the lock of a store holds.

use crate::noted::Noted;
use session_state::State;
use turn_lock::Stands;

/// A session's state, which stands for the list of a lock behind the state that the store was made over.
#[derive(Drop)]
pub struct Shared {
    pub(crate) state: State,
}

impl Stands for Shared {
    ghost use Rattle.shared_store.specs.Shares.{StandsFor};

    type Start = State;

    type Entry = Noted;

    ghost stands = { λ shared start notes. StandsFor start notes shared.state };
}
