//! The store that threads share: a session's state behind a lock, of which each call is one turn.
#![tactic(auto)]

pub mod laws;
mod many;
mod noted;
mod shared;
mod store;

pub use noted::Noted;
pub use shared::Shared;
pub use store::{Store, StoreSeat};
