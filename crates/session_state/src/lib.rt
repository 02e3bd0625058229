//! The state of a session, and its calls.
#![tactic(auto)]

mod computed;
pub mod cut;
pub mod laws;
mod listed;
mod readers;
mod readings;
mod slices;
pub mod state;
pub mod tail;

pub use cut::Cut;
pub use readings::offset_of;
pub use state::{AppendError, CommitRefusal, State, TickRefusal};
