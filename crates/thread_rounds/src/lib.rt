//! The ticks of a session whose sources and queries are worked on by threads at once.
#![tactic(auto)]

mod at_once;
pub mod error;
mod seats;
mod stepping;

pub use at_once::round_at_once;
pub use error::StepRefusal;
pub use stepping::work_step;
