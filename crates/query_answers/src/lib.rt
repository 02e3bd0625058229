//! What texts of SQL answer over a view of tables, and the schedule that a configuration gives a host by what its packs find there.
#![tactic(auto)]

mod discovery;
mod text;

pub use discovery::{found_packs, schedule_for};
pub use text::{answer, answer_accepted, names};
