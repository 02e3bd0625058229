//! What a host runs: the rules on which hosts a query holds, the schedule, and the queries in it.
#![tactic(auto)]

mod choice;
pub mod host;
pub mod laws;
mod offers;
mod parts;
mod platform;
pub mod rules;
pub mod schedule;
mod version;

pub use choice::schedule_of;
pub use host::{Host, host_number};
pub use rules::rules_hold;
