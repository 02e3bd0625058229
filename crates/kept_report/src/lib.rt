//! What a kept list holds, as text: what `report` and `selftest` write.
#![tactic(auto)]

pub mod counting;
mod order;
pub mod report;

pub use counting::{ListNumbers, numbers_line, numbers_of};
pub use report::report_text;
