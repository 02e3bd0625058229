//! The laws of whole runs: when a run answers Ok, how many ticks are enough, that the same session adds the same, what a self test writes, and that what
//! a collector gives a host hangs on its own lines, and that what a ledger answers of a host hangs on that host's frames.
#![tactic(auto)]

pub mod completeness;
pub mod isolation;
pub mod one_list;
pub mod questions;
pub mod self_test;
pub mod ticks;
