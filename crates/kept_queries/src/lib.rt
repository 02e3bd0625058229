//! A query over a kept list and what a session read behind it.
#![tactic(auto)]

mod rows;

pub use rows::rows_behind;
