//! The tree of a SELECT as syntax, and copies of it.
#![tactic(auto)]

pub mod copy;
mod copy_select;
pub mod functions;
pub mod list;
pub mod nodes;
pub mod select;
pub mod span;
pub mod tree;
