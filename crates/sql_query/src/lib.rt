//! The tree of a query whose names are resolved, and what it says of itself.
#![tactic(auto)]

pub mod answers;
pub mod copy;
pub mod derived;
pub mod exprs;
pub mod place;
pub mod query;
pub mod same;
pub mod tree;
