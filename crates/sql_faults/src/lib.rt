//! The least fault of a query's tokens.
#![tactic(auto)]

pub mod arguments;
mod entering;
mod entering_select;
pub mod error;
mod expecting;
mod fitting;
mod opening;
pub mod part;
pub mod recognizer;
