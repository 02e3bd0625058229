//! The operators and the scalar functions of SQL on values.
#![tactic(auto)]

mod arithmetic;
mod characters;
mod choices;
mod comparison;
mod finds;
mod functions;
mod like;
mod logic;
mod operators;
mod pieces;
mod skips;
mod texts;
mod windows;

pub use arithmetic::{minus, whole};
pub use functions::call;
pub use logic::{negation, truth};
pub use operators::apply;
