//! A lock that serves its callers in the order of their tickets, and knows which entries its value stands for.
#![tactic(auto)]

mod board;
mod lock;
mod plays;
mod steps;
mod waiting;

pub use board::Stands;
pub use lock::{Turn, TurnLock, TurnSeat};
pub use plays::Says;

#[cfg(test)]
mod tests;
