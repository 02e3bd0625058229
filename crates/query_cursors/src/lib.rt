//! Which queries are due, and how far each has read.
#![tactic(auto)]

pub mod cursors;
mod index;
pub mod interval;

pub use cursors::Cursors;
pub use index::no_key_twice;
pub use interval::due;
