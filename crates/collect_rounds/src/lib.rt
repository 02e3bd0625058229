//! A collector at work: the lines of a stream of frames are answered one after another, and those of the recorded frames are added to the
//! ledger's file.
#![tactic(auto)]

mod collector;
pub mod error;
pub mod laws;
pub mod rounds;

pub use error::CollectError;
pub use rounds::collect;
