//! The sources of a session, each over any number of steps and from any kept offset.
#![tactic(auto)]

pub mod feed;
pub mod laws;
mod skips;

pub use feed::Feed;
