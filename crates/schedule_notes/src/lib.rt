//! What is to be told of a configuration on a host: texts that aren't accepted, packs that are left out, and queries that run as snapshots though
//! they aren't marked so.
#![tactic(auto)]

pub mod entries;
mod notes;

pub use notes::schedule_notes;
