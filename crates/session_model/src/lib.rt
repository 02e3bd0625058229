//! What one session may add to a kept list: definitions, and their laws.
#![tactic(auto)]

pub mod laws;
