//! The laws of a step that threads work on together: definitions, and what follows from them.
#![tactic(auto)]

pub mod laws;
