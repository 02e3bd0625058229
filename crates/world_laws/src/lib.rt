//! The laws that tie what hosts send to what a collector records of them.
#![tactic(auto)]

pub mod laws;
