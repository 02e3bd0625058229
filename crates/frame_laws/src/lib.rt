//! The law that ties frames to kept lists: what a session commits can always be sent.
#![tactic(auto)]

pub mod laws;
