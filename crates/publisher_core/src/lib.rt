//! Publishers: what the recorded sources of a host give, record by record.
#![tactic(auto)]

pub mod error;
mod gaining;
pub mod gathering;
pub mod line;
pub mod publisher;
pub mod readings;
pub mod record;
pub mod subscription;
pub mod watching;
