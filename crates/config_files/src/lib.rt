//! A configuration that stands in a file, with the packs of it that stand in files of their own.
#![tactic(auto)]

mod adding;
pub mod configured;
pub mod error;
pub mod naming;
mod reading;
mod text;

pub use configured::{Configured, read_configured};
pub use error::ConfiguredError;
pub use naming::{key_of, kind_of};
