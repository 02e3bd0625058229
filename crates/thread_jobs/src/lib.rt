//! The jobs of a tick that work on one store at once: publishers, each of which takes one step of its source, and workers, which answer due
//! queries. Each has a seat of its own, and a thread of its own where one can be had.
#![tactic(auto)]

pub mod error;
mod forking;
mod publishing;
mod working;

pub use error::JobError;
pub use forking::{Job, Terms, do_all};
pub use publishing::publish;
pub use working::work;
