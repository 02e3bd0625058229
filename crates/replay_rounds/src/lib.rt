//! A whole session on one thread: it opens behind a kept list, ticks, and leaves that list longer.
#![tactic(auto)]

mod basis;
mod linking;
mod loading;
mod noting;
mod opening;
pub mod refused;
pub mod running;
mod ticking;

pub use basis::Basis;
pub use loading::{LoadError, load_values};
pub use noting::skipped_lines;
pub use refused::{Numbers, Refused, RunError};
pub use running::{Ended, all_over, run_session};
pub use ticking::{Tick, take_tick};
