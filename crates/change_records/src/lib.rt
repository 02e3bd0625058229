//! Lines of recorded file changes and tables, and patterns of paths.
#![tactic(auto)]

pub mod change;
pub mod error;
pub mod event;
mod field;
mod members;
pub mod pattern;
pub mod read;
pub mod table;
mod token;

pub use change::Change;
pub use error::JsonLineError;
pub use event::change_event;
pub use pattern::path_matches;
pub use read::read_change;
pub use table::read_table;
