//! What a database keeps of a list of entries: its tables, what a seal changes in them, and the values that their rows stand for.
//! Nothing here has a connection.
#![tactic(auto)]

pub mod changes;
pub mod counts;
mod error;
pub mod fetching;
pub mod laws;
pub mod layout;
pub mod lists;
pub mod live;
mod parts;
pub mod restoring;
mod sealing;
pub mod shown;
mod tables;
mod values;

pub use changes::{Change, ChangeList, Parameter, Statement};
pub use counts::{Counts, counts_of, has_layout};
pub use error::TableError;
pub use fetching::{FoundBatch, batch_of, is_fetched};
pub use restoring::{Found, restored_of};
pub use sealing::changes_of;
