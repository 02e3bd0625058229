//! The keeper over a database.
#![tactic(auto)]

mod connection;
mod database;
mod file;
mod stop;

pub use connection::ConnectionKeeper;
pub use file::SqliteKeeper;
