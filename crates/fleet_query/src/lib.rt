//! The tables that a host's recorded frames make, and what a query answers over them.
#![tactic(auto)]

pub mod columns;
pub mod filling;
pub mod fleet;
mod names;
mod tables;
pub mod view;

pub use columns::derived_of;
pub use filling::{filled, rows_of_fleet};
pub use fleet::Fleet;
pub use view::FleetTables;
