//! How a query is run: what is tested where a table is read, and how each table is joined.
#![tactic(auto)]

mod column_test;
mod comparison;
mod constants;
mod explaining;
mod folding;
mod item_set;
mod joining;
mod kept_pairs;
pub mod plan;
mod planning;
mod pushing;
mod reading;
mod row_tests;
mod running;
mod single;
mod tables;
mod testing;
mod wide;
mod within;

pub use explaining::explain;
pub use plan::{JoinForm, Plan, Scan, ScanList};
pub use planning::plan_of;
pub use running::run_plan;
