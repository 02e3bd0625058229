//! The steps of a query behind FROM, over rows that are lent, where less than all of them is needed.
#![tactic(auto)]

mod alone;
mod columns;
mod different;
mod first_key;
mod grouped;
mod having;
mod items;
mod kept;
mod keys;
mod leading;
mod order;
mod set_key;
mod so_far;
mod sorted;
mod steps;
mod totals;
mod wanted;
mod watch;
mod worth_in;

pub use steps::{rows_behind, rows_behind_where};
pub use totals::Totals;
