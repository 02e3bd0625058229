//! Evented tables that callbacks fill: the rules of their rows, the rows that are held, and the calls of `regex_match` over tables.
#![tactic(auto)]

pub mod asked;
pub mod call;
pub mod callback;
pub mod calls;
pub mod derived;
pub mod hidden;
pub mod pattern;
pub mod reading;
pub mod row;
pub mod rule;
pub mod table;
mod tokens;
pub mod value;

pub use callback::{RowCallback, RuleRows};
pub use row::row_by;
pub use rule::{Rule, RuleList};
pub use table::{CustomTable, CustomTableList};
