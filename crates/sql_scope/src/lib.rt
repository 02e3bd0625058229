//! What names stand for: the tables and the columns that are seen, and expressions with their names for what they stand for.
#![tactic(auto)]

pub mod expression;
pub mod mention;
pub mod naming;
pub mod scope;
pub mod spelling;
pub mod tables;
