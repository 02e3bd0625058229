//! Tables as a query reads them: the rows that meet constraints.
#![tactic(auto)]

pub mod constraint;
mod rows;

pub use constraint::{Constraint, ConstraintList, ConstraintOp, turn};
pub use rows::{RowRefs, scan};
