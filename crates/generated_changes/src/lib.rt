//! Change lines made by a sequence of numbers, so that everybody makes the same load: what `generate` writes.
#![tactic(auto)]

mod line;
pub mod whole;
pub mod writing;

pub use line::{number_behind, push_line};
pub use whole::lines_of;
pub use writing::{WriteError, write_lines};
