//! The texts that batches become: result lines for the log, and the frames that a collector reads.
#![tactic(auto)]

pub mod escape;
pub mod labels;
pub mod lines;
pub mod object;

pub use lines::result_lines;
pub use object::row_object;
