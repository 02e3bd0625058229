//! The lines of a stream of bytes, in whatever pieces the bytes come.
#![tactic(auto)]

pub mod cutter;
mod later;
mod limits;
pub mod line;
mod partial;

pub use cutter::LineCutter;
pub use limits::{LINE_LIMIT, PIECE_BYTES, STEP_BYTES};
pub use line::{Cut, Line};
