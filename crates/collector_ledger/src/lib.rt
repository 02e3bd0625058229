//! The file of a collector's ledger: the lines of the recorded frames.
#![tactic(auto)]

pub mod file;
pub mod frames;
pub mod opened;

pub use file::ledger_of;
pub use frames::{FrameList, frames_for, open_frames};
pub use opened::{OpenedLedger, open_ledger};
