//! The image of a kept list: its live events, and its recorded tables.
#![tactic(auto)]

mod events;
pub mod image;
pub mod laws;
mod loading;
mod owed;
pub mod parted;
mod places;
mod placing;
mod queue;
mod recorded;
mod segment;
mod segments;
pub mod shared;
mod shown;
pub mod slice;
pub mod steps;
pub mod view;

pub use image::{Image, StoreError};
pub use parted::PartedRows;
pub use shared::SharedRows;
pub use slice::EventSlice;
pub use steps::Steps;
pub use view::CutView;
