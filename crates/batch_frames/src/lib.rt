//! Frames: the one text of a host's batch, as it is sent to a collector, and its reader.
#![tactic(auto)]

mod bytes;
pub mod decode;
pub mod encode;
pub mod error;
mod field;
pub mod frame;
mod items;
mod numbers;
mod parts;
mod read;
mod shape;
pub mod spelled;
mod strings;
mod values;

pub use decode::{Digested, decode_digested, decode_frame};
pub use encode::{digest_of, encode_frame};
pub use error::{BadKind, FrameError};
pub use frame::Frame;
