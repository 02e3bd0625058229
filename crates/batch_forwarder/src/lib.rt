//! The forwarder: which batch's frame is sent next, the frames of sealed batches sent through a link, and the answers polled.
#![tactic(auto)]

pub mod forwarder;
pub mod framing;
pub mod laws;
pub mod link;
pub mod polling;
pub mod sending;

pub use forwarder::Forwarder;
pub use framing::frame_for;
pub use link::{Link, LinkError, LinkFault, MemoryLink};
pub use polling::poll_marks;
pub use sending::{ForwardError, send_frames};
