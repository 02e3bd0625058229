//! A question over a kept list and what its sources have behind it: they are read on in rounds, with no tick between them, the text is answered
//! over all of it, and nothing is kept.
#![tactic(auto)]

mod answering;
pub mod asking;
pub mod error;
mod reading;
mod rounds;

pub use asking::{Asked, ask_kept};
pub use error::AskError;
