//! What a session sends of its sealed batches behind a tick, and what the answers acknowledge.
#![tactic(auto)]

mod acknowledging;
mod forwarding;
mod sealing;

pub use acknowledging::acknowledge_each;
pub use forwarding::forward;
pub use sealing::seal_acks;
