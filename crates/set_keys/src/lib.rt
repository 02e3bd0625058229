//! By what sets of values are hashed whose values a stranger may have written.
#![tactic(auto)]

mod digest;
mod hasher;

pub use digest::KeyDigest;
pub use hasher::{FEW, SetHasher, SetKey};
