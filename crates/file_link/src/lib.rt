//! The link to a collector over streams of the machine: frames go out as lines, and answers come in as lines.
#![tactic(auto)]

mod answers;
mod frames;
mod link;

pub use link::FileLink;

#[cfg(test)]
mod tests;
