//! What programs of rows over kept lists share: entries by words, and what is loaded as text.
#![tactic(auto)]

mod entries;
mod loaded;
mod values;

pub use entries::{entries_behind, entries_of, key_of};
pub use loaded::push_restored;
pub use values::push_all;
