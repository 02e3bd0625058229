//! What a text asks for: its query, or its fault; all that a session makes of an accepted text, made once; and the laws of what texts mean.
#![tactic(auto)]

mod accepted;
pub mod laws;
mod query_text;
pub mod text;

pub use accepted::AcceptedQuery;
pub use query_text::QueryText;
