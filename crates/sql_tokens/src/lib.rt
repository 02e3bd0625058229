//! The tokens of a query's text, and what they begin.
#![tactic(auto)]

pub mod level;
pub mod lexer;
pub mod reader;
pub mod token;
pub mod words;
