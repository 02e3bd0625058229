//! Texts that nest and join SELECTs: parts in parentheses, UNION ALL, and views; where they break a rule, and what they answer.
#![tactic(auto)]

pub mod breaches;
pub mod chains;
mod level;
mod outlook;
pub mod query;
mod role;
mod run;
mod stack;
pub mod view;

pub use query::{NestedQuery, NestedText, NestedTextList, QueryList};
pub use run::{nested_names, run_nested};
pub use view::Extended;
