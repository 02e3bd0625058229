//! The SQL parser: the descent over a text's tokens that makes its tree.
#![tactic(auto)]

mod clauses;
mod descent;
mod making;
pub mod parse;
mod stop;

pub use sql_faults::error::{ParseError, ParseKind};
pub use sql_tree::functions::{Fold, Function};
pub use sql_tree::select::Select;
pub use sql_tree::span::Span;
pub use sql_tree::tree::{Name, Node, Operator, Step};
