//! A call of `regex_match`.

use osq_value::Sequence;
use sql_tree::span::Span;
use sql_tree::tree::Name;

/// A call of `regex_match` in a text, by its places in bytes.
#[derive(Clone, Copy)]
pub struct Call {
    /// The name before the dot, where the column has one.
    pub table: Option<Name>,
    /// The column's name.
    pub column: Name,
    /// The pattern's text, with its quotes.
    pub pattern: Span,
    /// The group, from 0 to 99.
    pub group: usize,
    /// The whole call.
    pub span: Span,
}

/// Calls in their order.
pub type CallList = Sequence<Call>;
