//! Texts with parts, and the views that stand before them, whose names are resolved.

use osq_value::Sequence;
use sql_query::query::Query;

/// The SELECTs of a chain, which UNION ALL joins, in their order.
pub type QueryList = Sequence<Query>;

/// A text with parts, whose names are resolved. Its derived tables are numbered from a first number on, which is that of its first part;
/// the numbers below are of the tables before the text.
#[derive(Drop)]
pub struct NestedText {
    /// The chains of the parts, in the order of their numbers. Each may name the tables before it.
    pub parts: Sequence<QueryList>,
    /// The text's own chain, which may name all parts.
    pub chain: QueryList,
}

/// Texts with parts, in their order.
pub type NestedTextList = Sequence<NestedText>;

/// A text with the views that stand before it.
#[derive(Drop)]
pub struct NestedQuery {
    /// The views. The first has the number `FIRST_DERIVED`, and each other one the next, which is that of its own first part too: a view
    /// may name the views before it, and outside it nothing names its parts.
    pub views: NestedTextList,
    /// The text, whose first part has the number behind the last view's.
    pub text: NestedText,
}
