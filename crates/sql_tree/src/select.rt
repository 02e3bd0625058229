//! The tree of a SELECT.

use crate::list::Listed;
use crate::span::Span;
use crate::tree::{Name, Node};

/// Expressions in their order.
pub type NodeList = Listed<Node>;

/// Names in their order.
pub type NameList = Listed<Name>;

/// What stands between the commas behind SELECT.
#[derive(Drop)]
pub enum Item {
    /// The sign `*`, at a place.
    All {
        place: usize,
    },
    /// All columns of a table, `t.*`.
    AllOf {
        table: Name,
    },
    /// An expression, and where it stands: from its first token's first byte to behind its last
    /// token.
    One {
        node: Node,
        span: Span,
        alias: Option<Name>,
    },
}

/// Items in their order.
pub type ItemList = Listed<Item>;

/// A table of FROM, with what its join asks.
#[derive(Drop)]
pub struct TableRef {
    /// The table's name in the text.
    pub table: Name,
    /// The name behind it, with AS or without.
    pub alias: Option<Name>,
    /// Whether LEFT JOIN brings this table in.
    pub is_outer: bool,
    /// The condition of ON, none without that word.
    pub on: Option<Node>,
    /// The columns of USING. There are none without that word.
    pub using: NameList,
}

/// Tables in their order.
pub type TableRefList = Listed<TableRef>;

/// The condition on groups.
#[derive(Drop)]
pub struct Having {
    /// Where the word HAVING stands.
    pub place: usize,
    /// The condition.
    pub node: Node,
}

/// What ORDER BY sorts by.
#[derive(Drop)]
pub struct Term {
    /// What the rows are sorted by.
    pub node: Node,
    /// DESC stands behind it.
    pub is_descending: bool,
}

/// Terms in their order.
pub type TermList = Listed<Term>;

/// A SELECT as the grammar has it. A list without its clause is empty.
#[derive(Drop)]
pub struct Select {
    /// DISTINCT stands before the items.
    pub is_distinct: bool,
    /// The items between SELECT and FROM. There is at least one.
    pub items: ItemList,
    /// The tables of FROM.
    pub sources: TableRefList,
    /// The condition of WHERE.
    pub filter: Option<Node>,
    /// The expressions of GROUP BY.
    pub keys: NodeList,
    /// The condition of HAVING, with the word's place.
    pub having: Option<Having>,
    /// The terms of ORDER BY.
    pub terms: TermList,
    /// The number of LIMIT.
    pub limit: Option<i64>,
    /// The number of OFFSET.
    pub skip: Option<i64>,
}
