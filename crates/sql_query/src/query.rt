//! A query whose names are resolved.

ghost use Rattle.std.specs.Prelude.{◌≡◌};

use crate::tree::Expr;
use osq_value::{Affinity, Sequence, Str, TableId};

/// Expressions in their order.
pub type ExprList = Sequence<Expr>;

/// A condition by its conjuncts. It is true where each of them is true, so the empty one is true.
#[derive(Drop)]
pub struct Condition {
    /// The conjuncts, in the order of the text.
    pub parts: ExprList,
}

impl Condition {
    /// The condition of these conjuncts.
    pub fn of(parts: Vec<Expr>) -> Condition
        ensures { result.parts ≡ parts.items }
    {
        Condition {
            parts: Sequence::from_vec(parts),
        }
    }
}

/// A column of a FROM table.
#[derive(Drop)]
pub struct SourceColumn {
    /// The table's name of the column.
    pub name: Str,
    /// The column's affinity. Each column of the catalogue has one.
    pub affinity: Option<Affinity>,
    /// Whether `*` passes over the column, which is found by its name all the same. None of the catalogue is hidden.
    pub hidden: bool,
}

/// Columns in their order.
pub type SourceColumnList = Sequence<SourceColumn>;

/// A FROM table.
#[derive(Drop)]
pub struct QuerySource {
    /// The number of the table: one of the catalogue, or a derived one.
    pub table: TableId,
    /// The table's own name.
    pub name: Str,
    /// The alias, or the table's own name where the text has none.
    pub alias: Str,
    /// The columns of the table, in the table's order.
    pub columns: SourceColumnList,
    /// Whether LEFT JOIN brings this table in.
    pub is_outer: bool,
    /// The condition of ON, or the equalities of USING.
    pub on: Condition,
}

/// FROM tables in their order.
pub type QuerySourceList = Sequence<QuerySource>;

/// A column of the result.
#[derive(Drop)]
pub struct QueryItem {
    /// The alias, the catalogue's name of a column, or else the text of the expression.
    pub name: Str,
    /// What gives the column's values.
    pub expr: Expr,
}

/// Columns of the result in their order.
pub type QueryItemList = Sequence<QueryItem>;

/// What the result is sorted by.
#[derive(Drop)]
pub struct Order {
    /// What gives the values that are compared.
    pub expr: Expr,
    /// DESC: the greatest value stands first.
    pub is_descending: bool,
}

/// What the result is sorted by, the first before the others.
pub type OrderList = Sequence<Order>;

/// A SELECT whose names are resolved.
#[derive(Drop)]
pub struct Query {
    /// The tables of FROM. There are none without that word.
    pub sources: QuerySourceList,
    /// The condition of WHERE.
    pub filter: Condition,
    /// Whether GROUP BY or an aggregate is there.
    pub is_grouped: bool,
    /// The expressions of GROUP BY.
    pub keys: ExprList,
    /// The condition of HAVING.
    pub having: Condition,
    /// The columns of the result, with `*` written out.
    pub items: QueryItemList,
    /// DISTINCT: of equal rows the first is shown.
    pub is_distinct: bool,
    /// What ORDER BY sorts by.
    pub terms: OrderList,
    /// The number of LIMIT, none without that word. A negative one is no limit, as in SQLite.
    pub limit: Option<i64>,
    /// The number of OFFSET.
    pub skip: Option<i64>,
}
