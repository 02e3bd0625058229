//! The tree of an expression whose names are resolved.

use osq_value::{Affinity, Value};
use sql_tree::functions::{Fold, Function};
use sql_tree::tree::Operator;

/// An expression over a row of the product of the FROM tables.
#[derive(Drop)]
#[cycle(tree)]
pub enum Expr {
    /// A value that the text of the query writes.
    Literal {
        value: Value,
    },
    /// A column: the number of its FROM table, its number there, and its place in a row of the
    /// product.
    Column {
        source: u32,
        column: u32,
        at: u32,
        affinity: Option<Affinity>,
    },
    /// Operators of one level, applied from the left.
    Chain {
        first: Box<Expr>,
        steps: Vec<ExprStep>,
    },
    /// NOT of an expression.
    Negation {
        inner: Box<Expr>,
    },
    /// An expression behind the sign `-`.
    Minus {
        inner: Box<Expr>,
    },
    /// An expression behind the sign `+`.
    Plus {
        inner: Box<Expr>,
    },
    /// CAST to an affinity.
    Cast {
        inner: Box<Expr>,
        affinity: Affinity,
    },
    /// A function that isn't an aggregate.
    Call {
        function: Function,
        arguments: Vec<Expr>,
    },
    /// An aggregate over the rows of a group.
    Folded {
        aggregate: Box<Aggregate>,
    },
}

/// An operator of a chain with its right side.
#[derive(Drop)]
#[cycle(tree)]
pub enum ExprStep {
    /// An operator with one operand.
    Binary {
        op: Operator,
        right: Expr,
    },
    /// IN, or NOT IN where it is negated.
    In {
        is_negated: bool,
        items: Vec<Expr>,
    },
    /// BETWEEN, or NOT BETWEEN where it is negated. The bounds are within.
    Between {
        is_negated: bool,
        low: Expr,
        high: Expr,
    },
}

/// An aggregate. COUNT(*) has no argument.
#[derive(Drop)]
#[cycle(tree)]
pub struct Aggregate {
    /// Which aggregate it is.
    pub fold: Fold,
    /// Each value counts once.
    pub is_distinct: bool,
    /// What gives the values.
    pub argument: Option<Expr>,
}
