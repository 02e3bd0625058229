//! The names of a SELECT: which table and column each of them is, and where one is at fault.
#![tactic(auto)]

mod aggregates;
mod bare;
mod conditions;
pub mod error;
mod faults;
mod making;
pub mod resolve;
pub mod results;
pub mod unmeant;

pub use sql_query::query::{
    Condition, ExprList, Order, OrderList, Query, QueryItem, QueryItemList, QuerySource,
    QuerySourceList, SourceColumn, SourceColumnList,
};
pub use sql_query::tree::{Aggregate, Expr, ExprStep};
