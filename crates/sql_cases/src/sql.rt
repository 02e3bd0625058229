//! What the rows ask of the libraries.

pub(crate) use sql_meaning::cut::cut;
pub(crate) use sql_meaning::evaluate;
pub(crate) use sql_meaning::firsts::firsts;
pub(crate) use sql_meaning::folds::{count_rows, fold_values};
pub(crate) use sql_meaning::order::order;
pub(crate) use sql_meaning::worth::{ResultRow, ResultRowList, Worth};
pub(crate) use sql_parser::parse::{parse, parse_expression};
pub(crate) use sql_parser::{
    Fold, Function, Name, Node, Operator, ParseError, ParseKind, Span, Step,
};
pub(crate) use sql_query::answers::{is_evented, names_of};
pub(crate) use sql_query::query::{Condition, Order, Query, QueryItem, QuerySource};
pub(crate) use sql_query::tree::{Aggregate, Expr, ExprStep};
pub(crate) use sql_scalar::{apply, call, minus, negation, truth};
pub(crate) use sql_texts::text::{TextError, query_of_text};
pub(crate) use sql_tokens::token::Kind;
pub(crate) use sql_tokens::words::kind_of_name;
pub(crate) use sql_tree::select::{Item, Select, TableRef, Term};
