//! What the rows ask of the libraries.

pub(crate) use query_answers::{answer, found_packs, names, schedule_for};
pub(crate) use sql_joins::{
    JoinRule, KeyColumns, LaidRows, hashed_join, laid_out, nested_join, parts, rule_of,
};
pub(crate) use sql_meaning::{Joined, plain_rows, singles};
pub(crate) use sql_planner::{Plan, explain, plan_of, run_plan};
pub(crate) use sql_query::derived::{Derived, DerivedList, FIRST_DERIVED};
pub(crate) use sql_query::query::{Query, QuerySource, SourceColumn, SourceColumnList};
pub(crate) use sql_texts::text::{TextError, query_with};
pub(crate) use virtual_tables::{Constraint, ConstraintList, ConstraintOp, scan};
