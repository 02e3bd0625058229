//! Reads texts of SQL, operators, functions and steps of queries, and prints each line and behind `=>` what it gives. Standard input has a
//! line of JSON for each:
//!
//! - `sql`: the tree of a select, `places`: where its items stand, `expression`: the tree of an expression, `query`: a query with
//!   resolved names, `names`: those of the columns of its result, `word`: whether it is a keyword. A text is a string, an object with
//!   `text` and `times`, or an array of these. A text without a tree or a query has the kind and the place of its fault. With `is_brief`
//!   a tree is not shown.
//! - `op` on the two values `of`, whose sides may have an affinity, `left` and `right`; `function` of the values `of`; `truth` of a value,
//!   its negation and its sign turned; `worth`: an expression over a row `of` the table `from`.
//! - `fold` of the values `of`, or of so many `rows`, which may be `is_distinct`; `firsts`: the first of rows that are equal up to `width`;
//!   `ordered`: rows in the order of their values behind `width`, of which some are `descending`; `cut`: what `limit` and `offset` leave.
//!
//! A text in JSON is a text, a number a whole number, and null Null. Empty lines and lines that begin with `#` are passed over.
#![tactic(auto)]

mod cases;
mod exprs;
mod nodes;
mod numbers;
mod queries;
mod selects;
mod signs;
mod sql;
mod steps;
mod texts;
mod values;
mod words;

use case_text::print_told;
use cases::Told;
use std::io;

fn main(rt: HostRuntime) -> io::Result<()> {
    print_told(&rt, rt.alloc(), &mut Told)
}
