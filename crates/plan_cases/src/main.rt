//! Reads queries over small tables, and prints each line and behind `=>` what it gives. Standard input has a line of JSON for each:
//!
//! - `tables`: the rows of `users`, `groups`, `user_groups` and of the derived table `parts` that the lines behind it are over: arrays of values, or an object with
//!   `numbered`, how many rows that hold their number in the first two columns, and their `width`.
//! - `rows`: the rows of a text, behind `both` where its meaning and its plan give the same, and else those of each; with `by_plan` the rows
//!   of the plan alone. `explain`: the lines that show its plan, behind `|`.
//! - `join`: the rows of the join of the two tables of a text, behind `both` where walking all pairs and the hash of a column give the same;
//!   `keys` are the width of a left row and the places of the two columns.
//! - `scan`: the rows of a table that meet the constraints of `where`, each a column's number, a sign and a literal.
//! - `answer`: the names of the columns and the rows that a text answers; `packs`: which packs of a configuration are found, a dash before
//!   those that aren't, and the queries that it schedules.
//!
//! A text in JSON is a text, a number a whole number, and null Null. Empty lines and lines that begin with `#` are passed over.
#![tactic(auto)]

mod answers;
mod cases;
mod derived;
mod joins;
mod queries;
mod scans;
mod sql;
mod view;

use case_text::print_told;
use std::io;
use view::GivenTables;

fn main(rt: HostRuntime) -> io::Result<()> {
    let alloc = rt.alloc();
    let mut given = GivenTables::empty(alloc);
    print_told(&rt, alloc, &mut given)
}
