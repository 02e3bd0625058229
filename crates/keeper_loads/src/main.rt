//! Seals lists of entries into databases in memory, and prints what is loaded. Standard input has a row of JSON a line; empty lines and lines
//! that begin with `#` are passed over. Each row is printed behind `> `, and then what it gives. Entries are a text of words that
//! `case_lists` has. The rows:
//!
//! - `seals`, texts of entries that are sealed one after another: what a keeper loads then, where all of it is what the list has; of more than
//!   ten events their count alone. With `then`, statements of SQL that are run behind the seals: what a keeper loads, whatever the list has.
//! - `fetch`, numbers: the batch of each, once before and once behind a restart over the same disks, where it is what a keeper in memory has;
//!   of more than three rows their count alone. `seals` are sealed before, and `then` is run between the two.
//! - `memory`, a text of entries, with `fails`, the calls that are to fail, and `fetch`: what a keeper in memory answers.
//! - `before`, statements of SQL that were run in the database before: the answers of a load and of a seal of no entries.
#![tactic(auto)]

mod answer;
mod fetches;
mod seals;

use case_text::print_answers;
use std::io;

fn main(rt: HostRuntime) -> io::Result<()> {
    print_answers(&rt, rt.alloc(), answer::push_answer)
}
