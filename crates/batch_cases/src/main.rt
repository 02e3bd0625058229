//! Keeps lists of entries and writes batches, and prints what they give. Standard input has a row of JSON a line; empty lines and lines
//! that begin with `#` are passed over. Each row is printed behind `> `, and then what it gives. Entries are a text of words: `opened`,
//! `configured`, `ticked`, `appended`, `set`, `expired1`, `expired3`, `committed` and `acked`, each for an entry that `case_lists` has. The rows:
//!
//! - `kept`, the entries of a list: what a keeper loads from it.
//! - `seals`, texts of entries that are sealed one after another; `fails`, which of the seals fail, counted from 1; and `is_whole`, whether
//!   a seal that fails leaves its entries: the answers, and how many entries there are at last.
//! - `recorded`, the name of a query: the runs when its first batch is recorded in room that was made for it.
//! - `lines`, the mode and the form of the first batch of the query `u` on the host `h1` at the moment 1000; with `names` and `rows`: its lines;
//!   and `decoration`, what stands in each before the brace that closes it.
//! - `object`, a row; and `names`: the row's JSON object.
#![tactic(auto)]

mod answer;
mod keeper;
mod lines;
mod recorded;

use case_text::print_answers;
use std::io;

fn main(rt: HostRuntime) -> io::Result<()> {
    print_answers(&rt, rt.alloc(), answer::push_answer)
}
