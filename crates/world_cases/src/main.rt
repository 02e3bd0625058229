//! Stories of two hosts and a collector, made of numbers: sessions that forward what they seal, over links that lose, repeat, reorder and cut what
//! goes over them, a collector over its ledger's file, and kills and restarts of all three. After each step what is left is judged by what is
//! promised of the whole. Standard input has a row of JSON a line; empty lines and lines that begin with `#` are passed over. Each row is
//! printed behind `> `, and then what it gives. A row is:
//!
//! - `from` and `count`: so many stories, from this number on. It gives how much there was of each thing; or the first story that leaves something
//!   wrong, and what that is.
#![tactic(auto)]

mod answer;
mod collector;
mod counts;
mod delivery;
mod host;
mod judge;
mod ledger;
mod memory;
mod numbers;
mod outside;
mod story;

use case_text::print_answers;
use std::io;

fn main(rt: HostRuntime) -> io::Result<()> {
    print_answers(&rt, rt.alloc(), answer::push_answer)
}
