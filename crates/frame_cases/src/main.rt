//! Encodes, decodes and records frames, and prints what they give. Standard input has a row of JSON a line; empty lines and lines that
//! begin with `#` are passed over. Each row is printed behind `> `, and then what it gives. The rows:
//!
//! - `frame`, the frame's host, and what of it isn't the frame's of the first batch of the query `u` over one row of one column: `number`,
//!   `text`, `mode`, `lo`, `hi`, `cut`, `moment`, `names`, `rows`: its text, and what that is decoded to.
//! - `line`, a line, by its parts: the frame that it is, or what is wrong with it.
//! - `frames`, rows of a host, a number and the one value of a frame: what a ledger that had none answers to these frames, one after
//!   another, and how many frames of these hosts are recorded then.
#![tactic(auto)]

mod answer;
mod frames;
mod ledger;
mod made;
mod shown;

use case_text::print_answers;
use std::io;

fn main(rt: HostRuntime) -> io::Result<()> {
    print_answers(&rt, rt.alloc(), answer::push_answer)
}
