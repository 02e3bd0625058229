//! Answers texts over the frames of hosts. Standard input has a line each; empty lines and lines that begin with `#` are passed over. Each line
//! is printed behind `> `, a frame's up to its 80th byte, and then what it gives:
//!
//! - the line of a frame: nothing where the frame is the next of its host, and else that it isn't, or that the line is none.
//! - `host`, an identifier: the derived tables of the host's frames with the number of their columns.
//! - `host` and `table`: the columns of that one.
//! - `host` and `text`: the rows of the text over the host's frames, or why it has no query.
//! - `forget`: the frames so far are gone.
#![tactic(auto)]

mod asked;
mod bench;
mod frames;

use bench::FleetBench;
use case_text::print_told;
use std::io;

fn main(rt: HostRuntime) -> io::Result<()> {
    let alloc = rt.alloc();
    print_told(&rt, alloc, &mut FleetBench::new(alloc))
}
