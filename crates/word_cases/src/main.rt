//! Reads the words of command lines, and prints what they are read as. Standard input has a row of JSON a line; empty lines and lines
//! that begin with `#` are passed over. Each row is printed behind `> `, and then what it gives. The words of a row are a text or an array
//! of parts of it, as `bytes_of` of case_text takes it, and stand each behind one space. The rows:
//!
//! - `words`: what each option of the command is, the sources, of which the first are named, and on a line of its own what is opened for it. A
//!   dash stands for what isn't given.
//! - `count`: the number of sources alone, for words that are many.
//!
//! Of words that are those of no command `Usage` is printed.
#![tactic(auto)]

mod answer;
mod shown;

use case_text::print_answers;
use std::io;

fn main(rt: HostRuntime) -> io::Result<()> {
    print_answers(&rt, rt.alloc(), answer::push_answer)
}
