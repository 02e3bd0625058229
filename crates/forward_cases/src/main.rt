//! Gives numbers of batches, sends their frames and polls answers, and prints what these calls give. Standard input has a row of JSON a
//! line; empty lines and lines that begin with `#` are passed over. Each row is printed behind `> `, and then what it gives. The rows:
//!
//! - `window`, the acknowledged mark and the count of sealed batches; and `calls` of a forwarder over them: `next`, `restart`, an object
//!   with a number `sealed`, or one with a number `recorded`, for an answer that tells of it: what each gives.
//! - `forward`, a host; the `texts` of its batches, numbered from 1, each of which answers with one row; or how many `batches` of one text
//!   there are; the mark `acked`; `answers` that wait, by their parts; and the calls that are to fail, of the `keeper` and of the `link`: for
//!   each of the `rounds` (1 where it isn't told) the numbers of the frames that were sent, the marks that the answers gave, and what
//!   stopped it. Between rounds nothing is sealed.
#![tactic(auto)]

mod answer;
mod forward;
mod given;
mod window;

use case_text::print_answers;
use std::io;

fn main(rt: HostRuntime) -> io::Result<()> {
    print_answers(&rt, rt.alloc(), answer::push_answer)
}
