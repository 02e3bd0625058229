//! Uses the forms in memory of the outside, and prints what they answer. Standard input has a row of JSON a line; empty lines and lines
//! that begin with `#` are passed over. Each row is printed behind `> `, and then what its calls answer. Bytes are a text or an array of
//! parts of it, as `bytes_of` of case_text takes it; `fails` says which calls on the object fail, counted from 1. The rows:
//!
//! - `source`, the bytes that a source has; and `reads`, for each read the room that it has, of at most 16 bytes. Of each read the number
//!   of bytes is printed, and the room after it, which has dots where nothing was read; and at last how many calls there were and how many failed.
//! - `writes`, bytes that are written to a sink, each by one call or, in an object with `all`, whole. At last it prints what was written.
//! - `files`, the bytes of files by their paths; and `reads`, paths that are read.
//! - `clock`, the first reading of a clock; `step`, what lies between two; and `readings`, how many there are.
#![tactic(auto)]

mod answer;
mod clock;
mod files;
mod sink;
mod source;

use case_text::print_answers;
use std::io;

fn main(rt: HostRuntime) -> io::Result<()> {
    print_answers(&rt, rt.alloc(), answer::push_answer)
}
