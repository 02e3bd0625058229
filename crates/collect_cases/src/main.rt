//! Reads and writes answers, opens ledgers and collects streams of frames, and prints what they give. Standard input has a row of JSON a
//! line; empty lines and lines that begin with `#` are passed over. Each row is printed behind `> `, and then what it gives. Lines are
//! given by parts: an array of a host, a number and a value is the line of the frame of a batch with this number and one row of this
//! value; with a fourth member, so many of the first bytes of that line. An object with a text `hashed` is the line of that text with its
//! digest behind it, as a frame has it. Any other part is as `bytes_of` of case_text takes it. The rows:
//!
//! - `answer`, the name of an answer, and what it tells: `host`, `number`, `recorded`, `kept`, `found` (digests of one byte, 32 times), or
//!   `kind`: its text, and what that is read to.
//! - `line`, a line, by its parts as `bytes_of` takes them: the answer that it is.
//! - `collect`, parts of a stream; `file`, parts of the ledger's file, where there is one; `rounds`, 1 where it isn't told; and the calls
//!   that are to fail, of `files`, of the `source`, of the `ledger` and of the `answers`: how it ends, what was added to the file, and what
//!   was answered.
//! - `torn`, parts of a stream: the same where the ledger's file has some of the stream's first bytes, for each number of them, from 0 up to all. It is printed
//!   where it isn't as with one byte less.
#![tactic(auto)]

mod answers;
mod collecting;
mod lines;
mod rows;

use case_text::print_answers;
use std::io;

fn main(rt: HostRuntime) -> io::Result<()> {
    print_answers(&rt, rt.alloc(), rows::push_row)
}
