//! Runs a session twice over one keeper of which a call fails, and prints how both end and what they leave. Standard input has a row of JSON a line;
//! empty lines and lines that begin with `#` are passed over. Each row is printed behind `> `, and then what it gives. A row says:
//!
//! - `from`, the number behind which the change lines begin, and `count`, how many there are; `kill`, the number of the keeper's call that fails,
//!   counted from 1 (0: none); and `whole`, whether a seal that fails has kept its entries. Given are the numbers of both statuses, and those of the
//!   list behind both.
#![tactic(auto)]

mod answer;

use case_text::print_answers;
use std::io;

fn main(rt: HostRuntime) -> io::Result<()> {
    print_answers(&rt, rt.alloc(), answer::push_answer)
}
