//! Stops the seals of a keeper over disks in memory at each call on a disk in turn, opens the disks again as a crash leaves them, and tells
//! whether each stop left the list as before the seal or behind it. Standard input has a row of JSON a line; empty lines and lines that begin with
//! `#` are passed over. Each row is printed behind `> `, and then what it gives. A row has `seals`, texts of entries by words that `case_lists`
//! has, which are sealed one after another; `stops`, the file whose calls stop, `log` or `database`; and `frames`, how many pages the log has
//! before it is copied into the database.
#![tactic(auto)]

mod answer;
mod disks;
mod stops;

use case_text::print_answers;
use std::io;

fn main(rt: HostRuntime) -> io::Result<()> {
    print_answers(&rt, rt.alloc(), answer::push_answer)
}
