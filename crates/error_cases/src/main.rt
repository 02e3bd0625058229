//! Prints the errors that public calls answer, a line each: the type, the case with what it carries, and behind it the text that a log would
//! have. There are no rows: each case is a value of a type of its own. The refusals of a commit, which carry a cut, are among what
//! `state_cases` prints.
#![tactic(auto)]

mod configurations;
mod frames;
mod outside;
mod printed;
mod records;
mod rounds;
mod stores;
mod texts;

use std::io;

fn main(rt: HostRuntime) -> io::Result<()> {
    let alloc = rt.alloc();
    outside::print(&rt)?;
    records::print(&rt)?;
    texts::print(&rt)?;
    configurations::print(&rt, alloc)?;
    stores::print(&rt)?;
    frames::print(&rt)?;
    rounds::print(&rt)
}
