//! Stories of a store that several seats share, some of them in threads of their own. Of each story a line is printed, which is the
//! same whatever the schedule of the threads.
#![tactic(auto)]

mod given;
mod stories;
mod threads;
mod told;
mod turns;

use osq_value::NoMemory;
use std::alloc::Global;
use std::io::{self, ErrorKind};
use std::sync::Wait;
use std::thread::Threads;

/// The lines of all stories.
fn lines<R: Threads + Wait + Sync>(rt: &R, alloc: Global) -> Result<String, NoMemory> {
    let mut text = String::new(alloc);
    told::push_cuts(rt, alloc, &mut text)?;
    told::push_threads(rt, alloc, &mut text)?;
    told::push_refusals(rt, alloc, &mut text)?;
    told::push_tails(rt, alloc, &mut text)?;
    Ok(text)
}

fn main(rt: HostRuntime) -> io::Result<()> {
    match lines(&rt, rt.alloc()) {
        Ok(text) => print!(rt; "{text}"),
        Err(NoMemory) => Err(io::Error::from(ErrorKind::OutOfMemory)),
    }
}
