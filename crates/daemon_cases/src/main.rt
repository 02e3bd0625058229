//! Sessions by threads over the forms in memory. It prints what each leaves, as far as that is the same whatever the schedule of the threads. Standard
//! input has a row of JSON a line; empty lines and lines that begin with `#` are passed over. Each row is printed behind `> `, and then what it
//! gives. The rows:
//!
//! - `words`: a run of these words, which stand each behind one space. It may have a configuration `config` at the path `c`, and `sources`, each its
//!   bytes by parts as `bytes_of` of case_text takes them, or these as `text` and as `fails` the numbers of the reads that fail. It may have `answers`
//!   that wait at a link, and then gives how many frames were sent. The clock begins at 1000 and goes on by 60. Where `one_thread` is true, the call that
//!   serves all other commands is asked for it. It gives the number of the status; how many events were numbered; of each query of the last schedule
//!   how many batches it has, and whether each slice begins where the one before ends; what is wrong with the kept list; and the status lines behind
//!   `!`. With `ends` it also gives where the slices of a query begin and end, and how many result lines there are, and with `slices` the slices
//!   themselves. It may have numbers at which the gate lets through: `commit_behind_cuts` and `commit_behind_appends`, how many cuts and appends there
//!   must have been before a batch is committed, and `append_behind_cuts`, how many cuts before a reading is added. Who asks 1000000 times in vain
//!   goes on, and that is told.
//! - `from` and `count`: so many runs that are made of numbers, from this one on, each also as a `replay`. It gives the first that leaves a list with a
//!   fault, or ends otherwise than the replay, or where nothing is read has other batches; and where none does, whether there was one of each kind: at
//!   the ends of its sources, with ticks that were spent, with events, and with batches and nothing to read.
#![tactic(auto)]

mod alike;
mod answer;
mod entries;
mod gate;
mod given;
mod left;
mod list;
mod made;
mod many;
mod means;
mod numbers;
mod outside;
mod pair;
mod rows;
mod run;
mod seen;
mod texts;

use case_text::print_answers;
use osq_value::NoMemory;
use serde_json::Value as Json;
use std::alloc::Global;
use std::io;

fn main(rt: HostRuntime) -> io::Result<()> {
    print_answers(
        &rt,
        rt.alloc(),
        |alloc: Global, text: &mut String, row: &Json| -> Result<(), NoMemory> {
            answer::push_answer(&rt, alloc, text, row)
        },
    )
}
