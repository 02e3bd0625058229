//! Runs stories over the forms in memory, and prints what each run leaves. Each line of standard input is an object of JSON; empty lines and
//! lines that begin with `#` are passed over. A line is one of these:
//!
//! - `{"texts": {NAME: TEXT, ..}}` names texts. Later lines add to the earlier ones, and of two with one name the later is meant.
//! - `{"plain": RUN}` says what stands for every member that a run lacks.
//! - `{"story": NAME, "kept": [ENTRY, ..]}` begins over a kept list of these entries, or over an empty one. An entry is `{"opened": N}`,
//!   by rules 1 unless `"rules": N` stands beside it, `{"ticked": N}` or `{"acked": N}`.
//! - `{"link": {"answers": [TEXT, ..], "fails": [CALL, ..], "polls": N}}` polls a link so often.
//! - Every other line is a run over the list that the run before it left. It may have `words` (a text or an array) and `text` (a word behind
//!   `--text`); `files` (texts by their paths), `sources` (TEXT, or `{"text": TEXT, "fails": [CALL, ..]}`), `answers` (those that
//!   wait at a link: TEXT, or `{"text": TEXT, "copies": N}`), and the clock's `start` and `step`; `fails` (calls of `files`, `keeper`, `results`, `status`, `ledger` and `link`) and `is_whole`
//!   (the keeper's list then has the entries of a failed seal); `is_brief` (counts in place of rows, result lines and frames) and `tells_clock`.
//!
//! A TEXT is a text; `{"named": NAME}`; `{"json": VALUE}`; `{"lines": [VALUE, ..]}`, where a text is a line as it stands and another value is one as JSON; `{"counted": "..#.."}`; or an array
//! of these. Each object may say how many `times` it stands, and `#` is then the number of the time, from 0.
//!
//! Of each run it prints the number of the status, then each entry that the list has gained behind `+`, each line of the results behind
//! `|`, each line of the status stream behind `!`, and each line of the ledger behind `=`; of a run with `answers` each frame that was sent behind
//! `>` too, and how many answers still wait. A row stands in brackets, before it the number of its table where it is an event. What
//! no line, run, story or link has is told in the place of what it should have printed, or before it.
#![tactic(auto)]

mod given;
mod left;
mod link;
mod made;
mod outside;
mod run;
mod shown;
mod stories;
mod story;
mod text;

use case_text::print_told;
use std::io;
use stories::Stories;

fn main(rt: HostRuntime) -> io::Result<()> {
    let alloc = rt.alloc();
    print_told(&rt, alloc, &mut Stories::new(alloc))
}
