//! Asks rules of hosts and makes schedules, and prints what they are. Standard input has a row of JSON a line; empty lines and lines that
//! begin with `#` are passed over. Each row is printed behind `> `, and then what it gives. The rows:
//!
//! - `rules`, with what it has of `platform`, `version` and `shard`: whether they hold on the host.
//! - `number`, the identifier of a host: its number.
//! - `schedule`, a configuration; `found`, for each of its packs whether its discovery found something; and maybe `left_out`, the lines of packs
//!   that are left out: the seconds of expiry, most events and form of results, then the queries of the schedule, each as its mode, name,
//!   seconds and text, and at last the notes.
//!
//! Rules and schedules are for the host `host`, with its `identifier`, `platform` and `agent`: it is `abc`, `linux` and `5.10.0` where a
//! row doesn't say otherwise.
#![tactic(auto)]

mod answer;
mod given;
mod scheduled;

use case_text::print_answers;
use std::io;

fn main(rt: HostRuntime) -> io::Result<()> {
    print_answers(&rt, rt.alloc(), answer::push_answer)
}
