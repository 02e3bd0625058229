//! Reads rows over records as data, and prints what the readers make of them. A line of standard input is a JSON object of one kind:
//! `texts` names texts and `categories` says under which categories changes stand, each an array of its name and its path patterns,
//! those of excluded paths with a `!` before them; `audit` has a line of an audit log; `groups` has lines as serial number and type,
//! and `gathers` has such lines, null for one that is skipped, and `"finish"`; `event` has the lines of a group; `change` has a line of
//! a change; `pattern` has a path pattern, with `paths`; `table` has a line of a table; `cut` has texts that are fed to a cutter, with
//! `limit` and `offset`; `publisher`, `records` and `feed` have what the lines of a `source` are, with the `kept` bytes, the `most`
//! records of a step, the `steps`, the call of the source that `fails`, `is_whole` where the rows of events are printed whole, and
//! `is_shown` where a feed shows its records. `by` says by how many bytes a text is fed or a source gives, each for a run of its own.
//!
//! A text is a string, a number for the byte, `{"text": .., "times": ..}`, or an array of these one behind another; `$NAME` stands for
//! the text of that name. Empty lines and lines that begin with `#` are passed over. Of each other line that isn't `texts` or
//! `categories` it prints the line, and below it, indented, what is made of it:
//! - of an audit line its moment, serial number, type and fields, `key=value` or, where it was quoted, `key~value`;
//! - of a cutter each line with the offset behind it, or a dash, and behind each text a dot with how many bytes of text it keeps;
//! - of a line of `groups` the lines of the group before it that it ends, and those of its own group that it ends;
//! - of a line of `gathers` its records: their lines, their skipped lines, and the number of their last line, counted from 1;
//! - of a step of `records` each record: the offset behind it, the skipped lines, and the types of a group's lines, the path of a change,
//!   or a dash; then as of any other step the bytes that were taken, and `!` at the source's end;
//! - of a step of a feed that shows its records first `<`, the records that a watcher saw, and `>`;
//! - of a step its readings: the offset behind a reading and either the skipped lines and the first value of each event, or the table
//!   and how many rows it has; then the bytes that were taken (of a feed also the skipped lines so far), and `!` at the source's end.
#![tactic(auto)]

mod audit;
mod bench;
mod changes;
mod cutting;
mod feeding;
mod gathering;
mod given;
mod publishing;
mod readings;
mod recording;
mod shown;
mod sips;
mod text;

use bench::Common;
use case_text::print_told;
use std::io;

fn main(rt: HostRuntime) -> io::Result<()> {
    print_told(&rt, rt.alloc(), &mut Common::new())
}
