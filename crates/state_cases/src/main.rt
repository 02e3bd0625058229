//! Makes calls of a session's state, of an image of events and of the cursors of queries, and prints what each answers. Standard
//! input has a line of JSON for each call; empty lines and lines that begin with `#` are passed over. A member that a line lacks is 0,
//! empty or, where `values` or `runs` say it, what the last such line says.
//!
//! - `{"case": NAME}` begins again: a session over an empty list, no open cuts, an empty image and its slice above 0.
//! - `{"state": CALL, ..}` is a call of the session: `configure` (`queries`, each with name, text, mode and interval, `events_expiry`,
//!   `events_max`, `moment`), `tick` (`moment`), `append` (`source`, `taken`, and `events` with `skipped`, or `table` and `rows`),
//!   `claim`, `commit` and `release` (`cut`, its place among the open cuts from 0), `expire`, `acknowledge` (`upto`), `tail`, `show`,
//!   `view` (`tables`, `above`, `moment`), `ask` (`text`, `moment`), or `begin`, which opens a session over the values of the last
//!   `values` line.
//! - `{"image": CALL, ..}` is one of the image or of its slice: `append` (`events`, `moment`), `set_table` (`table`, `rows`),
//!   `expire` (`table`, `floor`), `floor_owed` (`table`, `events_expiry`, `events_max`, `moment`, `reached`), `show`, `slice` (`above`),
//!   `set_computed` (`table`, `rows`) or `view` (`tables`), of which the last two are of the slice.
//! - `{"cursors": CALL, ..}` is one of the cursors that have the `runs` of the last line that gives some, placed for its
//!   `queries`: `next_due` (`claimed`, with `1` for each query that is, `moment`), `first_due` (`moment`), `find` (`query`, `place`), `reached` (`readers`, places from 0, `last`) or `record_commit` (`query`, `place`,
//!   `number`, `hi`, `moment`).
//! - `{"due": TEXT, ..}` asks whether a query of this `interval` is due at this `moment`, where its last batch was at `last`.
//! - `{"fits": TEXT, ..}` asks whether a session may go on from these values, by pairs of runs and by the hashes of runs.
//!
//! A table is its name or its number. An event is an array of its table and its first values; the others are Null. In values,
//! a row may be its number of Nulls. A run is an array of name, number, end, moment and count.
//!
//! Of each call its texts and numbers are printed, and behind a colon its answer. A call whose data does not meet what it asks is not
//! made, and told.
#![tactic(auto)]

mod bench;
mod call;
mod cursors;
mod entries;
mod image;
mod line;
mod making;
mod ready;
mod session;
mod session_calls;
mod shown;
mod values;

use bench::CallBench;
use case_text::print_told;
use std::io::{self, ErrorKind};

fn main(rt: HostRuntime) -> io::Result<()> {
    let alloc = rt.alloc();
    let Ok(mut bench) = CallBench::new(alloc) else {
        return Err(io::Error::from(ErrorKind::OutOfMemory));
    };
    print_told(&rt, alloc, &mut bench)
}
