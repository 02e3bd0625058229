//! Reads configurations, and prints what they give. Standard input has a row of JSON a line; empty lines and lines that begin with `#`
//! are passed over. Each row is printed behind `> `, and then what it gives. A document is a text, an array of parts of it, or the object
//! itself, as `bytes_of` of case_text takes it. The rows:
//!
//! - `config`, a document; and `add`, the documents of packs by the names of the packs, which are added in byte order of names.
//! - `entry`, the text of further members of the query `a` whose text is `x`, in the schedule of an otherwise empty configuration.
//! - `option`, the text of the members of the options of an otherwise empty configuration.
//! - `configured`, the path of a configuration's file; `files`, the documents of all files by their paths; and `fails`, which calls on
//!   the files fail, counted from 1.
//!
//! A refusal is printed as its kind and the key that it names. Of a configuration are printed its seconds of expiry, most events and form
//! of results, and a line for each query, pack and category, for the paths of packs, and, of one in files, for each document and note. Rules
//! that hold everywhere aren't printed; of a long list of queries the first are, and how many others there are.
#![tactic(auto)]

mod answer;
mod files;
mod shown;

use case_text::print_answers;
use std::io;

fn main(rt: HostRuntime) -> io::Result<()> {
    print_answers(&rt, rt.alloc(), answer::push_answer)
}
