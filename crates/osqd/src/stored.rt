//! The store that words name.

use crate::streams::Output;
use batch_keeper::MemoryKeeper;
use control_escapes::push_text;
use entry_model::entry::EntryList;
use osq_outside::{Fail, FailList, FileSink, write_all};
use osq_value::{Bytes, NoMemory};
use std::alloc::Global;
use std::fs::File;
use std::io::ErrorKind;

/// The command of these words only looks at its store. Such a command makes none where there is none; a session does.
pub(crate) fn only_looks(words: &[&str]) -> bool {
    match words.first() {
        Some(word) => *word == "query" || *word == "report",
        None => false,
    }
}

/// There is no file of this path.
pub(crate) fn is_missing<R: std::rt::Files<File = File>>(rt: &R, path: &str) -> bool {
    match File::open(rt, path) {
        Ok(_) => false,
        Err(error) => error.kind() == ErrorKind::NotFound,
    }
}

/// What stands for a store that isn't there: a keeper that fails at its first call, which is its last.
pub(crate) fn missing(alloc: Global) -> Result<MemoryKeeper, NoMemory> {
    let mut fails = FailList::new(alloc);
    fails.push(Fail { call: 1 })?;
    Ok(MemoryKeeper::new(EntryList::new(alloc), fails, false))
}

/// The line that names a store that failed.
fn line(alloc: Global, path: &str) -> Result<Bytes, NoMemory> {
    let mut text = Bytes::new(alloc);
    text.extend(b"osqd: store ")?;
    push_text(&mut text, path.as_bytes())?;
    text.extend(b" can't be opened, read or written\n")?;
    Ok(text)
}

/// Names the store that failed. Where memory ran out for the line, or it can't be written, the status is all that is told.
pub(crate) fn tell(alloc: Global, status: &mut FileSink<Output>, path: &str) {
    if let Ok(text) = line(alloc, path) {
        let _written = write_all(status, text.as_slice());
    }
}
