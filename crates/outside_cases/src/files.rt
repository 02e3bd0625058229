//! Reads of files in memory.

use crate::answer::push_bytes;
use case_text::{fails_of, files_of, items_of};
use osq_outside::{Files, FilesError, MemoryFiles};
use osq_value::NoMemory;
use serde_json::Value as Json;
use std::alloc::Global;

fn push_file(
    alloc: Global,
    text: &mut String,
    files: &mut MemoryFiles,
    path: &str,
) -> Result<(), NoMemory> {
    match files.read(alloc, path) {
        Ok(Some(bytes)) => push_bytes(text, bytes.as_slice()),
        Ok(None) => Ok(text.push_str("no such file\n")?),
        Err(FilesError::Fault) => Ok(text.push_str("Fault\n")?),
        Err(FilesError::NoMemory) => Err(NoMemory),
    }
}

/// Reads files, and tells of each read.
pub(crate) fn push_files(alloc: Global, text: &mut String, row: &Json) -> Result<(), NoMemory> {
    let fails = fails_of(alloc, row.get("fails"))?;
    let mut files = MemoryFiles::new(files_of(alloc, row.get("files"))?, fails);
    for path in items_of(row.get("reads")) {
        push_file(alloc, text, &mut files, path.as_str().unwrap_or(""))?;
    }
    Ok(())
}
