//! What configurations in files give.

use crate::shown::{push_config, push_refusal};
use case_text::{fails_of, files_of, member_text};
use config_files::{Configured, ConfiguredError, read_configured};
use osq_outside::MemoryFiles;
use osq_value::NoMemory;
use serde_json::Value as Json;
use std::alloc::Global;
use std::str;

fn push_error(text: &mut String, error: &ConfiguredError) -> Result<(), NoMemory> {
    match error {
        ConfiguredError::Fault { file } => writeln!(text, "Fault at {}", file.as_str())?,
        ConfiguredError::Missing => text.push_str("Missing\n")?,
        ConfiguredError::Refused { error } => push_refusal(text, error)?,
        ConfiguredError::NoMemory => return Err(NoMemory),
    }
    Ok(())
}

/// Adds a line for each document, and then the notes.
fn push_texts(text: &mut String, made: &Configured) -> Result<(), NoMemory> {
    for document in made.documents.as_slice() {
        writeln!(text, "document '{}'", document.as_str())?;
    }
    match str::from_utf8(made.notes.as_slice()) {
        Ok(notes) => text.push_str(notes)?,
        Err(_) => text.push_str("notes that aren't UTF-8\n")?,
    }
    Ok(())
}

/// Tells what the file of the path gives.
pub(crate) fn push_configured(
    alloc: Global,
    text: &mut String,
    row: &Json,
) -> Result<(), NoMemory> {
    let fails = fails_of(alloc, row.get("fails"))?;
    let mut files = MemoryFiles::new(files_of(alloc, row.get("files"))?, fails);
    match read_configured(alloc, &mut files, member_text(row, "configured")) {
        Ok(made) => {
            push_config(alloc, text, &made.config)?;
            push_texts(text, &made)
        }
        Err(error) => push_error(text, &error),
    }
}
