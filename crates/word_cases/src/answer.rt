//! What rows of words give.

use crate::shown::{push_command, push_count, push_paths};
use case_text::{bytes_of, kind_of_row};
use osq_value::NoMemory;
use program_words::{WordsError, paths_of, read_words};
use serde_json::Value as Json;
use std::alloc::Global;
use std::str;

const KINDS: [&[&str]; 2] = [&["words"], &["count"]];

/// Tells that there is no command.
fn push_error(text: &mut String, error: WordsError, usage: &str) -> Result<(), NoMemory> {
    match error {
        WordsError::Usage => Ok(text.push_str(usage)?),
        WordsError::NoMemory => Err(NoMemory),
    }
}

/// Tells what words are read as.
fn push_read(alloc: Global, text: &mut String, words: &[&str]) -> Result<(), NoMemory> {
    match read_words(alloc, words) {
        Ok(command) => {
            push_command(text, &command)?;
            push_count(text, command.sources())
        }
        Err(error) => push_error(text, error, "Usage\n"),
    }
}

/// Tells what is opened for them.
fn push_opened(alloc: Global, text: &mut String, words: &[&str]) -> Result<(), NoMemory> {
    match paths_of(alloc, words) {
        Ok(paths) => push_paths(text, &paths),
        Err(error) => push_error(text, error, "opens nothing\n"),
    }
}

/// Tells how many sources words name.
fn push_counted(alloc: Global, text: &mut String, words: &[&str]) -> Result<(), NoMemory> {
    match read_words(alloc, words) {
        Ok(command) => Ok(writeln!(text, "{} sources", command.sources())?),
        Err(error) => push_error(text, error, "Usage\n"),
    }
}

/// Tells of words what the row's kind asks.
fn push_words(
    alloc: Global,
    text: &mut String,
    kind: &str,
    words: &[&str],
) -> Result<(), NoMemory> {
    if kind == "count" {
        return push_counted(alloc, text, words);
    }
    push_read(alloc, text, words)?;
    push_opened(alloc, text, words)
}

fn push_line(alloc: Global, text: &mut String, kind: &str, line: &[u8]) -> Result<(), NoMemory> {
    let Ok(line) = str::from_utf8(line) else {
        return Ok(text.push_str("words that aren't UTF-8\n")?);
    };
    let words: Vec<&str> = line.split(' ').collect(alloc)?;
    push_words(alloc, text, kind, words.as_slice())
}

/// Adds what a row gives.
pub(crate) fn push_answer(alloc: Global, text: &mut String, row: &Json) -> Result<(), NoMemory> {
    match kind_of_row(&KINDS, row) {
        Some(kind) => {
            let line = bytes_of(alloc, row.get(kind).unwrap_or(row))?;
            push_line(alloc, text, kind, line.as_slice())
        }
        None => Ok(text.push_str("no such row\n")?),
    }
}
