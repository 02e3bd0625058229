//! Answers, sources and files whose bytes are texts of a story.

use crate::text::text_of;
use case_text::{fails_of, items_of};
use osq_outside::{FailList, MemorySource, NamedFile, NamedFileList};
use osq_value::{Bytes, NoMemory, Sequence, Str};
use serde_json::Value as Json;
use std::alloc::Global;

/// The bytes of the text of a value.
fn bytes_of(alloc: Global, texts: &[Json], value: &Json) -> Result<Bytes, NoMemory> {
    let text = text_of(alloc, texts, value)?;
    Ok(Bytes::from_vec(text.into_bytes()))
}

/// Adds an answer, or as many copies of it as its object says.
fn push_answers(
    alloc: Global,
    texts: &[Json],
    item: &Json,
    answers: &mut Sequence<Bytes>,
) -> Result<(), NoMemory> {
    let text = item.get("text").unwrap_or(item);
    for _ in 0..item.get("copies").and_then(Json::as_u64).unwrap_or(1) {
        answers.push(bytes_of(alloc, texts, text)?)?;
    }
    Ok(())
}

/// The answers of an array.
pub(crate) fn answers_of(
    alloc: Global,
    texts: &[Json],
    items: Option<&Json>,
) -> Result<Sequence<Bytes>, NoMemory> {
    let mut answers = Sequence::new(alloc);
    for answer in items_of(items) {
        push_answers(alloc, texts, answer, &mut answers)?;
    }
    Ok(answers)
}

/// A source: a text, or an object with `text` and `fails`.
fn source_of(alloc: Global, texts: &[Json], item: &Json) -> Result<MemorySource, NoMemory> {
    let fails = fails_of(alloc, item.get("fails"))?;
    let text = bytes_of(alloc, texts, item.get("text").unwrap_or(item))?;
    Ok(MemorySource::new(text, fails))
}

/// The sources of an array.
pub(crate) fn sources_of(
    alloc: Global,
    texts: &[Json],
    items: &[Json],
) -> Result<Vec<MemorySource>, NoMemory> {
    let mut sources = Vec::new(alloc);
    for item in items {
        sources.push(source_of(alloc, texts, item)?)?;
    }
    Ok(sources)
}

fn file(alloc: Global, texts: &[Json], path: &str, value: &Json) -> Result<NamedFile, NoMemory> {
    let text = bytes_of(alloc, texts, value)?;
    Ok(NamedFile {
        path: Str::of(alloc, path)?,
        text,
    })
}

/// The files of an object, whose names are their paths.
pub(crate) fn files_of(
    alloc: Global,
    texts: &[Json],
    value: Option<&Json>,
) -> Result<NamedFileList, NoMemory> {
    let mut files = NamedFileList::new(alloc);
    if let Some(members) = value.and_then(Json::as_object) {
        for (path, text) in members.iter() {
            files.push(file(alloc, texts, path.as_str(), text)?)?;
        }
    }
    Ok(files)
}
