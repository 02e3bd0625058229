//! What a row gives its run to be over.

use crate::outside::{Memory, add_source, give_config, give_link};
use case_text::{bytes_of, fails_of, items_of};
use osq_value::{Bytes, NoMemory, Sequence};
use serde_json::Value as Json;
use std::alloc::Global;

/// The bytes of a configuration; none where there is no such member.
fn config_of(alloc: Global, config: Option<&Json>) -> Result<Bytes, NoMemory> {
    match config {
        Some(config) => bytes_of(alloc, config),
        None => Ok(Bytes::new(alloc)),
    }
}

/// Gives the outside a source: its bytes, or an object with them as `text` and the numbers of the reads that fail.
fn give_source(alloc: Global, outside: &mut Memory, source: &Json) -> Result<(), NoMemory> {
    let fails = fails_of(alloc, source.get("fails"))?;
    let text = bytes_of(alloc, source.get("text").unwrap_or(source))?;
    add_source(outside, text, fails)
}

/// Adds the answers of an array.
fn add_answers(
    alloc: Global,
    answers: &mut Sequence<Bytes>,
    items: &[Json],
) -> Result<(), NoMemory> {
    for answer in items {
        answers.push(bytes_of(alloc, answer)?)?;
    }
    Ok(())
}

/// The answers of an array.
fn answers_of(alloc: Global, items: &[Json]) -> Result<Sequence<Bytes>, NoMemory> {
    let mut answers = Sequence::new(alloc);
    add_answers(alloc, &mut answers, items)?;
    Ok(answers)
}

/// Gives the outside what the row has of it.
pub(crate) fn give(alloc: Global, outside: &mut Memory, row: &Json) -> Result<(), NoMemory> {
    give_config(alloc, outside, config_of(alloc, row.get("config"))?)?;
    for source in items_of(row.get("sources")) {
        give_source(alloc, outside, source)?;
    }
    give_link(
        alloc,
        outside,
        answers_of(alloc, items_of(row.get("answers")))?,
    );
    Ok(())
}
