//! What rows of documents give.

use crate::files::push_configured;
use crate::shown::{push_config, push_refusal};
use case_text::{bytes_of, kind_of_row, member_text};
use osq_config::{Config, add_pack, read_config};
use osq_value::NoMemory;
use serde_json::Value as Json;
use std::alloc::Global;

const KINDS: [&[&str]; 4] = [
    &["config", "add"],
    &["entry"],
    &["option"],
    &["configured", "files", "fails"],
];

/// Adds the pack of this name by its document, and tells whether it was added.
fn push_added(
    alloc: Global,
    text: &mut String,
    config: &mut Config,
    name: &str,
    document: &Json,
) -> Result<(), NoMemory> {
    let document = bytes_of(alloc, document)?;
    match add_pack(alloc, config, name, document.as_slice()) {
        Ok(()) => Ok(writeln!(text, "added {name}")?),
        Err(error) => {
            write!(text, "left out {name}: ")?;
            push_refusal(text, &error)
        }
    }
}

/// Adds packs by their documents, and tells of each.
fn push_packs(
    alloc: Global,
    text: &mut String,
    config: &mut Config,
    packs: Option<&Json>,
) -> Result<(), NoMemory> {
    if let Some(packs) = packs.and_then(Json::as_object) {
        for (name, document) in packs.iter() {
            push_added(alloc, text, config, name.as_str(), document)?;
        }
    }
    Ok(())
}

/// Tells what a document gives, with these packs.
fn push_read(
    alloc: Global,
    text: &mut String,
    document: &[u8],
    packs: Option<&Json>,
) -> Result<(), NoMemory> {
    match read_config(alloc, document) {
        Ok(read) => {
            let mut config = read;
            push_packs(alloc, text, &mut config, packs)?;
            push_config(alloc, text, &config)
        }
        Err(error) => push_refusal(text, &error),
    }
}

/// Tells what the document of these members gives, with a front before them and a back behind them.
fn push_within(
    alloc: Global,
    text: &mut String,
    front: &str,
    members: &str,
    back: &str,
) -> Result<(), NoMemory> {
    let document = format!(in alloc; "{front}{members}{back}")?;
    push_read(alloc, text, document.as_bytes(), None)
}

fn push_document(alloc: Global, text: &mut String, row: &Json) -> Result<(), NoMemory> {
    let document = bytes_of(alloc, row.get("config").unwrap_or(row))?;
    push_read(alloc, text, document.as_slice(), row.get("add"))
}

/// Adds what a row gives.
pub(crate) fn push_answer(alloc: Global, text: &mut String, row: &Json) -> Result<(), NoMemory> {
    match kind_of_row(&KINDS, row) {
        Some("config") => push_document(alloc, text, row),
        Some("entry") => push_within(
            alloc,
            text,
            "{\"schedule\":{\"a\":{\"query\":\"x\",",
            member_text(row, "entry"),
            "}}}",
        ),
        Some("option") => push_within(
            alloc,
            text,
            "{\"options\":{",
            member_text(row, "option"),
            "}}",
        ),
        Some("configured") => push_configured(alloc, text, row),
        _ => Ok(text.push_str("no such row\n")?),
    }
}
