//! A stream that is cut into lines.

use crate::given::Given;
use osq_value::NoMemory;
use record_lines::{Cut, LineCutter};
use serde_json::Value as Json;
use std::alloc::Global;
use std::str;

/// Feeds the text by so many bytes. A piece that is refused is told.
fn feed(
    text: &mut String,
    cutter: &mut LineCutter,
    bytes: &[u8],
    width: usize,
) -> Result<(), NoMemory> {
    for piece in bytes.chunks(width.max(1)) {
        match cutter.feed(piece) {
            Ok(()) => {}
            Err(NoMemory) => text.push_str(" refused")?,
        }
    }
    Ok(())
}

/// Adds a line and the offset behind it; a dash in its place where it was too long.
fn push_one(text: &mut String, cut: &Cut) -> Result<(), NoMemory> {
    match cut {
        Cut::Line(line) => {
            let shown = str::from_utf8(line.text.as_slice()).unwrap_or("no UTF-8");
            write!(text, " '{shown}'")?;
            write!(text, "@{}", line.end)?;
        }
        Cut::Skipped { end } => write!(text, " -@{end}")?,
    }
    Ok(())
}

/// Adds each line that is whole; where there is no further one a dot, and how many bytes of text the cutter keeps.
fn push_taken(text: &mut String, cutter: &mut LineCutter) -> Result<(), NoMemory> {
    for _ in 0..u64::MAX {
        match cutter.take_line() {
            Some(cut) => push_one(text, &cut)?,
            None => break,
        }
    }
    write!(text, " .{}", cutter.held())?;
    Ok(())
}

/// Feeds the text of an item by so many bytes, and adds the lines that are whole behind it.
fn push_fed(
    alloc: Global,
    text: &mut String,
    cutter: &mut LineCutter,
    given: Given<'_>,
    item: &Json,
    width: usize,
) -> Result<(), NoMemory> {
    let bytes = given.text(alloc, item)?;
    feed(text, cutter, bytes.as_slice(), width)?;
    push_taken(text, cutter)
}

/// Adds what the cutter gives behind each of the texts, which are fed by so many bytes.
fn push_texts(
    alloc: Global,
    text: &mut String,
    cutter: &mut LineCutter,
    given: Given<'_>,
    width: usize,
) -> Result<(), NoMemory> {
    write!(text, "  by {width}:")?;
    for item in given.items("cut") {
        push_fed(alloc, text, cutter, given, item, width)?;
    }
    Ok(text.push_str("\n")?)
}

/// Adds what a cutter gives where it is fed by so many bytes.
fn push_run(
    alloc: Global,
    text: &mut String,
    given: Given<'_>,
    width: usize,
) -> Result<(), NoMemory> {
    let limit = given.number("limit").unwrap_or(0);
    let offset = given.number("offset").unwrap_or(0);
    let mut cutter = LineCutter::new(alloc, limit, offset);
    push_texts(alloc, text, &mut cutter, given, width)
}

/// Adds a line for each width.
pub(crate) fn push_cut(alloc: Global, text: &mut String, given: Given<'_>) -> Result<(), NoMemory> {
    let widths = given.widths(alloc)?;
    for width in widths.as_slice() {
        push_run(alloc, text, given, *width)?;
    }
    Ok(())
}
