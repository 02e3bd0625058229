//! Polls of a link.

use crate::given::push_odd;
use crate::made::answers_of;
use batch_forwarder::{Link, LinkError, MemoryLink};
use case_text::{LineKind, fails_of};
use osq_value::{Bytes, NoMemory};
use serde_json::Value as Json;
use std::alloc::Global;
use std::str;

/// The line of a link.
const LINE: LineKind = ("link", &[]);

/// A link.
const LINK: LineKind = ("answers", &["fails", "polls"]);

/// The link whose answers and failing calls an object gives.
fn link_of(alloc: Global, texts: &[Json], item: &Json) -> Result<MemoryLink, NoMemory> {
    let fails = fails_of(alloc, item.get("fails"))?;
    Ok(MemoryLink::new(alloc, answers_of(alloc, texts, item.get("answers"))?, fails))
}

/// Adds an answer that was polled.
fn push_answer(text: &mut String, answer: &Bytes) -> Result<(), NoMemory> {
    let answer = str::from_utf8(answer.as_slice()).unwrap_or("no text");
    Ok(writeln!(text, "polled {answer}")?)
}

/// Polls once, and adds what that gave.
fn push_poll(text: &mut String, link: &mut MemoryLink) -> Result<(), NoMemory> {
    match link.poll() {
        Ok(Some(answer)) => push_answer(text, &answer),
        Ok(None) => Ok(text.push_str("polled nothing\n")?),
        Err(LinkError::Fault) => Ok(text.push_str("polled a fault\n")?),
        Err(LinkError::NoMemory) => Err(NoMemory),
    }
}

/// Polls as often as an object says, and adds what each poll gave and how many frames were sent.
fn push_polls(text: &mut String, link: &mut MemoryLink, item: &Json) -> Result<(), NoMemory> {
    for _ in 0..item.get("polls").and_then(Json::as_u64).unwrap_or(0) {
        push_poll(text, link)?;
    }
    Ok(writeln!(text, "sent {} frames", link.sent().len())?)
}

/// Polls the link of an object.
fn push_polled(
    alloc: Global,
    text: &mut String,
    texts: &[Json],
    item: &Json,
) -> Result<(), NoMemory> {
    let mut link = link_of(alloc, texts, item)?;
    push_polls(text, &mut link, item)
}

/// Polls the link of an object, and adds what each poll gave and how many frames were sent, behind what no such line may have.
pub(crate) fn push_link_line(
    alloc: Global,
    text: &mut String,
    texts: &[Json],
    line: &Json,
    item: &Json,
) -> Result<(), NoMemory> {
    push_odd(text, "line of a link", line, LINE)?;
    push_odd(text, "link", item, LINK)?;
    push_polled(alloc, text, texts, item)
}
