//! What lines name, and what is answered to a line.

use crate::audit::{push_audit, push_event};
use crate::changes::{push_change, push_matches, push_table};
use crate::cutting::push_cut;
use crate::feeding::push_feed;
use crate::gathering::{push_gathered, push_groups};
use crate::given::Given;
use crate::publishing::push_published;
use crate::recording::push_recorded;
use crate::text::push_escaped;
use case_text::{Bench, LineKind, json_of_line, kind_of, odd_member};
use osq_value::NoMemory;
use serde_json::Value as Json;
use std::alloc::Global;

/// The members that lines of some kind have beside that.
const MEMBERS: &[&str] = &[
    "paths", "limit", "offset", "by", "source", "kept", "most", "steps", "fails", "is_whole",
    "is_shown",
];

/// The kinds of lines.
const KINDS: [LineKind; 11] = [
    ("audit", MEMBERS),
    ("groups", MEMBERS),
    ("gathers", MEMBERS),
    ("event", MEMBERS),
    ("change", MEMBERS),
    ("pattern", MEMBERS),
    ("table", MEMBERS),
    ("cut", MEMBERS),
    ("publisher", MEMBERS),
    ("records", MEMBERS),
    ("feed", MEMBERS),
];

/// Adds what is made of a line of a log, or of lines.
fn push_lines(
    alloc: Global,
    text: &mut String,
    given: Given<'_>,
    kind: &str,
) -> Result<(), NoMemory> {
    match kind {
        "audit" => push_audit(alloc, text, given),
        "groups" => push_groups(alloc, text, given),
        "gathers" => push_gathered(alloc, text, given),
        "event" => push_event(alloc, text, given),
        _ => push_cut(alloc, text, given),
    }
}

/// Adds what is made of a line of this kind.
fn push_made(
    alloc: Global,
    text: &mut String,
    given: Given<'_>,
    kind: &str,
) -> Result<(), NoMemory> {
    match kind {
        "change" => push_change(alloc, text, given),
        "pattern" => push_matches(text, given),
        "table" => push_table(alloc, text, given),
        "publisher" => push_published(alloc, text, given),
        "records" => push_recorded(alloc, text, given),
        "feed" => push_feed(alloc, text, given),
        _ => push_lines(alloc, text, given, kind),
    }
}

/// Adds what is made of a line, or what it has that no line may have.
fn push_answer(alloc: Global, text: &mut String, given: Given<'_>) -> Result<(), NoMemory> {
    let Some(kind) = kind_of(given.line, KINDS.as_slice()) else {
        return Ok(text.push_str("  no kind of line\n")?);
    };
    match odd_member(given.line, kind) {
        Some(key) => Ok(writeln!(text, "  no line has {key}")?),
        None => push_made(alloc, text, given, kind.0),
    }
}

/// Adds what is made of a line's JSON, which is Null where the line is none.
fn push_told(alloc: Global, text: &mut String, given: Given<'_>) -> Result<(), NoMemory> {
    if given.line.is_null() {
        return Ok(text.push_str("  not JSON\n")?);
    }
    push_answer(alloc, text, given)
}

/// Adds a line, and below it what is made of it.
fn push_line(
    alloc: Global,
    text: &mut String,
    line: &str,
    given: Given<'_>,
) -> Result<(), NoMemory> {
    writeln!(text, "{line}")?;
    let mut answer = String::new(alloc);
    push_told(alloc, &mut answer, given)?;
    push_escaped(text, answer.as_str())
}

/// The texts and the categories that lines gave.
#[derive(Drop)]
pub(crate) struct Common {
    texts: Json,
    categories: Json,
}

impl Common {
    pub(crate) fn new() -> Common {
        Common {
            texts: Json::Null,
            categories: Json::Null,
        }
    }

    /// Keeps a line that gives texts or categories, and hands any other back.
    fn keep(&mut self, line: Json) -> Option<Json> {
        if line.get("texts").is_some() {
            self.texts = line;
            None
        } else if line.get("categories").is_some() {
            self.categories = line;
            None
        } else {
            Some(line)
        }
    }

    /// A line with what those before it gave.
    fn given<'a>(&'a self, line: &'a Json) -> Given<'a> {
        Given {
            line,
            texts: &self.texts,
            categories: &self.categories,
        }
    }

    /// Keeps a line that gives texts or categories, and answers any other.
    fn take(
        &mut self,
        alloc: Global,
        text: &mut String,
        line: &str,
        row: Json,
    ) -> Result<(), NoMemory> {
        match self.keep(row) {
            Some(row) => push_line(alloc, text, line, self.given(&row)),
            None => Ok(()),
        }
    }
}

impl Bench for Common {
    fn take_line(&mut self, alloc: Global, line: &str) -> Result<String, NoMemory> {
        let mut text = String::new(alloc);
        if let Some(row) = json_of_line(alloc, line)? {
            self.take(alloc, &mut text, line, row)?;
        }
        Ok(text)
    }
}
