//! Calls, as lines give them.

use crate::shown::push_number;
use case_text::{LineKind, kind_of, member_text, odd_member};
use osq_value::NoMemory;
use serde_json::Value as Json;

/// The kinds of lines, and the other members of those that are no calls by name. One that asks whether values fit may have runs too.
const KINDS: [LineKind; 8] = [
    ("case", &[]),
    ("state", &[]),
    ("image", &[]),
    ("cursors", &[]),
    ("due", &["interval", "last", "moment"]),
    ("fits", &VALUES),
    ("runs", &["queries"]),
    ("values", &[]),
];

/// The members of values.
const VALUES: [&str; 11] = [
    "position", "sessions", "moment", "last", "floors", "live", "taken", "tables", "runs",
    "batches", "acked",
];

/// The calls of a session, and the other members that each may have.
const STATE_CALLS: [LineKind; 13] = [
    ("begin", &[]),
    (
        "configure",
        &["queries", "events_expiry", "events_max", "moment"],
    ),
    ("tick", &["moment"]),
    (
        "append",
        &["source", "taken", "events", "skipped", "table", "rows"],
    ),
    ("claim", &[]),
    ("commit", &["cut"]),
    ("release", &["cut"]),
    ("expire", &[]),
    ("acknowledge", &["upto"]),
    ("tail", &[]),
    ("show", &[]),
    ("view", &["tables", "above", "moment"]),
    ("ask", &["text", "moment"]),
];

/// Those of an image and of its slice.
const IMAGE_CALLS: [LineKind; 8] = [
    ("append", &["events", "moment"]),
    ("set_table", &["table", "rows"]),
    ("expire", &["table", "floor"]),
    (
        "floor_owed",
        &["table", "events_expiry", "events_max", "moment", "reached"],
    ),
    ("show", &[]),
    ("slice", &["above"]),
    ("set_computed", &["table", "rows"]),
    ("view", &["tables"]),
];

/// Those of cursors.
const CURSOR_CALLS: [LineKind; 5] = [
    ("next_due", &["claimed", "moment"]),
    ("first_due", &["moment"]),
    ("find", &["query", "place"]),
    ("reached", &["readers", "last"]),
    (
        "record_commit",
        &["query", "place", "number", "hi", "moment"],
    ),
];

/// A line and its kind.
#[derive(Clone, Copy)]
pub(crate) struct Call<'a> {
    kind: LineKind,
    pub(crate) line: &'a Json,
}

/// What no line has.
#[derive(Clone, Copy)]
pub(crate) enum Fault<'a> {
    /// There is no such call.
    NoCall,
    /// No such line has this member.
    Odd(&'a str),
}

/// The calls by name of this kind; none where it has no names.
fn calls_of(kind: &str) -> &'static [LineKind] {
    match kind {
        "state" => &STATE_CALLS,
        "image" => &IMAGE_CALLS,
        "cursors" => &CURSOR_CALLS,
        _ => &[],
    }
}

/// The other members that a line of this kind and name may have; none where there is no such call.
fn members_of(kind: LineKind, name: &str) -> Option<LineKind> {
    let calls = calls_of(kind.0);
    if calls.is_empty() {
        return Some(kind);
    }
    let call = calls.iter().find(|call| call.0 == name)?;
    Some((kind.0, call.1))
}

impl<'a> Call<'a> {
    /// The line as one of its kind.
    pub(crate) fn of(line: &'a Json) -> Option<Call<'a>> {
        let kind = kind_of(line, &KINDS)?;
        Some(Call { kind, line })
    }

    pub(crate) fn kind(self) -> &'static str {
        self.kind.0
    }

    /// What the line says of its kind: the name of a call.
    pub(crate) fn name(self) -> &'a str {
        member_text(self.line, self.kind.0)
    }

    /// It gives values or runs.
    pub(crate) fn gives(self) -> bool {
        self.kind.0 == "values" || self.kind.0 == "runs"
    }

    /// The first member that no values have, of a line that gives values.
    fn odd_value(self) -> Option<&'a str> {
        odd_member(self.line.get("values")?, ("values", &VALUES))
    }

    /// What no line has, where this one has it.
    pub(crate) fn fault(self) -> Option<Fault<'a>> {
        let Some(allowed) = members_of(self.kind, self.name()) else {
            return Some(Fault::NoCall);
        };
        let odd = odd_member(self.line, allowed).or(self.odd_value())?;
        Some(Fault::Odd(odd))
    }

    /// Adds what the line is, its other texts and numbers, each behind its member's name, and a colon.
    pub(crate) fn push_head(self, text: &mut String) -> Result<(), NoMemory> {
        self.push_name(text)?;
        let Some(members) = self.line.as_object() else {
            return Ok(());
        };
        for (key, value) in members.iter() {
            if key.as_str() != self.kind.0 {
                push_member(text, key.as_str(), value)?;
            }
        }
        Ok(text.push_str(":")?)
    }

    fn push_name(self, text: &mut String) -> Result<(), NoMemory> {
        text.push_str(self.kind.0)?;
        text.push_str(" ")?;
        Ok(text.push_str(self.name())?)
    }

    /// Adds what no line has.
    pub(crate) fn push_fault(self, text: &mut String, fault: Fault<'_>) -> Result<(), NoMemory> {
        match fault {
            Fault::NoCall => {
                text.push_str("no call: ")?;
                self.push_name(text)?;
            }
            Fault::Odd(member) => {
                text.push_str("no ")?;
                self.push_name(text)?;
                text.push_str(" has ")?;
                text.push_str(member)?;
            }
        }
        Ok(text.push_str("\n")?)
    }
}

/// Adds a blank, the member's name and a blank.
fn push_key(text: &mut String, key: &str) -> Result<(), NoMemory> {
    text.push_str(" ")?;
    text.push_str(key)?;
    Ok(text.push_str(" ")?)
}

fn push_text(text: &mut String, key: &str, part: &str) -> Result<(), NoMemory> {
    push_key(text, key)?;
    Ok(text.push_str(part)?)
}

fn push_key_number(text: &mut String, key: &str, number: u64) -> Result<(), NoMemory> {
    push_key(text, key)?;
    push_number(text, "", number)
}

/// Adds a member that is a text or a number.
fn push_member(text: &mut String, key: &str, value: &Json) -> Result<(), NoMemory> {
    if let Some(part) = value.as_str() {
        return push_text(text, key, part);
    }
    match value.as_u64() {
        Some(number) => push_key_number(text, key, number),
        None => Ok(()),
    }
}
