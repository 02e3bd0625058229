//! Answers of rows, their texts and what lines are read to.

use crate::rows::push_bytes;
use case_text::{bytes_of, member_text};
use collector_answers::{Answer, BadAnswer, Digest, answer_line, read_answer};
use osq_value::{NoMemory, Str};
use serde_json::Value as Json;
use std::alloc::Global;

/// The number of a member, or 0 where it has none.
fn number_of(row: &Json, name: &str) -> u64 {
    row.get(name).and_then(Json::as_u64).unwrap_or(0)
}

/// The digest that has the byte of a member 32 times.
fn digest_of(row: &Json, name: &str) -> Digest {
    [u8::try_from(number_of(row, name)).unwrap_or(0); 32]
}

/// The kind of a name.
fn kind_of(name: &str) -> BadAnswer {
    match name {
        "TooLong" => BadAnswer::TooLong,
        "NotJson" => BadAnswer::NotJson,
        "WrongShape" => BadAnswer::WrongShape,
        "BadDigest" => BadAnswer::BadDigest,
        _ => BadAnswer::NotCanonical,
    }
}

/// The answer of a row.
fn answer_of(alloc: Global, row: &Json) -> Result<Answer, NoMemory> {
    let host = Str::of(alloc, member_text(row, "host"))?;
    let number = number_of(row, "number");
    let recorded = number_of(row, "recorded");
    Ok(match member_text(row, "answer") {
        "recorded" => Answer::Recorded {
            host,
            number,
            recorded,
        },
        "repeat" => Answer::Repeat {
            host,
            number,
            recorded,
        },
        "gap" => Answer::Gap {
            host,
            number,
            recorded,
        },
        "conflict" => Answer::Conflict {
            host,
            number,
            recorded,
            kept: digest_of(row, "kept"),
            found: digest_of(row, "found"),
        },
        _ => Answer::Bad {
            kind: kind_of(member_text(row, "kind")),
        },
    })
}

/// Adds a name and what is told of a frame.
fn push_told(
    text: &mut String,
    name: &str,
    host: &Str,
    number: u64,
    recorded: u64,
) -> Result<(), NoMemory> {
    Ok(writeln!(text, "{name} '{}' {number} {recorded}", host.as_str())?)
}

/// Adds a label and a digest.
fn push_digest(
    alloc: Global,
    text: &mut String,
    label: &str,
    digest: &Digest,
) -> Result<(), NoMemory> {
    let digits = hex::encode(alloc, digest)?;
    Ok(writeln!(text, "{label} {digits}")?)
}

/// Adds an answer's parts.
fn push_parts(alloc: Global, text: &mut String, answer: &Answer) -> Result<(), NoMemory> {
    match answer {
        Answer::Recorded {
            host,
            number,
            recorded,
        } => push_told(text, "recorded", host, *number, *recorded),
        Answer::Repeat {
            host,
            number,
            recorded,
        } => push_told(text, "repeat", host, *number, *recorded),
        Answer::Gap {
            host,
            number,
            recorded,
        } => push_told(text, "gap", host, *number, *recorded),
        Answer::Conflict {
            host,
            number,
            recorded,
            kept,
            found,
        } => {
            push_told(text, "conflict", host, *number, *recorded)?;
            push_digest(alloc, text, "kept", kept)?;
            push_digest(alloc, text, "found", found)
        }
        Answer::Bad { kind } => Ok(writeln!(text, "bad {}", kind.name())?),
    }
}

/// Adds what a line is read to.
fn push_read(alloc: Global, text: &mut String, line: &[u8]) -> Result<(), NoMemory> {
    match read_answer(alloc, line)? {
        Some(answer) => push_parts(alloc, text, &answer),
        None => Ok(text.push_str("no answer\n")?),
    }
}

/// Adds the text of the row's answer, and what that is read to.
pub(crate) fn push_answered(alloc: Global, text: &mut String, row: &Json) -> Result<(), NoMemory> {
    let answer = answer_of(alloc, row)?;
    let line = answer_line(alloc, &answer)?;
    push_bytes(text, line.as_slice())?;
    push_read(alloc, text, line.as_slice())
}

/// Adds the answer that the row's line is.
pub(crate) fn push_line(alloc: Global, text: &mut String, row: &Json) -> Result<(), NoMemory> {
    let line = bytes_of(alloc, row.get("line").unwrap_or(row))?;
    push_read(alloc, text, line.as_slice())
}
