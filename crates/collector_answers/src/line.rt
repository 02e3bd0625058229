//! The text of an answer.

ghost use Rattle.std.specs.Prelude.{◌≡◌, ◌++◌, IfOk, OnOk};
ghost use Rattle.result_batches.specs.Frames.{hexadecimal};
ghost use Rattle.result_batches.specs.Json.{quoted};
ghost use Rattle.collector_answers.specs.Lines.{bad_line, conflict_line, counted_line, front_of, line_of, told};

use crate::answer::{Answer, BadAnswer, Digest};
use batch_frames::spelled::Spelled;
use osq_value::{Bytes, NoMemory, Str};
use result_batches::escape::push_quoted;
use std::alloc::Global;

/// What stands before the host of an answer to a frame that is recorded now.
pub(crate) const RECORDED: &str = "{\"answer\":\"recorded\",\"host\":";

/// What stands before the host of an answer to a frame that was recorded before.
pub(crate) const REPEAT: &str = "{\"answer\":\"repeat\",\"host\":";

/// What stands before the host of an answer to a frame that came too early.
pub(crate) const GAP: &str = "{\"answer\":\"gap\",\"host\":";

/// What stands before the host of an answer to another frame of a number that is recorded.
pub(crate) const CONFLICT: &str = "{\"answer\":\"conflict\",\"host\":";

/// What stands before the kind of an answer to a line that is no frame.
pub(crate) const BAD: &str = "{\"answer\":\"bad\",\"kind\":\"";

/// Adds what every answer to a frame tells.
#[tactic(auto, unfolding(crate::specs::Lines::told))]
fn push_told(
    line: &mut Bytes,
    front: &str,
    host: &Str,
    number: u64,
    recorded: u64,
) -> Result<(), NoMemory>
    ensures { OnOk result (line.new ≡ line.old ++ told front.now host.now number recorded) }
{
    line.extend(front.as_bytes())?;
    host.push_to(line)?;
    line.extend(b",\"number\":")?;
    number.push_to(line)?;
    line.extend(b",\"recorded\":")?;
    recorded.push_to(line)
}

/// Adds the answer to a frame that doesn't conflict with another.
#[tactic(auto, unfolding(crate::specs::Lines::counted_line))]
fn push_counted(
    line: &mut Bytes,
    front: &str,
    host: &Str,
    number: u64,
    recorded: u64,
) -> Result<(), NoMemory>
    ensures { OnOk result (line.new ≡ line.old ++ counted_line front.now host.now number recorded) }
{
    push_told(line, front, host, number, recorded)?;
    line.extend(b"}")
}

/// Adds a digest behind its key.
fn push_digest(alloc: Global, line: &mut Bytes, front: &str, digest: &[u8]) -> Result<(), NoMemory>
    ensures { OnOk result (line.new ≡ line.old ++ front.now ++ quoted (hexadecimal digest.now)) }
{
    let digits = hex::encode(alloc, digest)?;
    line.extend(front.as_bytes())?;
    push_quoted(line, digits.as_bytes())
}

/// Adds both digests of frames that conflict.
#[tactic(auto, unfolding(crate::specs::Lines::conflict_line))]
fn push_digests(
    alloc: Global,
    line: &mut Bytes,
    kept: &Digest,
    found: &Digest,
) -> Result<(), NoMemory>
    ensures { OnOk result (line.new ≡ line.old ++ conflict_line kept.now found.now) }
{
    push_digest(alloc, line, ",\"kept\":", kept)?;
    push_digest(alloc, line, ",\"found\":", found)?;
    line.extend(b"}")
}

/// Adds the answer to a line that is no frame.
#[tactic(auto, unfolding(crate::specs::Lines::bad_line))]
fn push_bad(line: &mut Bytes, kind: BadAnswer) -> Result<(), NoMemory>
    ensures { OnOk result (line.new ≡ line.old ++ bad_line kind) }
{
    line.extend(BAD.as_bytes())?;
    line.extend(kind.name().as_bytes())?;
    line.extend(b"\"}")
}

/// Adds the text of an answer, without a line feed. At want of memory a front part of it may stand there.
pub fn push_answer(alloc: Global, line: &mut Bytes, answer: &Answer) -> Result<(), NoMemory>
    ensures { OnOk result (line.new ≡ line.old ++ line_of answer.now) }
{
    match answer {
        Answer::Recorded {
            host,
            number,
            recorded,
        } => push_counted(line, RECORDED, host, *number, *recorded),
        Answer::Repeat {
            host,
            number,
            recorded,
        } => push_counted(line, REPEAT, host, *number, *recorded),
        Answer::Gap {
            host,
            number,
            recorded,
        } => push_counted(line, GAP, host, *number, *recorded),
        Answer::Conflict {
            host,
            number,
            recorded,
            kept,
            found,
        } => {
            push_told(line, CONFLICT, host, *number, *recorded)?;
            push_digests(alloc, line, kept, found)
        }
        Answer::Bad { kind } => push_bad(line, *kind),
    }
}

/// The text of an answer, without a line feed.
///
/// ```
/// answer_line(alloc, &Answer::Gap { host, number: 2, recorded: 0 })?   // {"answer":"gap","host":"h1","number":2,"recorded":0}
/// answer_line(alloc, &Answer::Bad { kind: BadAnswer::NotJson })?       // {"answer":"bad","kind":"NotJson"}
/// ```
pub fn answer_line(alloc: Global, answer: &Answer) -> Result<Bytes, NoMemory>
    ensures { IfOk result (λ line. line ≡ line_of answer.now) }
{
    let mut line = Bytes::new(alloc);
    push_answer(alloc, &mut line, answer)?;
    Ok(line)
}
