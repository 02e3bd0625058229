//! The texts of frames, and what lines are decoded to.

ghost use Rattle.std.specs.Prelude.{◌≡◌, true};
ghost use Rattle.batch_frames.specs.Valid.{is_valid};

use crate::made::{frame_of, set_members};
use crate::shown::push_frame;
use batch_frames::{BadKind, Frame, FrameError, decode_frame, encode_frame};
use case_text::member_text;
use osq_value::NoMemory;
use serde_json::Value as Json;
use std::alloc::Global;
use std::str;

/// Adds a line, and what it is decoded to.
fn push_line(alloc: Global, text: &mut String, line: &[u8]) -> Result<(), NoMemory> {
    text.push_str(str::from_utf8(line).unwrap_or("no UTF-8"))?;
    text.push_str("\n")?;
    push_decoded(alloc, text, line)
}

/// Adds a valid frame's text, and what it is decoded to.
fn push_valid(alloc: Global, text: &mut String, frame: &Frame) -> Result<(), NoMemory>
    requires { is_valid frame.now ≡ true }
{
    let line = encode_frame(alloc, frame)?;
    push_line(alloc, text, line.as_slice())
}

/// Adds the text of a frame and what that is decoded to.
fn push_text(alloc: Global, text: &mut String, frame: &Frame) -> Result<(), NoMemory> {
    if frame.is_valid() {
        push_valid(alloc, text, frame)
    } else {
        Ok(text.push_str("not valid\n")?)
    }
}

/// Gives a frame what a row has of it, and adds its text and what that is decoded to.
fn push_changed(
    alloc: Global,
    text: &mut String,
    frame: &mut Frame,
    row: &Json,
) -> Result<(), NoMemory> {
    set_members(alloc, frame, row)?;
    push_text(alloc, text, frame)
}

/// Adds the text of the row's frame and what that is decoded to.
pub(crate) fn push_encoded(alloc: Global, text: &mut String, row: &Json) -> Result<(), NoMemory> {
    let mut frame = frame_of(alloc, member_text(row, "frame"), 1, "root")?;
    push_changed(alloc, text, &mut frame, row)
}

fn kind_name(kind: BadKind) -> &'static str {
    match kind {
        BadKind::NotJson => "NotJson",
        BadKind::WrongShape => "WrongShape",
        BadKind::BadDigest => "BadDigest",
        BadKind::NotCanonical => "NotCanonical",
    }
}

/// Adds what is wrong with a line.
fn push_error(text: &mut String, error: FrameError) -> Result<(), NoMemory> {
    match error {
        FrameError::BadFrame { kind } => Ok(writeln!(text, "bad {}", kind_name(kind))?),
        FrameError::NoMemory => Err(NoMemory),
    }
}

/// Adds what a line is decoded to.
pub(crate) fn push_decoded(alloc: Global, text: &mut String, line: &[u8]) -> Result<(), NoMemory> {
    match decode_frame(alloc, line) {
        Ok(frame) => push_frame(alloc, text, &frame),
        Err(error) => push_error(text, error),
    }
}
