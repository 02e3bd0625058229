//! The frame of a line.

ghost use Rattle.std.specs.Prelude.{IfOk};
ghost use Rattle.batch_frames.specs.Decodes.{Decodes, DecodesDigested, Finds, IsBad, JudgesDigest, ReadsFrame};

use crate::encode::{digits_in_text, encoded};
use crate::error::{BadKind, FrameError};
use crate::frame::Frame;
use crate::read::read;
use crate::shape::{Shown, shape};
use change_records::JsonLineError;
use osq_value::NoMemory;
use serde_json::Value as Json;
use std::alloc::Global;

/// A frame that was read, and its digest.
#[derive(Drop)]
pub struct Digested {
    /// The frame.
    pub frame: Frame,
    /// The SHA-256 of its text before the last `,"sha256"`.
    pub digest: [u8; 32],
}

/// The valid frame whose text a line is.
fn exact(alloc: Global, line: &[u8]) -> Result<Option<Digested>, NoMemory>
    ensures { IfOk result (Finds line.now) }
{
    let frame = read(alloc, line)?;
    if !frame.is_valid() {
        return Ok(None);
    }
    let (text, digest) = encoded(alloc, &frame, line.len())?;
    if text.as_slice() == line {
        Ok(Some(Digested { frame, digest }))
    } else {
        Ok(None)
    }
}

/// What is wrong with a line that shows a frame and is not its text.
fn bad_digest(alloc: Global, shown: &Shown) -> Result<BadKind, NoMemory>
    ensures { IfOk result (JudgesDigest shown.now) }
{
    let digits = digits_in_text(alloc, &shown.frame)?;
    if shown.digest.as_str().as_bytes() == digits.as_slice() {
        Ok(BadKind::NotCanonical)
    } else {
        Ok(BadKind::BadDigest)
    }
}

/// What is wrong with a line that is no frame.
fn kind_of(alloc: Global, line: &[u8]) -> Result<BadKind, NoMemory>
    ensures { IfOk result (IsBad line.now) }
{
    let value = match Json::from_slice(alloc, line) {
        Ok(value) => value,
        Err(error) if error.is_memory() => return Err(NoMemory),
        Err(_) => return Ok(BadKind::NotJson),
    };
    match shape(alloc, &value) {
        Ok(shown) => bad_digest(alloc, &shown),
        Err(JsonLineError::BadLine) => Ok(BadKind::WrongShape),
        Err(JsonLineError::NoMemory) => Err(NoMemory),
    }
}

/// The frame whose text a line is, as `decode_frame` gives it, with its digest, which is made once.
pub fn decode_digested(alloc: Global, line: &[u8]) -> Result<Digested, FrameError>
    ensures decodes { DecodesDigested line.now result }
    ensures again { IfOk result (λ found. ReadsFrame line.now found.frame) }
{
    match exact(alloc, line)? {
        Some(found) => Ok(found),
        None => Err(FrameError::BadFrame {
            kind: kind_of(alloc, line)?,
        }),
    }
}

/// The frame whose text a line is, without its line feed. BadFrame exactly where the line is no valid frame's text, with the first
/// of these that holds: NotJson where it is no JSON value (RFC 8259, of equal keys the last counts); WrongShape where that isn't an
/// object with exactly the keys of a frame and values of their kinds, or the frame isn't valid; BadDigest where `sha256` isn't the
/// digest of that frame in lower-case hexadecimal; NotCanonical where the line isn't that frame's text.
///
/// ```
/// decode_frame(alloc, b"{\"frame\":1}")   // Err(FrameError::BadFrame { kind: BadKind::WrongShape })
/// decode_frame(alloc, b"{\"frame\":1")    // Err(FrameError::BadFrame { kind: BadKind::NotJson })
/// decode_frame(alloc, encode_frame(alloc, &frame)?.as_slice())   // Ok of an equal frame
/// ```
pub fn decode_frame(alloc: Global, line: &[u8]) -> Result<Frame, FrameError>
    ensures decodes { Decodes line.now result }
    ensures again { IfOk result (ReadsFrame line.now) }
{
    match decode_digested(alloc, line) {
        Ok(found) => Ok(found.frame),
        Err(error) => Err(error),
    }
}
