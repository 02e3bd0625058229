//! Frames that lines give.

ghost use Rattle.std.specs.Prelude.{◌≡◌, true};
ghost use Rattle.batch_frames.specs.Valid.{is_valid};

use batch_frames::{Frame, FrameError, decode_frame};
use fleet_query::Fleet;
use osq_value::NoMemory;
use std::alloc::Global;

/// Adds a valid frame where it is the next of its host, and tells else that it isn't.
fn add_next(text: &mut String, fleet: &mut Fleet, frame: Frame) -> Result<(), NoMemory>
    requires { is_valid frame ≡ true }
{
    let recorded = fleet.frames(frame.host.as_str()).len() as u64;
    if frame.batch.number.checked_sub(1) == Some(recorded) {
        fleet.add(frame)
    } else {
        Ok(text.push_str("not the next\n")?)
    }
}

/// Adds the frame of a line.
pub(crate) fn add_line(
    alloc: Global,
    text: &mut String,
    fleet: &mut Fleet,
    line: &str,
) -> Result<(), NoMemory> {
    match decode_frame(alloc, line.as_bytes()) {
        Ok(frame) => add_next(text, fleet, frame),
        Err(FrameError::BadFrame { .. }) => Ok(text.push_str("no frame\n")?),
        Err(FrameError::NoMemory) => Err(NoMemory),
    }
}
