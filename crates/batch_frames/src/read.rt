//! The reader of the one text of a frame.

ghost use Rattle.std.specs.Prelude.{IfOk};
ghost use Rattle.batch_frames.specs.Decodes.{ReadsFrame};

use crate::frame::Frame;
use crate::parts::{frame_of_parts, take_query, take_sender, take_slice, take_table};
use osq_value::NoMemory;
use std::alloc::Global;

/// The frame whose text this is; of any other text some frame, whose text is another.
pub(crate) fn read(alloc: Global, text: &[u8]) -> Result<Frame, NoMemory>
    ensures { IfOk result (λ frame. ReadsFrame text.now frame) }
{
    let (sender, rest) = take_sender(alloc, text)?;
    let (query, rest) = take_query(alloc, rest)?;
    let (slice, rest) = take_slice(alloc, rest)?;
    let (table, _) = take_table(alloc, rest)?;
    Ok(frame_of_parts(sender, query, slice, table))
}
