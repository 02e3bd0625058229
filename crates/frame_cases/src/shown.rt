//! Frames and digests as text.

ghost use Rattle.std.specs.Prelude.{◌≡◌, true};
ghost use Rattle.batch_frames.specs.Valid.{is_valid};

use batch_frames::{Frame, digest_of};
use case_text::push_rows;
use entry_model::entry::Batch;
use osq_value::NoMemory;
use std::alloc::Global;

/// Adds a label and the digits of a digest.
pub(crate) fn push_digest(
    alloc: Global,
    text: &mut String,
    label: &str,
    digest: &[u8; 32],
) -> Result<(), NoMemory> {
    let digits = hex::encode(alloc, digest)?;
    Ok(writeln!(text, "{label} {digits}")?)
}

fn push_number(text: &mut String, name: &str, number: u64) -> Result<(), NoMemory> {
    Ok(write!(text, " {name} {number}")?)
}

fn push_numbers(text: &mut String, batch: &Batch) -> Result<(), NoMemory> {
    push_number(text, "number", batch.number)?;
    push_number(text, "lo", batch.lo)?;
    push_number(text, "hi", batch.hi)?;
    push_number(text, "cut", batch.cut)?;
    push_number(text, "moment", batch.moment)
}

/// Adds a frame's parts.
pub(crate) fn push_frame(alloc: Global, text: &mut String, frame: &Frame) -> Result<(), NoMemory>
    requires { is_valid frame.now ≡ true }
{
    write!(text, "host {}", frame.host.as_str())?;
    push_numbers(text, &frame.batch)?;
    text.push_str("\nrows")?;
    push_rows(text, &frame.batch.rows)?;
    text.push_str("\n")?;
    push_digest(alloc, text, "digest", &digest_of(alloc, frame)?)
}
