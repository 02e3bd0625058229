//! Frames.

ghost use Rattle.std.specs.Prelude.{◌≡◌, length};
ghost use Rattle.batch_frames.specs.Valid.{are_wide, has_numbers, is_host, is_number, is_valid};

use entry_model::entry::Batch;
use osq_value::{Row, Str, TextList};

/// A batch of a host, as it is sent to a collector.
#[derive(Drop)]
pub struct Frame {
    /// The host's identifier.
    pub host: Str,
    /// The batch.
    pub batch: Batch,
    /// The names of the columns of the batch's rows.
    pub names: TextList,
}

/// The most bytes of a host's identifier.
const HOST_BYTES: usize = 255;

/// Numbers of frames are below 2^63.
fn is_number(number: u64) -> bool
    ensures { result ≡ is_number number }
{
    number < 1 << 63
}

fn is_host(host: &Str) -> bool
    ensures { result ≡ is_host host.now }
{
    1 <= host.len() && host.len() <= HOST_BYTES
}

fn has_numbers(batch: &Batch) -> bool
    ensures { result ≡ has_numbers batch.now }
{
    1 <= batch.number
        && is_number(batch.number)
        && is_number(batch.lo)
        && is_number(batch.hi)
        && is_number(batch.cut)
        && is_number(batch.moment)
}

fn are_wide(width: usize, rows: &[Row]) -> bool
    ensures { result ≡ are_wide width rows.now }
{
    rows.iter().all(|row| row.len() == width)
}

impl Frame {
    /// The frame is valid: the host has 1 to 255 bytes, the batch's number is at least 1, its numbers are below 2^63, and its rows
    /// are as wide as the names.
    pub fn is_valid(&self) -> bool
        ensures { result ≡ is_valid self.now }
    {
        is_host(&self.host)
            && has_numbers(&self.batch)
            && are_wide(self.names.len(), self.batch.rows.as_slice())
    }
}
