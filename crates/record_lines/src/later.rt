ghost use Rattle.std.specs.Prelude.{◌≡◌, ℕ, ◌+◌, ◌<◌, ◌^◌, length, IfOk};
ghost use Rattle.record_lines.specs.Lines.{cut_of, cuts_of, lines_of, rest_of};
ghost use Rattle.record_lines.specs.Rests.{IsRest};

use crate::line::Cut;
use crate::partial::Partial;
use memchr::memchr;
use osq_value::NoMemory;
use std::alloc::Global;
use std::collections::VecDeque;

/// What a piece has behind its first line feed: whole lines, and a rest that begins at an offset.
#[derive(Drop)]
pub struct Later {
    /// The whole lines, in order.
    pub cuts: VecDeque<Cut>,
    /// The stream's offset, in bytes, where the rest begins.
    pub begun: u64,
    /// The rest, which has no line feed.
    pub partial: Partial,
}

/// Cuts bytes that begin with a line, at this offset of the stream.
pub fn cut_all(alloc: Global, limit: u64, start: u64, bytes: &[u8]) -> Result<Later, NoMemory>
    requires { start + length bytes.now < 2 ^ 64 }
    ensures cuts { IfOk result (λ later. later.cuts.items ≡ cuts_of limit start (lines_of bytes.now)) }
    ensures begun { IfOk result (λ later. later.begun + length (rest_of bytes.now) ≡ start + length bytes.now) }
    ensures rest { IfOk result (λ later. IsRest limit (rest_of bytes.now) later.partial) }
{
    let mut cuts = VecDeque::new(alloc);
    let mut begun = start;
    let mut rest = bytes;
    while let Some(at) = memchr(b'\n', rest) {
        let (line, behind) = rest.split_at(at);
        let (_, behind) = behind.split_at(1);
        begun += at as u64 + 1;
        cuts.push_back(whole(alloc, limit, begun, line)?)?;
        rest = behind;
    }
    let mut partial = Partial::new(alloc);
    partial.grow(alloc, limit, rest)?;
    Ok(Later {
        cuts,
        begun,
        partial,
    })
}

/// What becomes of a whole line.
fn whole(alloc: Global, limit: u64, end: u64, line: &[u8]) -> Result<Cut, NoMemory>
    requires { length line.now < 2 ^ 64 }
    ensures { IfOk result (λ cut. cut ≡ cut_of limit end line.now) }
{
    let mut partial = Partial::new(alloc);
    partial.grow(alloc, limit, line)?;
    Ok(partial.into_cut(limit, end))
}
