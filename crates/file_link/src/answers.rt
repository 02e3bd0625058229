//! Answers as lines of what is read.

ghost use Rattle.std.specs.Prelude.{◌≡◌, ◌≤◌, ◌<◌, length, IfOk, OnOk, vec_len};

use osq_value::{Bytes, NoMemory};
use record_lines::{Cut, LINE_LIMIT, LineCutter, PIECE_BYTES};
use std::alloc::{AllocError, Global};

/// The lines of what was read so far, and how much is still to be read.
#[derive(Drop)]
pub struct AnswerLines {
    alloc: Global,
    /// How many bytes are still to be read at most.
    pub(crate) left: u64,
    lines: LineCutter,
}

/// The first of the lines that are cut, which is then taken. One beyond the limit is passed over.
fn first_line(lines: &mut LineCutter) -> Option<Bytes> {
    while let Some(cut) = lines.take_line() {
        if let Cut::Line(line) = cut {
            return Some(line.text);
        }
    }
    None
}

impl AnswerLines {
    /// Nothing was read yet, and so many bytes are to be read.
    pub(crate) fn new(alloc: Global, size: u64) -> AnswerLines
        ensures { result.left ≡ size }
    {
        AnswerLines {
            alloc,
            left: size,
            lines: LineCutter::new(alloc, LINE_LIMIT, 0),
        }
    }

    /// The next line of what was read, which is then taken.
    pub(crate) fn take_line(&mut self) -> Option<Bytes>
        ensures { self.new.left ≡ self.old.left }
    {
        first_line(&mut self.lines)
    }

    /// Room for the piece that is read next.
    pub(crate) fn room(&self) -> Result<Vec<u8>, AllocError>
        ensures { IfOk result (λ piece. vec_len piece ≤ self.now.left) }
    {
        vec![in self.alloc; 0u8; self.left.min(PIECE_BYTES as u64) as usize]
    }

    /// Takes a piece that was read. An empty one is the end, also before the size that was told. Where memory is wanting for a piece no further
    /// line is whole, so that nothing is read behind it.
    pub(crate) fn take_piece(&mut self, piece: &[u8]) -> Result<(), NoMemory>
        requires unread { 0 < self.old.left }
        requires within { length piece.now ≤ self.old.left }
        ensures { OnOk result (self.new.left < self.old.left) }
    {
        let left = self.left - piece.len() as u64;
        self.left = 0;
        self.lines.feed(piece)?;
        if !piece.is_empty() {
            self.left = left;
        }
        Ok(())
    }
}
