ghost use Rattle.std.specs.Prelude.{◌≡◌, ℕ, ◌+◌, ◌<◌, ◌≤◌, ◌^◌, List, [], ◌++◌, length, OnOk, OnErr, IfOk};
ghost use Rattle.record_lines.specs.Lines.{cut_of};
ghost use Rattle.record_lines.specs.Rests.{IsRest};
ghost use Rattle.record_lines.specs.Held.{text_size};

use crate::line::{Cut, Line};
use osq_value::{Bytes, NoMemory};
use std::alloc::Global;

/// A line whose line feed hasn't come yet: how many bytes it has so far, and these bytes where they aren't more than the limit.
#[derive(Drop)]
pub struct Partial {
    /// The number of its bytes so far, also where they aren't kept.
    pub size: u64,
    /// These bytes; empty where there are more of them than the limit.
    pub bytes: Bytes,
}

impl Partial {
    /// A line of which no byte has come.
    pub fn new(alloc: Global) -> Self
        ensures size { result.size ≡ 0 }
        ensures bytes { result.bytes ≡ [] }
    {
        Partial {
            size: 0,
            bytes: Bytes::new(alloc),
        }
    }

    /// The line goes on with a piece that has no line feed.
    pub fn grow(&mut self, alloc: Global, limit: u64, piece: &[u8]) -> Result<(), NoMemory>
        requires { self.old.size + length piece.now < 2 ^ 64 }
        ensures ok { (rest : List ℕ) → IsRest limit rest self.old → OnOk result (IsRest limit (rest ++ piece.now) self.new) }
        ensures size { self.new.size ≤ self.old.size + length piece.now }
        ensures kept { length self.old.bytes ≤ self.old.size → length self.old.bytes ≤ limit → (length self.new.bytes ≤ self.new.size) × (length self.new.bytes ≤ limit) }
        ensures err { OnErr result (self.new ≡ self.old) }
    {
        let size = self.size + piece.len() as u64;
        if size <= limit {
            self.bytes.extend(piece)?;
        } else {
            self.bytes = Bytes::new(alloc);
        }
        self.size = size;
        Ok(())
    }

    /// The line is at its end.
    pub fn into_cut(self, limit: u64, end: u64) -> Cut
        ensures cut { (line : List ℕ) → IsRest limit line self → result ≡ cut_of limit end line }
        ensures text { text_size result ≤ length self.bytes }
    {
        if self.size <= limit {
            Cut::Line(Line {
                text: self.bytes,
                end,
            })
        } else {
            Cut::Skipped { end }
        }
    }
}
