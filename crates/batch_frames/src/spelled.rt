//! Values that have one JSON text.

use osq_value::{Bytes, NoMemory};
use std::alloc::Global;

/// A value that has one text in a frame.
pub trait Spelled: Drop {
    ghost use Rattle.std.specs.Prelude.{◌≡◌, ℕ, List, ◌++◌, IfOk, OnOk};
    ghost use Rattle.batch_frames.specs.Ends.{BeginsValue};
    ghost use Rattle.batch_frames.specs.Takes.{Takes};

    /// The text.
    ghost text: { Self → List ℕ };

    /// Which values the type holds.
    ghost is_held: { Self → Type 0 };

    /// Adds the text. At want of memory a front part of it may stand in the line.
    fn push_to(&self, line: &mut Bytes) -> Result<(), NoMemory>
        ensures { OnOk result (line.new ≡ line.old ++ text self.now) };

    /// The value whose text the bytes begin with, and what stands behind that text. It looks at no more bytes than it needs, so of
    /// bytes that begin with no such text it gives some value: compare the text of what was read.
    fn take(alloc: Global, bytes: &[u8]) -> Result<(Self, &[u8]), NoMemory>
        ensures { IfOk result (λ taken. Takes text is_held bytes.now taken.0 taken.1.now) };

    /// A law: no text begins with the bracket that closes an array.
    fn begins()
        ensures { (value : Self) → is_held value → BeginsValue (text value) };
}
