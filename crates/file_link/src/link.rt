//! The link over a sink and a source.

ghost use Rattle.std.specs.Prelude.{◌≡◌, ◌≤◌, ◌++◌, ◌∷◌, [], false, if◌then◌else◌, OnOk};
ghost use Rattle.osq_outside.specs.Causes.{HasCause, FaultHasCause, Rose};

use crate::answers::AnswerLines;
use crate::frames::FrameLines;
use batch_forwarder::{Link, LinkError, LinkFault};
use batch_keeper::Keeper;
use osq_outside::{Sink, SinkFault, Source};
use osq_value::Bytes;
use std::alloc::Global;

/// A link whose frames are lines of a sink, and whose answers are lines of a source. It tells nothing of either.
///
/// ```
/// let mut link = FileLink::new(alloc, sink, source, 14);   // the source has `one\ntwo\nrest`
/// link.append(b"frame")     // Ok(()): the sink has `frame` and a line feed more
/// link.poll()               // Ok(Some(..)): `one`
/// link.poll()               // Ok(Some(..)): `two`
/// link.poll()               // Ok(None): the rest has no line feed
/// ```
#[derive(Drop)]
pub struct FileLink<O, S> {
    frames: FrameLines<O>,
    source: S,
    answers: AnswerLines,
    faults: u64,
}

impl<O, S> FileLink<O, S> {
    /// A link that hasn't failed yet. Its answers are those lines of the source that end within the first `size` bytes.
    pub fn new(alloc: Global, frames: O, source: S, size: u64) -> FileLink<O, S>
        ensures frames { result.frames ≡ record { sink = frames; is_torn = false } }
        ensures answers { (result.source ≡ source) × (result.answers.left ≡ size) }
        ensures faults { result.faults ≡ 0 }
    {
        FileLink {
            frames: FrameLines::new(frames),
            source,
            answers: AnswerLines::new(alloc, size),
            faults: 0,
        }
    }

    /// Counts a fault.
    fn count_fault(&mut self)
        ensures alone { (self.new.frames ≡ self.old.frames) × (self.new.source ≡ self.old.source) × (self.new.answers ≡ self.old.answers) }
        ensures later { self.old.faults ≤ self.new.faults }
        ensures rose { Rose self.old.faults self.new.faults }
    {
        self.faults = self.faults.saturating_add(1);
    }
}

impl<O: Sink, S> FileLink<O, S> {
    /// Appends a frame as a line, behind the end of one that a fault has cut off. What is polled stays as it is.
    pub fn append(&mut self, frame: &[u8]) -> Result<(), LinkFault>
        ensures line { O.tells → OnOk result (O.written self.new.frames.sink ≡ O.written self.old.frames.sink ++ (if self.old.frames.is_torn then 10 ∷ [] else []) ++ frame.now ++ 10 ∷ []) }
        ensures whole { OnOk result (self.new.frames.is_torn ≡ false) }
        ensures unpolled { (self.new.source ≡ self.old.source) × (self.new.answers ≡ self.old.answers) }
        ensures cause { HasCause self.old.faults self.new.faults result }
    {
        match self.frames.add(frame) {
            Ok(()) => Ok(()),
            Err(SinkFault) => {
                self.count_fault();
                Err(LinkFault)
            }
        }
    }
}

impl<O: Sink, S: Source> Link for FileLink<O, S> {
    ghost tells = { ⊥ };

    ghost sent = { λ _. [] };

    ghost waiting = { λ _. [] };

    ghost faults = { λ s. s.faults };

    fn send<K: Keeper>(
        &mut self,
        _keeper: &K,
        _host: &str,
        _number: u64,
        frame: &[u8],
    ) -> Result<(), LinkFault>
        ensures line { O.tells → OnOk result (O.written self.new.frames.sink ≡ O.written self.old.frames.sink ++ (if self.old.frames.is_torn then 10 ∷ [] else []) ++ frame.now ++ 10 ∷ []) }
        ensures whole { OnOk result (self.new.frames.is_torn ≡ false) }
        ensures unpolled { (self.new.source ≡ self.old.source) × (self.new.answers ≡ self.old.answers) }
        ensures cause { HasCause self.old.faults self.new.faults result }
    {
        self.append(frame)
    }

    fn poll(&mut self) -> Result<Option<Bytes>, LinkError>
        ensures unsent { self.new.frames ≡ self.old.frames }
        ensures cause { FaultHasCause LinkError.Fault self.old.faults self.new.faults result }
    {
        let mut line = self.answers.take_line();
        while line.is_none() && self.answers.left > 0 {
            let Ok(mut piece) = self.answers.room() else {
                return Err(LinkError::NoMemory);
            };
            let Ok(count) = self.source.read(piece.as_mut_slice()) else {
                self.count_fault();
                return Err(LinkError::Fault);
            };
            let (read, _) = piece.as_slice().split_at(count);
            if self.answers.take_piece(read).is_err() {
                return Err(LinkError::NoMemory);
            }
            line = self.answers.take_line();
        }
        Ok(line)
    }

    fn fault_count(&self) -> u64 {
        self.faults
    }
}
