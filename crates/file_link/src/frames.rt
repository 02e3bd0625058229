//! Frames as lines of a sink.

ghost use Rattle.std.specs.Prelude.{◌≡◌, ◌++◌, ◌∷◌, [], true, false, if◌then◌else◌, OnOk};
ghost use Rattle.osq_outside.specs.Causes.{HasCause};

use osq_outside::{Sink, SinkFault, write_all};

/// A sink to which frames are added as lines.
#[derive(Drop)]
pub struct FrameLines<O> {
    pub(crate) sink: O,
    /// Whether the last line has no end yet.
    pub(crate) is_torn: bool,
}

impl<O> FrameLines<O> {
    /// Lines behind what the sink has.
    pub(crate) fn new(sink: O) -> FrameLines<O>
        ensures { result ≡ record { sink = sink; is_torn = false } }
    {
        FrameLines {
            sink,
            is_torn: false,
        }
    }
}

impl<O: Sink> FrameLines<O> {
    /// Adds a frame as a line. Where a line before it was cut off by a fault, its rest is ended first, so that it spoils no other frame.
    pub(crate) fn add(&mut self, frame: &[u8]) -> Result<(), SinkFault>
        ensures line { O.tells → OnOk result (O.written self.new.sink ≡ O.written self.old.sink ++ (if self.old.is_torn then 10 ∷ [] else []) ++ frame.now ++ 10 ∷ []) }
        ensures whole { OnOk result (self.new.is_torn ≡ false) }
        ensures cause { HasCause (O.faults self.old.sink) (O.faults self.new.sink) result }
    {
        if self.is_torn {
            write_all(&mut self.sink, b"\n")?;
        }
        self.is_torn = true;
        write_all(&mut self.sink, frame)?;
        write_all(&mut self.sink, b"\n")?;
        self.is_torn = false;
        Ok(())
    }
}
