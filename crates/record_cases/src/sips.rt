//! Sources in small pieces.

use osq_outside::{MemorySource, Source, SourceFault};

/// A source that gives at most so many bytes at a time.
#[derive(Drop)]
pub(crate) struct Sips {
    pub(crate) inner: MemorySource,
    pub(crate) most: usize,
}

impl Source for Sips {
    ghost use Rattle.std.specs.Prelude.{[]};

    ghost tells = { ⊥ };

    ghost left = { λ _. [] };

    ghost faults = { λ s. s.inner.failures.faults };

    fn read(&mut self, into: &mut [u8]) -> Result<usize, SourceFault> {
        let room = into.len().min(self.most);
        let (front, _) = into.split_at_mut(room);
        self.inner.read(front)
    }
}
