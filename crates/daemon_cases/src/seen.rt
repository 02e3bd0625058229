//! What there was among many runs.

use crate::entries::{is_batch, is_reading, last_number};
use crate::run::Run;

/// What there was among many runs.
#[derive(Clone, Copy)]
pub(crate) struct Seen {
    /// One that came to the ends of its sources.
    done: bool,
    /// One whose ticks were over before.
    spent: bool,
    /// One with events.
    filled: bool,
    /// One that had nothing to read, and has batches.
    unread: bool,
}

impl Seen {
    pub(crate) const NOTHING: Seen = Seen {
        done: false,
        spent: false,
        filled: false,
        unread: false,
    };

    /// Adds one run more.
    pub(crate) fn add(&mut self, run: &Run) {
        let entries = run.entries();
        let reads = entries.iter().any(is_reading);
        self.done = self.done || run.status == 0;
        self.spent = self.spent || run.status == 11;
        self.filled = self.filled || last_number(entries) > 0;
        self.unread = self.unread || (!reads && entries.iter().any(is_batch));
    }

    /// All of that was seen.
    pub(crate) fn is_all(self) -> bool {
        self.done && self.spent && self.filled && self.unread
    }
}
