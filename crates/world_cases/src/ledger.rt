//! What a ledger's file has recorded.

use crate::judge::Judge;
use std::str;

/// How many batches of each host are recorded, and how many lines are none of theirs.
#[derive(Clone, Copy)]
pub(crate) struct Recorded {
    /// Batches of the first host.
    pub(crate) first: usize,
    /// Batches of the second.
    pub(crate) second: usize,
    /// Lines that are no frame of them.
    pub(crate) torn: usize,
}

impl Recorded {
    const NOTHING: Recorded = Recorded {
        first: 0,
        second: 0,
        torn: 0,
    };

    /// Takes a line more, and answers whether it may stand there: not where it is a frame that isn't the next of its host.
    fn takes(&mut self, first: &Judge, second: &Judge, line: &[u8]) -> bool {
        if first.is_next(self.first, line) {
            self.first = self.first.saturating_add(1);
            return true;
        }
        if second.is_next(self.second, line) {
            self.second = self.second.saturating_add(1);
            return true;
        }
        if !line.is_empty() {
            self.torn = self.torn.saturating_add(1);
        }
        !first.has_frame(line) && !second.has_frame(line)
    }

    /// What is wrong with a ledger in which so much is recorded, of which so many lines may have been cut off.
    pub(crate) fn fault(self, first: &Judge, second: &Judge, tears: usize) -> Option<&'static str> {
        if tears < self.torn {
            return Some("a line in the ledger that is no frame of a sealed batch");
        }
        if (self.first as u64) < first.acked {
            return Some("more is acknowledged than the first host has recorded");
        }
        if (self.second as u64) < second.acked {
            return Some("more is acknowledged than the second host has recorded");
        }
        None
    }
}

/// What the file has recorded. None where a frame stands in it that isn't the next of its host, so twice or behind a gap.
pub(crate) fn recorded_in(first: &Judge, second: &Judge, file: &[u8]) -> Option<Recorded> {
    let mut recorded = Recorded::NOTHING;
    for line in str::from_utf8(file).unwrap_or("not UTF-8").split('\n') {
        if !recorded.takes(first, second, line.as_bytes()) {
            return None;
        }
    }
    Some(recorded)
}
