//! A gate that holds publishers and workers up.

use osq_outside::{Gate, Point};
use std::sync::atomic::{AtomicU64, Ordering};
use std::thread::yield_now;

/// How often one that is held up asks at most.
const TURNS: u32 = 1_000_000;

/// How many cuts and appends there must have been.
#[derive(Clone, Copy)]
pub(crate) struct Wanted {
    /// Cuts, before a batch is committed.
    pub(crate) commit_behind_cuts: u64,
    /// Appends, before a batch is committed.
    pub(crate) commit_behind_appends: u64,
    /// Cuts, before a reading is added.
    pub(crate) append_behind_cuts: u64,
}

/// A gate that holds up until so many cuts and appends there were.
#[derive(Drop)]
pub(crate) struct Holds {
    wanted: Wanted,
    cuts: AtomicU64,
    appends: AtomicU64,
    late: AtomicU64,
}

/// Waits until the count is at least so great, and says whether it came to that.
fn comes_to(count: &AtomicU64, least: u64) -> bool {
    for _ in 0..TURNS {
        if least <= count.load(Ordering::SeqCst) {
            return true;
        }
        yield_now();
    }
    false
}

impl Holds {
    /// A gate that nobody has passed.
    pub(crate) fn new(wanted: Wanted) -> Holds {
        Holds {
            wanted,
            cuts: AtomicU64::new(0),
            appends: AtomicU64::new(0),
            late: AtomicU64::new(0),
        }
    }

    /// How often one asked in vain.
    pub(crate) fn late(&self) -> u64 {
        self.late.load(Ordering::SeqCst)
    }

    /// Waits for the count, or counts that one waited in vain.
    fn wait(&self, count: &AtomicU64, least: u64) {
        if !comes_to(count, least) {
            let _before = self.late.fetch_add(1, Ordering::SeqCst);
        }
    }
}

impl Gate for Holds {
    fn at(&self, _who: u32, point: Point) {
        match point {
            Point::AfterCut => {
                let _before = self.cuts.fetch_add(1, Ordering::SeqCst);
            }
            Point::BeforeCommit => {
                self.wait(&self.cuts, self.wanted.commit_behind_cuts);
                self.wait(&self.appends, self.wanted.commit_behind_appends);
            }
            Point::BeforeAppend => self.wait(&self.cuts, self.wanted.append_behind_cuts),
            Point::AfterAppend => {
                let _before = self.appends.fetch_add(1, Ordering::SeqCst);
            }
        }
    }
}
