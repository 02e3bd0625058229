//! How long a set may be hashed without a key, over values that a stranger may have written.
//!
//! A set is hashed without a key at first, which is fast. Each value that it gains is counted twice, at the slot of its hash's lowest bits, by which
//! the set's table finds a place, and at that of its highest, which the table compares before the values themselves. Values that nobody chose are
//! spread over the slots. Where one slot gains too many, or the set has too many values in all, the step is begun again with a key that is drawn: so
//! values that were chosen cost each row as much as the most that go without a key can, and no more with more rows.

use indexmap::IndexSet;
use osq_value::NoMemory;
use set_keys::SetKey;
use std::alloc::Global;
use std::hash::{BuildHasher, Hash};

/// So many values at most go without a key.
const MOST: usize = 8192;

/// How many slots there are for either end of a hash, a power of two.
const SLOTS: usize = 64;

/// How far up the highest bits of a folded hash stand that number a slot.
const HIGH: u32 = 26;

/// So many values of one slot are no sign of a choice, however few values there are in all.
const LEAST: usize = 64;

/// So many times as many values as a slot has on an average are no sign of a choice.
const TIMES: usize = 4;

/// How many values fell to each slot.
#[derive(Drop)]
pub(crate) struct Watch {
    /// By the slots of the lowest bits, and behind them by those of the highest; none where nothing is watched.
    counts: Vec<usize>,
    /// How many there are in all.
    total: usize,
}

impl Watch {
    /// Over a set that is hashed without a key.
    pub fn over_plain(alloc: Global) -> Result<Watch, NoMemory> {
        Ok(Watch {
            counts: vec![in alloc; 0usize; 2 * SLOTS]?,
            total: 0,
        })
    }

    /// Where nothing need be watched: a key is drawn.
    pub fn nothing(alloc: Global) -> Watch {
        Watch {
            counts: Vec::new(alloc),
            total: 0,
        }
    }

    /// Counts a value that differs from all before. The answer is false where a slot of it has too many, or the set has.
    pub fn is_spread<T: Hash + Copy>(&mut self, value: T) -> bool {
        if self.counts.is_empty() {
            return true;
        }
        self.total = self.total.saturating_add(1);
        let hash = SetKey::plain().hash_one(value);
        let folded = (hash ^ (hash >> 32)) as usize;
        let is_low = self.is_few(folded % SLOTS);
        let is_high = self.is_few(SLOTS + (folded >> HIGH) % SLOTS);
        is_low && is_high && self.total <= MOST
    }

    /// Counts a value of a slot. The answer is false where that has too many.
    fn is_few(&mut self, slot: usize) -> bool {
        match self.counts.get_mut(slot) {
            None => true,
            Some(count) => {
                *count = count.saturating_add(1);
                *count <= LEAST || *count / TIMES <= self.total / SLOTS
            }
        }
    }
}

/// Counts the value that a set gained last. The answer is false where a key is to be drawn.
pub(crate) fn is_last_spread<T: Eq + Hash>(watch: &mut Watch, set: &IndexSet<T, SetKey>) -> bool {
    match set.last() {
        None => true,
        Some(value) => watch.is_spread(value),
    }
}
