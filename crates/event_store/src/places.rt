//! Where in the segments an event stands.

ghost use Rattle.std.specs.Prelude.{◌≡◌, ◌+◌, ◌<◌, ◌≤◌, ◌^◌, ℕ, length, take, drop, slice_index};
ghost use Rattle.event_store.specs.Segments.{joined, before_all, AreCounted};

use crate::segment::SharedSegment;

/// The first of these segments that reaches beyond that place of a table, or their number where none does.
pub(crate) fn part_of(parts: &[SharedSegment], table: usize, place: usize) -> usize
    requires table { table < 3 }
    requires counted { AreCounted table (before_all table parts.now) parts.now }
    requires small { before_all table parts.now + length (joined table parts.now) < 2 ^ 64 }
    requires held { before_all table parts.now ≤ place }
    ensures within { result ≤ length parts.now }
    ensures behind { before_all table parts.now + length (joined table (take result parts.now)) ≤ place }
    ensures ahead { result < length parts.now → place < before_all table parts.now + length (joined table (take (result + 1) parts.now)) }
{
    let mut low = 0;
    let mut high = parts.len();
    while low < high {
        let middle = low + (high - low) / 2;
        if parts[middle].segment().reach(table) > place {
            high = middle;
        } else {
            low = middle + 1;
        }
    }
    low
}

/// The first of these segments that reaches beyond one of these places of the tables, or their number where none does.
pub(crate) fn part_from(parts: &[SharedSegment], first: &[usize; 3]) -> usize
    requires counted { (table : ℕ) → table < 3 → AreCounted table (before_all table parts.now) parts.now }
    requires small { (table : ℕ) → table < 3 → before_all table parts.now + length (joined table parts.now) < 2 ^ 64 }
    requires held { (table : ℕ) → table < 3 → before_all table parts.now ≤ slice_index first.now table }
    ensures within { result ≤ length parts.now }
    ensures behind { (table : ℕ) → table < 3 → before_all table parts.now + length (joined table (take result parts.now)) ≤ slice_index first.now table }
    ensures ahead { result < length parts.now → (table : ℕ) × (table < 3) × (slice_index first.now table < before_all table parts.now + length (joined table (take (result + 1) parts.now))) }
{
    let one = part_of(parts, 0, first[0]);
    let two = part_of(parts, 1, first[1]);
    let three = part_of(parts, 2, first[2]);
    one.min(two).min(three)
}

/// Drops the first so many segments. It takes no memory.
pub(crate) fn drop_front(parts: &mut Vec<SharedSegment>, count: usize)
    requires { count ≤ length parts.old.items }
    ensures { parts.new.items ≡ drop count parts.old.items }
{
    let left = parts.len() - count;
    parts.as_mut_slice().rotate_left(count);
    parts.truncate(left);
}
