//! What goes over a link: any of what was sent, again, in another order, or cut.

use crate::memory::copied;
use crate::numbers::{below, once_in};
use osq_value::{Bytes, NoMemory, Sequence};
use rand_pcg::Pcg32;
use std::alloc::Global;

/// The place of what is delivered next: mostly what was sent behind the last, and sometimes anything. None where nothing was sent there.
fn place_of(random: &mut Pcg32, sent: usize, next: usize) -> Option<usize> {
    if sent == 0 {
        return None;
    }
    if once_in(random, 4) {
        return Some(below(random, sent as u64) as usize);
    }
    if next < sent { Some(next) } else { None }
}

/// A part of these bytes, which is mostly the whole.
fn part_of<'a>(random: &mut Pcg32, bytes: &'a [u8]) -> &'a [u8] {
    if !once_in(random, 10) || bytes.is_empty() {
        return bytes;
    }
    let (front, _) = bytes.split_at(below(random, bytes.len() as u64) as usize);
    front
}

/// Some of what was sent, in the order in which it comes.
pub(crate) fn delivered(
    alloc: Global,
    random: &mut Pcg32,
    sent: &[Bytes],
) -> Result<Sequence<Bytes>, NoMemory> {
    let mut given = Sequence::new(alloc);
    let first = below(random, (sent.len() as u64).saturating_add(1)) as usize;
    for place in 0..below(random, 9) as usize {
        let next = first.saturating_add(place);
        if let Some(bytes) = place_of(random, sent.len(), next).and_then(|at| sent.get(at)) {
            given.push(copied(alloc, part_of(random, bytes.as_slice()))?)?;
        }
    }
    Ok(given)
}
