//! The pack of a name.

ghost use Rattle.std.specs.Prelude.{◌≡◌, ◌<◌, Some, bytes_eq, length, slice_get, slice_set};
ghost use Rattle.std.specs.List.{position_from};
ghost use Rattle.osq_config.specs.Files.{filled, left_out, refilled};

use crate::config::{Pack, PackList};
use std::alloc::Global;
use std::mem;

/// Puts what a file says into the pack of a name, which keeps its name and its path.
pub fn fill(packs: &mut PackList, name: &str, read: Pack)
    ensures { packs.new ≡ filled name.now read packs.old }
{
    if let Some(at) = place_of(packs.as_slice(), name) {
        refill(packs.as_mut_slice(), at, read);
    }
}

fn refill(packs: &mut [Pack], at: usize, read: Pack)
    requires { at < length packs.old }
    ensures { (pack : Pack) → slice_get packs.old at ≡ Some pack
        → packs.new ≡ slice_set packs.old at (refilled pack read) }
{
    packs[at].refill(read);
}

/// Leaves the pack of a name out. It takes no memory.
pub fn leave_out(alloc: Global, packs: &mut PackList, name: &str)
    ensures { packs.new ≡ left_out name.now packs.old }
{
    if let Some(at) = place_of(packs.as_slice(), name) {
        let mut others = mem::replace(packs, PackList::new(alloc)).into_vec();
        others.remove(at);
        *packs = PackList::from_vec(others);
    }
}

/// The place of the pack of a name.
fn place_of(packs: &[Pack], name: &str) -> Option<usize>
    ensures { result ≡ position_from (λ (pack : Pack). bytes_eq pack.name name.now) 0 packs.now }
{
    for at in 0..packs.len() {
        if packs[at].name.as_str() == name {
            return Some(at);
        }
    }
    None
}
