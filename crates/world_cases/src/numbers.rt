//! Numbers by which stories go.

ghost use Rattle.std.specs.Prelude.{◌<◌};

use osq_outside::{Fail, FailList};
use osq_value::NoMemory;
use rand_core::utils::NextWord;
use rand_pcg::Pcg32;
use std::alloc::Global;

/// A number below `bound`.
pub(crate) fn below(random: &mut Pcg32, bound: u64) -> u64
    requires { 0 < bound }
    ensures { result < bound }
{
    u64::from(random.next_word()) % bound
}

/// Once in so many times.
pub(crate) fn once_in(random: &mut Pcg32, times: u64) -> bool
    requires { 0 < times }
{
    below(random, times) == 0
}

/// A call that is to fail, up to the one of this number; in three of four times none is.
pub(crate) fn some_call(alloc: Global, random: &mut Pcg32, most: u64) -> Result<FailList, NoMemory>
    requires { 0 < most }
{
    let mut fails = FailList::new(alloc);
    if once_in(random, 4) {
        let call = below(random, most).saturating_add(1);
        fails.push(Fail { call })?;
    }
    Ok(fails)
}
