//! Numbers by which runs are made.

ghost use Rattle.std.specs.Prelude.{◌<◌, length};

use rand_core::utils::NextWord;
use rand_pcg::Pcg32;

/// The numbers from this seed.
pub(crate) fn numbers_from(seed: u64) -> Pcg32 {
    Pcg32::new(seed, 54)
}

/// A number below `bound`.
pub(crate) fn below(random: &mut Pcg32, bound: u64) -> u64
    requires { 0 < bound }
    ensures { result < bound }
{
    u64::from(random.next_word()) % bound
}

/// One of these.
pub(crate) fn one_of<'a>(random: &mut Pcg32, texts: &[&'a str]) -> &'a str
    requires { 0 < length texts.now }
{
    texts[below(random, texts.len() as u64) as usize]
}
