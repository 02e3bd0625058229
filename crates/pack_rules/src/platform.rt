//! On which platforms an entry holds.

ghost use Rattle.std.specs.Prelude.{◌≡◌};
ghost use Rattle.pack_rules.specs.Platforms.{is_for_all, is_platform, part_holds, platform_holds, word_holds};

use crate::parts::{split_part, trimmed};

fn is_for_all(word: &[u8]) -> bool
    ensures { result ≡ is_for_all word.now }
{
    word == b"any".as_slice() || word == b"all".as_slice()
}

fn is_platform(word: &[u8]) -> bool
    ensures { result ≡ is_platform word.now }
{
    word == b"darwin".as_slice()
        || word == b"freebsd".as_slice()
        || word == b"linux".as_slice()
        || word == b"windows".as_slice()
}

fn word_holds(platform: &[u8], word: &[u8]) -> bool
    ensures { result ≡ word_holds platform.now word.now }
{
    if is_for_all(word) {
        true
    } else if word == b"posix".as_slice() {
        platform != b"windows".as_slice()
    } else {
        is_platform(word) && word == platform
    }
}

/// Whether a list of platforms holds on a platform. Its words stand between commas, without the blanks round them. `any`
/// and `all` hold always, `posix` on every platform but windows, and `darwin`, `freebsd`, `linux` and `windows` on
/// the platform of that name; another word holds nowhere. The empty text holds. It takes no memory.
#[tactic(auto, unfolding(crate::specs::Platforms::platform_holds))]
pub fn platform_holds(platform: &[u8], list: &[u8]) -> bool
    ensures { result ≡ platform_holds platform.now list.now }
{
    if list.is_empty() {
        return true;
    }
    let mut left = Some(list);
    while let Some(list) = left {
        let (part, rest) = split_part(list, b',');
        if word_holds(platform, trimmed(part)) {
            return true;
        }
        left = rest;
    }
    false
}
