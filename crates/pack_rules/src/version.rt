//! From which version of the agent on an entry holds.

ghost use Rattle.std.specs.Prelude.{◌≡◌, ◌<◌, ◌^◌};
ghost use Rattle.osq_value.specs.Spelling.{is_digit};
ghost use Rattle.pack_rules.specs.Versions.{is_at_least, numbers_of, part_number, version_holds};
ghost use Rattle.pack_rules.specs.Walks.{first_number, numbers_behind, numbers_left};

use crate::parts::split_part;

/// The most digits that count in a part of a version.
const MOST_DIGITS: usize = 18;

fn is_digit(byte: u8) -> bool
    ensures { result ≡ is_digit byte }
{
    b'0' <= byte && byte <= b'9'
}

/// The number of the digits that a part begins with.
fn part_number(part: &[u8]) -> u64
    ensures { result ≡ part_number part.now }
{
    let mut number = 0u64;
    let count = part.len().min(MOST_DIGITS);
    for at in 0..count {
        if !is_digit(part[at]) {
            return number;
        }
        number = 10 * number + u64::from(part[at] - b'0');
    }
    number
}

/// The number of the next part of a version, and what is left behind it. Where no part is left the number is 0.
fn next_number(left: Option<&[u8]>) -> (u64, Option<&[u8]>)
    ensures number { result.0 ≡ first_number (numbers_left left.entry) }
    ensures rest { numbers_left result.1 ≡ numbers_behind (numbers_left left.entry) }
{
    match left {
        None => (0, None),
        Some(text) => {
            let (part, rest) = split_part(text, b'.');
            (part_number(part), rest)
        }
    }
}

fn is_at_least(version: &[u8], least: &[u8]) -> bool
    ensures { result ≡ is_at_least (numbers_of version.now) (numbers_of least.now) }
{
    let mut version = Some(version);
    let mut left = Some(least);
    while let Some(least) = left {
        let (part, rest) = split_part(least, b'.');
        let least = part_number(part);
        let (number, behind) = next_number(version);
        if number != least {
            return least < number;
        }
        version = behind;
        left = rest;
    }
    true
}

/// Whether an agent's version is the wanted one or later. Versions are compared number by number between dots. A part's number
/// is that of its leading digits, the first 18 of them, or 0, and a part that one version lacks is 0. The empty text
/// is wanted of no agent, and holds. It takes no memory.
#[tactic(auto, unfolding(crate::specs::Versions::version_holds))]
pub fn version_holds(agent: &[u8], wanted: &[u8]) -> bool
    ensures { result ≡ version_holds agent.now wanted.now }
{
    wanted.is_empty() || is_at_least(agent, wanted)
}
