//! The host that a schedule is made for.

ghost use Rattle.std.specs.Prelude.{◌≡◌};
ghost use Rattle.pack_rules.specs.Hosts.{host_number_of};

use osq_value::Str;
use sha2::{Digest, Sha256};

/// What the rules of a configuration ask of a host.
#[derive(Drop)]
pub struct Host {
    /// The identifier, from which the host's number comes.
    pub identifier: Str,
    /// The platform's name: `linux`, `darwin`, `freebsd` or `windows`.
    pub platform: Str,
    /// The agent's version, as numbers between dots.
    pub agent: Str,
}

/// The number of a host, from 0 to 99: the first eight bytes of the identifier's SHA-256 digest (FIPS 180-4), the most
/// significant first, modulo 100. It takes no memory.
#[tactic(auto, unfolding(crate::specs::Hosts::host_number_of))]
pub fn host_number(identifier: &str) -> u64
    ensures { result ≡ host_number_of identifier.now }
{
    let digest = Sha256::digest(identifier.as_bytes());
    u64::from_be_bytes([
        digest[0], digest[1], digest[2], digest[3], digest[4], digest[5], digest[6], digest[7],
    ]) % 100
}
