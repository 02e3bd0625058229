//! The rules of an entry or of a pack.

ghost use Rattle.std.specs.Prelude.{◌≡◌};
ghost use Rattle.pack_rules.specs.Hosts.{rules_hold as holds, shard_holds};

use crate::host::{Host, host_number};
use crate::platform::platform_holds;
use crate::version::version_holds;
use osq_config::Rules;

/// Whether a part of the hosts in hundredths has the host.
fn shard_holds(identifier: &str, shard: u64) -> bool
    ensures { result ≡ shard_holds identifier.now shard }
{
    host_number(identifier) < shard
}

/// Whether each of the rules holds on the host: its platform is one of the list's, its agent has the wanted version or a later one,
/// and its number is below the shard. It takes no memory.
pub fn rules_hold(host: &Host, rules: &Rules) -> bool
    ensures { result ≡ holds host.now rules.now }
{
    platform_holds(
        host.platform.as_str().as_bytes(),
        rules.platform.as_str().as_bytes(),
    ) && version_holds(
        host.agent.as_str().as_bytes(),
        rules.version.as_str().as_bytes(),
    ) && shard_holds(host.identifier.as_str(), rules.shard)
}
