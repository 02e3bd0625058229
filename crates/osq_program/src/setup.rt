//! What a session is given by the words that ask for it.

ghost use Rattle.std.specs.Prelude.{◌≡◌, IfOk};
ghost use Rattle.osq_program.specs.Setups.{setup_in};

use daemon_rounds::setup::Setup;
use osq_value::{Copied, NoMemory, Str};
use pack_rules::Host;
use program_words::ReplayWords;
use std::alloc::Global;

/// The host of this identifier, platform and agent.
pub(crate) fn host_of(
    alloc: Global,
    identifier: &Str,
    platform: &Str,
    agent: &Str,
) -> Result<Host, NoMemory>
    ensures { IfOk result (λ host. host ≡ record { identifier = identifier.now; platform = platform.now; agent = agent.now }) }
{
    Ok(Host {
        identifier: identifier.copy(alloc)?,
        platform: platform.copy(alloc)?,
        agent: agent.copy(alloc)?,
    })
}

/// What the session of these words is given.
pub(crate) fn setup_of(alloc: Global, words: &ReplayWords) -> Result<Setup, NoMemory>
    ensures { IfOk result (λ setup. setup ≡ setup_in words.now) }
{
    Ok(Setup {
        host: host_of(alloc, &words.host, &words.platform, &words.agent)?,
        config: words.config.copy(alloc)?,
        sources: words.sources.copy(alloc)?,
        ticks: words.ticks,
        records: words.records,
        forward: words.link.is_some(),
    })
}
