//! What a tick reads.

ghost use Rattle.std.specs.Prelude.{◌≡◌, ◌≤◌, ℕ, true, false, length, None, Err, IfOk};
ghost use Rattle.osq_value.specs.declared.moment.TheConstants.{LAST_MOMENT};
ghost use Rattle.osq_config.specs.Bounds.{IsBounded};
ghost use Rattle.entry_model.specs.Views.{is_evented_table};
ghost use Rattle.session_state.specs.Ticks.{first_due, owed_at};
ghost use Rattle.daemon_rounds.specs.Rounding.{AllCount, AreGoing, FailsAt};
ghost use Rattle.daemon_rounds.specs.Ticking.{ConfiguresAgain, Fills, FillsTooMuch, asks_again, configured_last, has_discovery};
ghost use Rattle.daemon_rounds.specs.declared.error.TakeError.{TakeError};

use crate::configuring::configure;
use crate::error::TakeError;
use crate::order::TakesRound;
use crate::setup::Setup;
use crate::ticking::begin_tick;
use config_files::Configured;
use osq_config::Config;
use osq_outside::Source;
use osq_value::NoMemory;
use session_state::State;
use source_feeds::Feed;
use std::alloc::Global;

/// After so many seconds discovery is asked again.
const DISCOVERY_SECONDS: u64 = 3600;

/// Some pack has discovery queries.
fn has_discovery(config: &Config) -> bool
    ensures { result ≡ has_discovery config.now }
{
    config
        .packs
        .as_slice()
        .iter()
        .any(|pack| pack.discovery.len() > 0)
}

/// Discovery is asked again at this moment: some pack has discovery queries, and 3600 seconds have passed since the session was configured last.
pub fn asks_again(config: &Config, configured_at: u64, moment: u64) -> bool
    requires { configured_at ≤ moment }
    ensures { result ≡ asks_again config.now configured_at moment }
{
    has_discovery(config) && moment - configured_at >= DISCOVERY_SECONDS
}

/// Configures the session again, where discovery is asked again, and answers when it was configured last.
fn configure_again(
    alloc: Global,
    setup: &Setup,
    configured: &Configured,
    state: &mut State,
    configured_at: u64,
    moment: u64,
) -> Result<u64, NoMemory>
    requires bounded { IsBounded configured.now.config }
    requires before { configured_at ≤ moment }
    requires later { state.old.counts.moment ≤ moment }
    requires calendar { moment ≤ LAST_MOMENT }
    ensures again { IfOk result (λ last. ConfiguresAgain (asks_again configured.now.config configured_at moment) configured.now.config configured.now.documents setup.now.host moment state.old state.new) }
    ensures last { IfOk result (λ last. last ≡ configured_last (asks_again configured.now.config configured_at moment) configured_at moment) }
{
    if !asks_again(&configured.config, configured_at, moment) {
        return Ok(configured_at);
    }
    configure(
        alloc,
        state,
        &configured.config,
        &configured.documents,
        &setup.host,
        moment,
    )?;
    Ok(moment)
}

/// Begins a tick at this moment, which isn't before the last one; configures the session again, where discovery is asked again; and takes a
/// round of all sources in this order. It answers when the session was configured last.
/// SourceFault with the place of the source that failed; NumbersSpent where the next event's number would pass 2^62.
pub fn fill_tick<T: TakesRound<S>, S: Source>(
    alloc: Global,
    order: &T,
    setup: &Setup,
    configured: &Configured,
    state: &mut State,
    feeds: &mut [Feed],
    sources: &mut [S],
    configured_at: u64,
    moment: u64,
) -> Result<u64, TakeError>
    requires takes { T.takes order.now }
    requires bounded { IsBounded configured.now.config }
    requires before { configured_at ≤ moment }
    requires later { state.old.counts.moment ≤ moment }
    requires calendar { moment ≤ LAST_MOMENT }
    requires answered { first_due state.old ≡ None }
    requires settled { (table : ℕ) → is_evented_table table ≡ true → owed_at state.old table ≡ None }
    requires paired { length sources.old ≡ length feeds.old }
    requires going { AreGoing state.old.counts.taken feeds.old }
    ensures fills { IfOk result (λ last. Fills T.order S.tells S.left S.faults setup.now configured.now.config configured.now.documents configured_at moment feeds.old feeds.new sources.old sources.new state.old state.new) }
    ensures last { IfOk result (λ last. last ≡ configured_last (asks_again configured.now.config configured_at moment) configured_at moment) }
    ensures going { IfOk result (λ last. AreGoing state.new.counts.taken feeds.new) }
    ensures counts { AllCount S.tells S.left feeds.old feeds.new sources.old }
    ensures fault { (place : ℕ) → result ≡ Err (TakeError.SourceFault place) → FailsAt S.faults place sources.old sources.new }
    ensures spent { result ≡ Err TakeError.NumbersSpent → FillsTooMuch T.order S.tells S.left S.faults setup.now configured.now.config configured.now.documents configured_at moment feeds.old feeds.new sources.old sources.new state.old state.new }
{
    let Ok(()) = begin_tick(state, moment) else {
        return Err(TakeError::NoMemory);
    };
    let Ok(last) = configure_again(alloc, setup, configured, state, configured_at, moment) else {
        return Err(TakeError::NoMemory);
    };
    match order.round(alloc, state, feeds, sources, setup.records) {
        Ok(()) => Ok(last),
        Err(error) => Err(error),
    }
}
