//! A session opens.

ghost use Rattle.std.specs.Prelude.{◌≡◌, ◌≤◌, ℕ, length, Err, IfOk};
ghost use Rattle.osq_value.specs.declared.moment.TheConstants.{LAST_MOMENT};
ghost use Rattle.osq_config.specs.Bounds.{IsBounded};
ghost use Rattle.entry_model.specs.Fits.{Fits};
ghost use Rattle.daemon_rounds.specs.Rounding.{AreGoing, FailsAt};
ghost use Rattle.daemon_rounds.specs.Opening.{IsFoundBy, Opens, OpensTooMuch};
ghost use Rattle.daemon_rounds.specs.declared.error.TakeError.{TakeError};

use crate::configuring::{configure, discover};
use crate::error::TakeError;
use crate::rounding::take_round;
use crate::setup::Setup;
use crate::turning::Which;
use config_files::Configured;
use entry_model::restored::Restored;
use osq_outside::Source;
use osq_value::NoMemory;
use session_state::State;
use source_feeds::Feed;
use std::alloc::Global;

/// Opens a session over these values at this moment, which isn't before their last one: it begins, each source of tables takes one step, and
/// then it is configured. It answers the state and which packs are meant for the host, in their order.
/// SourceFault with the place of the source that failed; NumbersSpent where the next event's number would pass 2^62.
pub fn begin_session<S: Source>(
    alloc: Global,
    setup: &Setup,
    configured: &Configured,
    restored: Restored,
    moment: u64,
    feeds: &mut [Feed],
    sources: &mut [S],
) -> Result<(State, Vec<bool>), TakeError>
    requires fits { Fits restored }
    requires later { restored.moment ≤ moment }
    requires calendar { moment ≤ LAST_MOMENT }
    requires bounded { IsBounded configured.now.config }
    requires paired { length sources.old ≡ length feeds.old }
    requires going { AreGoing restored.taken feeds.old }
    ensures opens { IfOk result (λ begun. Opens S.tells S.left S.faults setup.now.records restored configured.now.config configured.now.documents setup.now.host moment feeds.old feeds.new sources.old sources.new begun.0) }
    ensures found { IfOk result (λ begun. IsFoundBy restored configured.now.config moment begun.0 begun.1.items) }
    ensures going { IfOk result (λ begun. AreGoing begun.0.counts.taken feeds.new) }
    ensures fault { (place : ℕ) → result ≡ Err (TakeError.SourceFault place) → FailsAt S.faults place sources.old sources.new }
    ensures spent { result ≡ Err TakeError.NumbersSpent → OpensTooMuch S.tells S.left S.faults setup.now.records restored feeds.old feeds.new sources.old sources.new }
{
    let Ok(mut state) = State::begin(alloc, restored) else {
        return Err(TakeError::NoMemory);
    };
    match take_round(
        alloc,
        &mut state,
        feeds,
        sources,
        Which::Tables,
        setup.records,
    ) {
        Ok(()) => {}
        Err(error) => return Err(error),
    }
    state.is_state();
    let Ok(found) = discover(alloc, &state, &configured.config, moment) else {
        return Err(TakeError::NoMemory);
    };
    match configure(
        alloc,
        &mut state,
        &configured.config,
        &configured.documents,
        &setup.host,
        moment,
    ) {
        Ok(()) => Ok((state, found)),
        Err(NoMemory) => Err(TakeError::NoMemory),
    }
}
