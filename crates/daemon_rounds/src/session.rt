//! A session is open.

ghost use Rattle.std.specs.Prelude.{◌≡◌, ◌<◌, ℕ, length, bytes_eq, Err, IfOk};
ghost use Rattle.osq_value.specs.declared.moment.TheConstants.{LAST_MOMENT};
ghost use Rattle.osq_config.specs.Bounds.{IsBounded};
ghost use Rattle.entry_model.specs.Fits.{Fits, IsDistinct};
ghost use Rattle.daemon_rounds.specs.Opening.{IsFoundBy};
ghost use Rattle.daemon_rounds.specs.Refusals.{unstarted_by, untaken_by};
ghost use Rattle.daemon_rounds.specs.Rounding.{AreGoing, FailsAt};
ghost use Rattle.daemon_rounds.specs.Session.{IsOpen, IsOverfull};
ghost use Rattle.daemon_rounds.specs.Starting.{HasShrunk, source_names};
ghost use Rattle.daemon_rounds.specs.declared.error.OpenError.{OpenError};

use crate::error::{OpenError, StartError, TakeError};
use crate::moments::{MomentTooLarge, read_moment};
use crate::opening::begin_session;
use crate::setup::Setup;
use crate::starting::start_sources;
use config_files::Configured;
use entry_model::restored::Restored;
use osq_outside::{Clock, Source};
use session_state::State;
use source_feeds::Feed;
use std::alloc::Global;

/// A session that is open.
#[derive(Drop)]
pub struct Session {
    /// The values of its list of entries, and the entries that are not sealed yet.
    pub state: State,
    /// A feed for each source, in their order.
    pub feeds: Vec<Feed>,
    /// The moment at which it was configured last.
    pub configured_at: u64,
    /// Which packs are meant for the host, in their order, by the discovery of that configuration.
    pub found: Vec<bool>,
}

/// The same answer to sources that aren't started.
fn unstarted(error: StartError) -> OpenError
    ensures { result ≡ unstarted_by error }
{
    match error {
        StartError::SourceFault { place } => OpenError::SourceFault { place },
        StartError::SourceShrank { place, kept, found } => {
            OpenError::SourceShrank { place, kept, found }
        }
        StartError::NoMemory => OpenError::NoMemory,
    }
}

/// The same answer to a round that isn't done.
fn untaken(error: TakeError) -> OpenError
    ensures { result ≡ untaken_by error }
{
    match error {
        TakeError::SourceFault { place } => OpenError::SourceFault { place },
        TakeError::NumbersSpent => OpenError::NumbersSpent,
        TakeError::NoMemory => OpenError::NoMemory,
    }
}

/// Opens a session over the values of a kept list. The clock is read once; each source is started; the session begins, each source of tables
/// takes one step, and then the session is configured. No two sources have one name.
///
/// MomentTooLarge where the clock is beyond the year 9999; SourceFault and SourceShrank with the place of a source that failed, or that
/// ended before the bytes that were taken of it; NumbersSpent where the next event's number would pass 2^62.
pub fn open_session<S: Source, C: Clock>(
    alloc: Global,
    setup: &Setup,
    configured: &Configured,
    restored: Restored,
    clock: &mut C,
    sources: &mut [S],
) -> Result<Session, OpenError>
    requires fits { Fits restored }
    requires bounded { IsBounded configured.now.config }
    requires paired { length sources.old ≡ length setup.now.sources }
    requires distinct { IsDistinct bytes_eq (source_names setup.now.sources) }
    ensures opened { IfOk result (λ session. IsOpen S.tells S.left S.faults C.reads setup.now configured.now.config configured.now.documents restored clock.old clock.new sources.old sources.new session.configured_at session.feeds.items session.state) }
    ensures found { IfOk result (λ session. IsFoundBy restored configured.now.config session.configured_at session.state session.found.items) }
    ensures going { IfOk result (λ session. AreGoing session.state.counts.taken session.feeds.items) }
    ensures read { (reading : ℕ) × C.reads clock.old reading clock.new }
    ensures moment { (moment : ℕ) → result ≡ Err (OpenError.MomentTooLarge moment) → C.reads clock.old moment clock.new × (LAST_MOMENT < moment) }
    ensures fault { (place : ℕ) → result ≡ Err (OpenError.SourceFault place) → FailsAt S.faults place sources.old sources.new }
    ensures shrank { (place kept found : ℕ) → result ≡ Err (OpenError.SourceShrank place kept found) → HasShrunk S.tells S.left restored.taken setup.now.sources place kept found sources.old }
    ensures spent { result ≡ Err OpenError.NumbersSpent → IsOverfull S.tells S.left S.faults setup.now configured.now.config restored sources.old sources.new }
{
    let moment = match read_moment(clock, restored.moment) {
        Ok(moment) => moment,
        Err(MomentTooLarge { moment }) => return Err(OpenError::MomentTooLarge { moment }),
    };
    let mut feeds = match start_sources(
        alloc,
        setup.sources.as_slice(),
        restored.taken.as_slice(),
        &configured.config.categories,
        sources,
    ) {
        Ok(feeds) => feeds,
        Err(error) => return Err(unstarted(error)),
    };
    match begin_session(
        alloc,
        setup,
        configured,
        restored,
        moment,
        feeds.as_mut_slice(),
        sources,
    ) {
        Ok((state, found)) => Ok(Session {
            state,
            feeds,
            configured_at: moment,
            found,
        }),
        Err(error) => Err(untaken(error)),
    }
}
