//! Why a session ends before its last tick is done.

ghost use Rattle.std.specs.Prelude.{◌≡◌, Some};
ghost use Rattle.replay_rounds.specs.Refusals.{numbers_in, numbers_of, unloaded_by, unloaded_numbers, unopened_by, unnoted_by, unfilled_by, unfinished_by, unfinished_numbers, unforwarded_by, unsealed_by};

use crate::loading::LoadError;
use crate::noting::NoteError;
use batch_forwarder::ForwardError;
use batch_keeper::KeeperError;
use daemon_rounds::{FinishError, OpenError, TakeError};
use entry_model::restored::Restored;
use session_state::State;
use thiserror::Error;

/// Why a session ends before its last tick is done.
#[derive(Clone, Copy, Debug, Error)]
pub enum RunError {
    /// The keeper failed: at a seal it has all entries that were sealed, or none.
    #[error("failed to read or write the kept list")]
    KeeperFault,
    /// The keeper gave values that no session may go on from.
    #[error("no session can go on from the kept values")]
    KeeperRefused,
    /// The clock gave this moment, which is beyond the year 9999.
    #[error("clock reading {moment} is beyond the year 9999")]
    MomentTooLarge { moment: u64 },
    /// The source at this place failed.
    #[error("failed to read source {place}")]
    SourceFault { place: usize },
    /// The source at this place ended after `found` bytes, before the `kept` bytes that earlier sessions took of it.
    #[error("source {place} ended after {found} bytes, before the {kept} bytes already taken of it")]
    SourceShrank { place: usize, kept: u64, found: u64 },
    /// The next event's or the next batch's number would pass 2^62.
    #[error("event or batch numbers are exhausted")]
    NumbersSpent,
    /// The entries of the tick are kept, and a front part of their lines was written; or what is to be told beside them could not be written.
    #[error("failed to write the results or the status")]
    SinkFault,
    /// Memory was wanting.
    #[error("out of memory")]
    NoMemory,
}

/// The numbers of a kept list.
#[derive(Clone, Copy, Debug)]
pub struct Numbers {
    /// The number of the last event, or 0.
    pub events: u64,
    /// The number of the last batch, or 0.
    pub batches: u64,
    /// Up to which number the collector has the batches, or 0.
    pub acknowledged: u64,
}

/// A session that ended before its last tick was done.
#[derive(Clone, Copy, Debug, Error)]
#[error("{error}")]
pub struct Refused {
    /// Why it ended.
    pub error: RunError,
    /// Those of the kept list as it was loaded or last sealed well, where it was loaded.
    pub numbers: Option<Numbers>,
}

/// The numbers of these values.
pub(crate) fn numbers_in(restored: &Restored) -> Numbers
    ensures { result ≡ numbers_in restored.now }
{
    Numbers {
        events: restored.last,
        batches: restored.batches,
        acknowledged: restored.acked,
    }
}

/// The numbers that the state has.
pub(crate) fn numbers_of(state: &State) -> Numbers
    ensures { result ≡ numbers_of state.now }
{
    Numbers {
        events: state.last_number(),
        batches: state.batch_count(),
        acknowledged: state.acknowledged(),
    }
}

/// The answer to values that aren't loaded.
pub(crate) fn unloaded(error: LoadError) -> Refused
    ensures error { result.error ≡ unloaded_by error }
    ensures numbers { result.numbers ≡ unloaded_numbers error }
{
    let (error, numbers) = match error {
        LoadError::KeeperFault => (RunError::KeeperFault, None),
        LoadError::KeeperRefused { kept } => (RunError::KeeperRefused, Some(kept)),
        LoadError::NoMemory => (RunError::NoMemory, None),
    };
    Refused { error, numbers }
}

/// The answer to a session that isn't open, over a kept list of these numbers.
pub(crate) fn unopened(error: OpenError, kept: Numbers) -> Refused
    ensures error { result.error ≡ unopened_by error }
    ensures numbers { result.numbers ≡ Some kept }
{
    let error = match error {
        OpenError::MomentTooLarge { moment } => RunError::MomentTooLarge { moment },
        OpenError::SourceFault { place } => RunError::SourceFault { place },
        OpenError::SourceShrank { place, kept, found } => {
            RunError::SourceShrank { place, kept, found }
        }
        OpenError::NumbersSpent => RunError::NumbersSpent,
        OpenError::NoMemory => RunError::NoMemory,
    };
    Refused {
        error,
        numbers: Some(kept),
    }
}

/// The answer to lines of the status stream that aren't written, over a kept list of these numbers.
pub(crate) fn unnoted(error: NoteError, sealed: Numbers) -> Refused
    ensures error { result.error ≡ unnoted_by error }
    ensures numbers { result.numbers ≡ Some sealed }
{
    let error = match error {
        NoteError::SinkFault => RunError::SinkFault,
        NoteError::NoMemory => RunError::NoMemory,
    };
    Refused {
        error,
        numbers: Some(sealed),
    }
}

/// The answer to a tick that isn't filled, over a kept list of these numbers.
pub(crate) fn unfilled(error: TakeError, sealed: Numbers) -> Refused
    ensures error { result.error ≡ unfilled_by error }
    ensures numbers { result.numbers ≡ Some sealed }
{
    let error = match error {
        TakeError::SourceFault { place } => RunError::SourceFault { place },
        TakeError::NumbersSpent => RunError::NumbersSpent,
        TakeError::NoMemory => RunError::NoMemory,
    };
    Refused {
        error,
        numbers: Some(sealed),
    }
}

/// The answer to a tick that isn't finished, over a kept list of these numbers: where only its lines could not be written, the list has the
/// numbers of the state.
pub(crate) fn unfinished(error: FinishError, state: &State, sealed: Numbers) -> Refused
    ensures error { result.error ≡ unfinished_by error }
    ensures numbers { result.numbers ≡ Some (unfinished_numbers error state.now sealed) }
{
    let (error, numbers) = match error {
        FinishError::NumbersSpent => (RunError::NumbersSpent, sealed),
        FinishError::KeeperFault => (RunError::KeeperFault, sealed),
        FinishError::SinkFault => (RunError::SinkFault, numbers_of(state)),
        FinishError::NoMemory => (RunError::NoMemory, sealed),
    };
    Refused {
        error,
        numbers: Some(numbers),
    }
}

/// The answer to a session that doesn't forward, over a kept list of these numbers.
pub(crate) fn unforwarded(error: ForwardError, sealed: Numbers) -> Refused
    ensures error { result.error ≡ unforwarded_by error }
    ensures numbers { result.numbers ≡ Some sealed }
{
    let error = match error {
        ForwardError::KeeperFault => RunError::KeeperFault,
        ForwardError::NoMemory => RunError::NoMemory,
    };
    Refused {
        error,
        numbers: Some(sealed),
    }
}

/// The answer to acknowledgements that aren't sealed behind the last tick, over a kept list of these numbers.
pub(crate) fn unsealed(error: KeeperError, sealed: Numbers) -> Refused
    ensures error { result.error ≡ unsealed_by error }
    ensures numbers { result.numbers ≡ Some sealed }
{
    let error = match error {
        KeeperError::Fault => RunError::KeeperFault,
        KeeperError::NoMemory => RunError::NoMemory,
    };
    Refused {
        error,
        numbers: Some(sealed),
    }
}
