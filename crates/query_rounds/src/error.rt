//! Why a question has no answer.

ghost use Rattle.std.specs.Prelude.{◌≡◌};
ghost use Rattle.query_rounds.specs.Refusals.{unloaded_by, unstarted_by, untaken_by};

use daemon_rounds::{StartError, TakeError};
use replay_rounds::LoadError;
use thiserror::Error;

/// Why a question has no answer.
#[derive(Clone, Copy, Debug, Error)]
pub enum AskError {
    /// The keeper failed.
    #[error("failed to read or write the kept list")]
    KeeperFault,
    /// The keeper gave values that no session may go on from.
    #[error("no session can go on from the kept values")]
    KeeperRefused,
    /// The clock gave this moment, which is beyond the year 9999.
    #[error("clock reading {moment} is beyond the year 9999")]
    MomentTooLarge { moment: u64 },
    /// The source at this place failed.
    #[error("failed to read source {place}")]
    SourceFault { place: usize },
    /// The source at this place ended after `found` bytes, before the `kept` bytes that earlier sessions took of it.
    #[error("source {place} ended after {found} bytes, before the {kept} bytes already taken of it")]
    SourceShrank { place: usize, kept: u64, found: u64 },
    /// The next event's number would pass 2^62.
    #[error("event numbers are exhausted")]
    NumbersSpent,
    /// Memory was wanting.
    #[error("out of memory")]
    NoMemory,
}

/// The answer to values that aren't loaded.
pub(crate) fn unloaded(error: LoadError) -> AskError
    ensures { result ≡ unloaded_by error }
{
    match error {
        LoadError::KeeperFault => AskError::KeeperFault,
        LoadError::KeeperRefused { kept: _ } => AskError::KeeperRefused,
        LoadError::NoMemory => AskError::NoMemory,
    }
}

/// The answer to sources that aren't started.
pub(crate) fn unstarted(error: StartError) -> AskError
    ensures { result ≡ unstarted_by error }
{
    match error {
        StartError::SourceFault { place } => AskError::SourceFault { place },
        StartError::SourceShrank { place, kept, found } => {
            AskError::SourceShrank { place, kept, found }
        }
        StartError::NoMemory => AskError::NoMemory,
    }
}

/// The answer to a round that isn't done.
pub(crate) fn untaken(error: TakeError) -> AskError
    ensures { result ≡ untaken_by error }
{
    match error {
        TakeError::SourceFault { place } => AskError::SourceFault { place },
        TakeError::NumbersSpent => AskError::NumbersSpent,
        TakeError::NoMemory => AskError::NoMemory,
    }
}
