//! Why a collector stops.

use osq_outside::{SinkFault, SourceFault};
use osq_value::NoMemory;
use thiserror::Error;

/// Why a collector stops before its stream's end.
#[derive(Clone, Copy, Debug, Error)]
pub enum CollectError {
    /// The stream of frames failed.
    #[error("failed to read the stream of frames")]
    SourceFault,
    /// The ledger's file or the answers could not be written.
    #[error("failed to write the ledger or the answers")]
    SinkFault,
    /// Memory was wanting.
    #[error("out of memory")]
    NoMemory,
}

impl From<NoMemory> for CollectError {
    ghost use Rattle.std.specs.Prelude.{◌≡◌};
    ghost use Rattle.collect_rounds.specs.declared.error.CollectError.{CollectError};

    ghost from_gives = { λ _ e. e ≡ CollectError.NoMemory };

    fn from(_error: NoMemory) -> Self {
        CollectError::NoMemory
    }
}

impl From<SourceFault> for CollectError {
    ghost use Rattle.std.specs.Prelude.{◌≡◌};
    ghost use Rattle.collect_rounds.specs.declared.error.CollectError.{CollectError};

    ghost from_gives = { λ _ e. e ≡ CollectError.SourceFault };

    fn from(_error: SourceFault) -> Self {
        CollectError::SourceFault
    }
}

impl From<SinkFault> for CollectError {
    ghost use Rattle.std.specs.Prelude.{◌≡◌};
    ghost use Rattle.collect_rounds.specs.declared.error.CollectError.{CollectError};

    ghost from_gives = { λ _ e. e ≡ CollectError.SinkFault };

    fn from(_error: SinkFault) -> Self {
        CollectError::SinkFault
    }
}
