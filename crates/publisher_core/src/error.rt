//! Why a publisher refuses.

use osq_value::NoMemory;
use std::alloc::AllocError;
use thiserror::Error;

/// Why a call on a publisher refused. The publisher is spent then.
#[derive(Clone, Copy, Debug, Error)]
pub enum StepError {
    /// The source failed: its count of faults rose in this call.
    #[error("failed to read the source")]
    SourceFault,
    /// The source ended after `found` bytes, before the `kept` bytes that earlier runs took of it.
    #[error("source ended after {found} bytes, before the {kept} bytes already taken of it")]
    SourceShrank { kept: u64, found: u64 },
    /// Memory was wanting.
    #[error("out of memory")]
    NoMemory,
}

impl From<NoMemory> for StepError {
    ghost use Rattle.std.specs.Prelude.{◌≡◌};
    ghost use Rattle.publisher_core.specs.declared.error.StepError.TheVariants as refusal;

    ghost from_gives = { λ _ e. e ≡ refusal.NoMemory };

    fn from(_refused: NoMemory) -> Self {
        StepError::NoMemory
    }
}

impl From<AllocError> for StepError {
    ghost use Rattle.std.specs.Prelude.{◌≡◌};
    ghost use Rattle.publisher_core.specs.declared.error.StepError.TheVariants as refusal;

    ghost from_gives = { λ _ e. e ≡ refusal.NoMemory };

    fn from(_refused: AllocError) -> Self {
        StepError::NoMemory
    }
}
