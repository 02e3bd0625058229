use osq_value::NoMemory;
use std::alloc::AllocError;
use thiserror::Error;

/// Why a line of JSON wasn't read: it isn't in the form, or memory was wanting.
#[derive(Clone, Copy, Debug, Error)]
pub enum JsonLineError {
    /// The bytes aren't a JSON object of the line's form.
    #[error("line is not a JSON object of the expected form")]
    BadLine,
    /// Memory was wanting.
    #[error("out of memory")]
    NoMemory,
}

impl From<NoMemory> for JsonLineError {
    ghost use Rattle.std.specs.Prelude.{◌≡◌};
    ghost use Rattle.change_records.specs.declared.error.JsonLineError.TheVariants as fault;

    ghost from_gives = { λ _ e. e ≡ fault.NoMemory };

    fn from(_error: NoMemory) -> Self {
        JsonLineError::NoMemory
    }
}

impl From<serde_json::Error> for JsonLineError {
    ghost use Rattle.std.specs.Prelude.{◌≡◌};
    ghost use Rattle.serde_json.specs.Errors.{IsMemory};
    ghost use Rattle.change_records.specs.declared.error.JsonLineError.TheVariants as fault;

    ghost from_gives = { λ error e. e ≡ fault.BadLine → ¬ (IsMemory error) };

    fn from(error: serde_json::Error) -> Self {
        if error.is_memory() {
            JsonLineError::NoMemory
        } else {
            JsonLineError::BadLine
        }
    }
}

impl From<AllocError> for JsonLineError {
    ghost use Rattle.std.specs.Prelude.{◌≡◌};
    ghost use Rattle.change_records.specs.declared.error.JsonLineError.TheVariants as fault;

    ghost from_gives = { λ _ e. e ≡ fault.NoMemory };

    fn from(_error: AllocError) -> Self {
        JsonLineError::NoMemory
    }
}
