//! Why a configuration isn't taken.

use osq_value::{NoMemory, Str};
use std::alloc::AllocError;
use thiserror::Error;

/// Why a document is no configuration, or no pack.
#[derive(Debug, Drop, Error)]
pub enum ConfigError {
    /// The document isn't UTF-8, or what is left of it without comments is no JSON.
    #[error("document is not JSON")]
    NotJson,
    /// The value of this key has another kind, or the key is missing. A key is named by its path with dots, as `schedule.files.interval`;
    /// the whole value has the empty path.
    #[error("key {key:?} is missing or has a value of another kind")]
    WrongShape { key: Str },
    /// The number or word of this key lies outside what is allowed.
    #[error("value of key {key:?} is out of range")]
    OutOfRange { key: Str },
    /// The schedule and the packs hold more than 10000 queries together.
    #[error("more than 10000 queries in the schedule and the packs")]
    TooManyQueries,
    /// Memory was wanting.
    #[error("out of memory")]
    NoMemory,
}

impl From<NoMemory> for ConfigError {
    ghost use Rattle.std.specs.Prelude.{◌≡◌};
    ghost use Rattle.osq_config.specs.declared.error.ConfigError.TheVariants as fault;

    ghost from_gives = { λ _ e. e ≡ fault.NoMemory };

    fn from(_error: NoMemory) -> Self {
        ConfigError::NoMemory
    }
}

impl From<AllocError> for ConfigError {
    ghost use Rattle.std.specs.Prelude.{◌≡◌};
    ghost use Rattle.osq_config.specs.declared.error.ConfigError.TheVariants as fault;

    ghost from_gives = { λ _ e. e ≡ fault.NoMemory };

    fn from(_error: AllocError) -> Self {
        ConfigError::NoMemory
    }
}
