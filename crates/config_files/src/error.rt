//! Why there is no configuration.

ghost use Rattle.config_files.specs.Refusals.{IsUnread};

use osq_config::ConfigError;
use osq_outside::FilesError;
use osq_value::{NoMemory, Str};
use std::alloc::Global;
use thiserror::Error;

/// Why a file gives no configuration.
#[derive(Debug, Drop, Error)]
pub enum ConfiguredError {
    /// The files failed where this one was to be read.
    #[error("failed to read {file:?}")]
    Fault { file: Str },
    /// There is no such file.
    #[error("no such configuration file")]
    Missing,
    /// The document in the file is no configuration. The error isn't want of memory.
    #[error("invalid configuration: {error}")]
    Refused { error: ConfigError },
    /// Memory was wanting.
    #[error("out of memory")]
    NoMemory,
}

impl From<NoMemory> for ConfiguredError {
    ghost use Rattle.std.specs.Prelude.{◌≡◌};
    ghost use Rattle.config_files.specs.declared.error.ConfiguredError.TheVariants as refusal;

    ghost from_gives = { λ _ refused. refused ≡ refusal.NoMemory };

    fn from(_error: NoMemory) -> Self {
        ConfiguredError::NoMemory
    }
}

impl From<ConfigError> for ConfiguredError {
    ghost use Rattle.std.specs.Prelude.{◌≡◌};
    ghost use Rattle.config_files.specs.Refusals.{of_document};

    ghost from_gives = { λ error refused. refused ≡ of_document error };

    fn from(error: ConfigError) -> Self {
        match error {
            ConfigError::NoMemory => ConfiguredError::NoMemory,
            error => ConfiguredError::Refused { error },
        }
    }
}

/// The answer where the file of this path isn't read.
pub(crate) fn unread(alloc: Global, path: &str, error: FilesError) -> ConfiguredError
    ensures { IsUnread path.now error result }
{
    match error {
        FilesError::NoMemory => ConfiguredError::NoMemory,
        FilesError::Fault => match Str::of(alloc, path) {
            Ok(file) => ConfiguredError::Fault { file },
            Err(NoMemory) => ConfiguredError::NoMemory,
        },
    }
}
