//! The configuration that a run is given by a path.

ghost use Rattle.std.specs.Prelude.{IfOk, IfErr};
ghost use Rattle.osq_outside.specs.Causes.{Rose};
ghost use Rattle.osq_config.specs.Bounds.{IsBounded};
ghost use Rattle.config_files.specs.Configurations.{IsConfigured};
ghost use Rattle.osq_program.specs.Checking.{IsRefusedFor, Refuses};
ghost use Rattle.osq_program.specs.Unconfigured.{IsCausedBy, IsFileOf};

use crate::status::Status;
use config_files::{Configured, ConfiguredError, kind_of};
use daemon_rounds::read_configuration;
use osq_config::ConfigError;
use osq_outside::Files;
use osq_value::Str;
use std::alloc::Global;

/// Why a command has no configuration.
#[derive(Drop)]
pub(crate) enum Unconfigured {
    /// The files failed where this one was to be read.
    Unread { file: Str },
    /// There is no such file, or its document is refused; or memory was wanting.
    Refused { status: Status },
}

/// The answer to a document that is no configuration.
fn refused(error: ConfigError) -> Status
    ensures { Refuses error result }
{
    let kind = kind_of(&error);
    match error {
        ConfigError::NotJson => Status::ConfigRefused {
            kind,
            key: Str::empty(),
        },
        ConfigError::WrongShape { key } => Status::ConfigRefused { kind, key },
        ConfigError::OutOfRange { key } => Status::ConfigRefused { kind, key },
        ConfigError::TooManyQueries => Status::ConfigRefused {
            kind,
            key: Str::empty(),
        },
        ConfigError::NoMemory => Status::OutOfMemory,
    }
}

/// The configuration in the file of this path with its packs, or why there is none.
pub(crate) fn configured<F: Files>(
    alloc: Global,
    files: &mut F,
    path: &Str,
) -> Result<Configured, Unconfigured>
    ensures config { IfOk result (λ made. IsConfigured F.tells (F.file files.old) path.now made.config made.documents made.notes) }
    ensures bounded { IfOk result (λ made. IsBounded made.config) }
    ensures cause { IfErr result (IsCausedBy (Rose (F.faults files.old) (F.faults files.new)) (IsFileOf F.tells (F.file files.old) path.now) (IsRefusedFor F.tells (F.file files.old) path.now)) }
{
    match read_configuration(alloc, files, path.as_str()) {
        Ok(made) => Ok(made),
        Err(ConfiguredError::Fault { file }) => Err(Unconfigured::Unread { file }),
        Err(ConfiguredError::Missing) => Err(Unconfigured::Refused {
            status: Status::ConfigRefused {
                kind: "Missing",
                key: Str::empty(),
            },
        }),
        Err(ConfiguredError::Refused { error }) => Err(Unconfigured::Refused {
            status: refused(error),
        }),
        Err(ConfiguredError::NoMemory) => Err(Unconfigured::Refused {
            status: Status::OutOfMemory,
        }),
    }
}
