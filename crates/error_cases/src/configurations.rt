//! Errors of configurations.

use crate::printed::print_errors;
use config_files::ConfiguredError;
use osq_config::ConfigError;
use osq_value::{NoMemory, Str};
use std::alloc::Global;
use std::io::{self, ErrorKind};

fn shaped(alloc: Global) -> Result<[ConfigError; 3], NoMemory> {
    Ok([
        ConfigError::WrongShape { key: Str::empty() },
        ConfigError::WrongShape {
            key: Str::of(alloc, "packs.a\nb.queries")?,
        },
        ConfigError::OutOfRange {
            key: Str::of(alloc, "schedule.files.interval")?,
        },
    ])
}

fn in_files(alloc: Global) -> Result<[ConfiguredError; 4], NoMemory> {
    Ok([
        ConfiguredError::Fault {
            file: Str::of(alloc, "packs/linux.json")?,
        },
        ConfiguredError::Missing,
        ConfiguredError::Refused {
            error: ConfigError::OutOfRange {
                key: Str::of(alloc, "options.workers")?,
            },
        },
        ConfiguredError::NoMemory,
    ])
}

fn print_all<R: Print>(
    rt: &R,
    shaped: &[ConfigError],
    in_files: &[ConfiguredError],
) -> io::Result<()> {
    print_errors(rt, "ConfigError", &[ConfigError::NotJson])?;
    print_errors(rt, "ConfigError", shaped)?;
    print_errors(
        rt,
        "ConfigError",
        &[ConfigError::TooManyQueries, ConfigError::NoMemory],
    )?;
    print_errors(rt, "ConfiguredError", in_files)
}

pub(crate) fn print<R: Print>(rt: &R, alloc: Global) -> io::Result<()> {
    match (shaped(alloc), in_files(alloc)) {
        (Ok(shaped), Ok(in_files)) => print_all(rt, &shaped, &in_files),
        _ => Err(io::Error::from(ErrorKind::OutOfMemory)),
    }
}
