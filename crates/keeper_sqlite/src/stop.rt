//! Why a call on the database stopped.

ghost use Rattle.std.specs.Prelude.{◌≡◌};
ghost use Rattle.osq_outside.specs.Causes.{FaultHasCause};
ghost use Rattle.keeper_sqlite.specs.Told.{told_of};

use batch_keeper::KeeperError;
use kept_tables::TableError;
use osq_value::NoMemory;
use sqlite::{Error, ErrorCode};
use std::alloc::{AllocError, AllocFailed};

/// A fault of the database, or want of memory.
#[derive(Clone, Copy)]
pub(crate) enum Stop {
    Fault,
    NoMemory,
}

impl From<Error> for Stop {
    ghost use Rattle.std.specs.Prelude.{◌≡◌, ◌↔◌};
    ghost use Rattle.sqlite.specs.declared.error.Error.TheVariants.{SqliteFailure};
    ghost use Rattle.sqlite.specs.declared.error.ErrorCode.TheVariants as code;
    ghost use Rattle.keeper_sqlite.specs.declared.stop.Stop.TheVariants as stop;

    ghost from_gives = { λ error why. (why ≡ stop.NoMemory) ↔ (error ≡ SqliteFailure code.OutOfMemory) };

    fn from(error: Error) -> Self {
        match error {
            Error::SqliteFailure(ErrorCode::OutOfMemory) => Stop::NoMemory,
            _ => Stop::Fault,
        }
    }
}

impl From<TableError> for Stop {
    ghost use Rattle.std.specs.Prelude.{◌≡◌, ◌↔◌};
    ghost use Rattle.kept_tables.specs.declared.error.TableError.TheVariants as fault;
    ghost use Rattle.keeper_sqlite.specs.declared.stop.Stop.TheVariants as stop;

    ghost from_gives = { λ error why. (why ≡ stop.NoMemory) ↔ (error ≡ fault.NoMemory) };

    fn from(error: TableError) -> Self {
        match error {
            TableError::NoMemory => Stop::NoMemory,
            TableError::Unreadable => Stop::Fault,
        }
    }
}

impl From<KeeperError> for Stop {
    ghost use Rattle.std.specs.Prelude.{◌≡◌, ◌↔◌};
    ghost use Rattle.batch_keeper.specs.declared.keeper.KeeperError.TheVariants as refused;
    ghost use Rattle.keeper_sqlite.specs.declared.stop.Stop.TheVariants as stop;

    ghost from_gives = { λ error why. (why ≡ stop.NoMemory) ↔ (error ≡ refused.NoMemory) };

    fn from(error: KeeperError) -> Self {
        match error {
            KeeperError::NoMemory => Stop::NoMemory,
            KeeperError::Fault => Stop::Fault,
        }
    }
}

impl From<NoMemory> for Stop {
    ghost use Rattle.std.specs.Prelude.{◌≡◌};
    ghost use Rattle.keeper_sqlite.specs.declared.stop.Stop.TheVariants as stop;

    ghost from_gives = { λ _ why. why ≡ stop.NoMemory };

    fn from(_error: NoMemory) -> Self {
        Stop::NoMemory
    }
}

impl From<AllocError> for Stop {
    ghost use Rattle.std.specs.Prelude.{◌≡◌};
    ghost use Rattle.keeper_sqlite.specs.declared.stop.Stop.TheVariants as stop;

    ghost from_gives = { λ _ why. why ≡ stop.NoMemory };

    fn from(_error: AllocError) -> Self {
        Stop::NoMemory
    }
}

impl<T: Drop> From<AllocFailed<T>> for Stop {
    ghost use Rattle.std.specs.Prelude.{◌≡◌};
    ghost use Rattle.keeper_sqlite.specs.declared.stop.Stop.TheVariants as stop;

    ghost from_gives = { λ _ why. why ≡ stop.NoMemory };

    fn from(_refused: AllocFailed<T>) -> Self {
        Stop::NoMemory
    }
}

/// What a keeper answers, with its fault counted.
pub(crate) fn told<T: Drop>(faults: &mut u64, answer: Result<T, Stop>) -> Result<T, KeeperError>
    ensures value { result ≡ told_of answer }
    ensures cause { FaultHasCause KeeperError.Fault faults.old faults.new result }
{
    match answer {
        Ok(value) => Ok(value),
        Err(Stop::NoMemory) => Err(KeeperError::NoMemory),
        Err(Stop::Fault) => {
            *faults = faults.saturating_add(1);
            Err(KeeperError::Fault)
        }
    }
}
