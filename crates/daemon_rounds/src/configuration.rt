//! The configuration of a session.

ghost use Rattle.std.specs.Prelude.{◌≡◌, ◌≤◌, ℕ, List, IfOk, IfErr};
ghost use Rattle.osq_config.specs.Bounds.{IsBounded};
ghost use Rattle.osq_outside.specs.Causes.{Rose};
ghost use Rattle.config_files.specs.Causes.{IsCaused};
ghost use Rattle.config_files.specs.Configurations.{IsConfigured};

use config_files::{Configured, ConfiguredError, read_configured};
use osq_outside::Files;
use std::alloc::Global;

/// The configuration in the file of this path with its packs, as `read_configured` gives it. Its numbers lie between their bounds.
/// It refuses as `read_configured` does.
pub fn read_configuration<F: Files>(
    alloc: Global,
    files: &mut F,
    path: &str,
) -> Result<Configured, ConfiguredError>
    ensures configured { IfOk result (λ made. IsConfigured F.tells (F.file files.old) path.now made.config made.documents made.notes) }
    ensures bounded { IfOk result (λ made. IsBounded made.config) }
    ensures cause { IfErr result (IsCaused F.tells (F.file files.old) path.now (Rose (F.faults files.old) (F.faults files.new))) }
    ensures same { F.tells → (path : List ℕ) → F.file files.new path ≡ F.file files.old path }
    ensures later { F.faults files.old ≤ F.faults files.new }
{
    match read_configured(alloc, files, path) {
        Ok(made) => Ok(made),
        Err(error) => Err(error),
    }
}
