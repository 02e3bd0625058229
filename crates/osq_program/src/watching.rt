//! The paths whose changes a question sees.

ghost use Rattle.std.specs.Prelude.{◌≡◌, None, IfOk, IfErr};
ghost use Rattle.osq_outside.specs.Causes.{Rose};
ghost use Rattle.osq_program.specs.Unconfigured.{IsCausedBy};
ghost use Rattle.osq_program.specs.Watching.{AreWatched, IsFileIn, IsRefusedIn};

use crate::configuration::{Unconfigured, configured};
use config_files::Configured;
use osq_outside::Files;
use osq_value::{Bytes, CategoryList, Str};
use std::alloc::Global;

/// What a question has of a configuration.
#[derive(Drop)]
pub(crate) struct Watched {
    /// The paths whose changes are seen.
    pub(crate) paths: CategoryList,
    /// A line for each pack that is left out.
    pub(crate) notes: Bytes,
}

/// The paths of the configuration in the file of this path, or none where no file is named.
pub(crate) fn watched_by<F: Files>(
    alloc: Global,
    files: &mut F,
    path: &Option<Str>,
) -> Result<Watched, Unconfigured>
    ensures watched { IfOk result (λ made. AreWatched F.tells (F.file files.old) path.now made.paths made.notes) }
    ensures unread { path.now ≡ None → files.new ≡ files.old }
    ensures cause { IfErr result (IsCausedBy (Rose (F.faults files.old) (F.faults files.new)) (IsFileIn F.tells (F.file files.old) path.now) (IsRefusedIn F.tells (F.file files.old) path.now)) }
{
    let Some(path) = path else {
        return Ok(Watched {
            paths: CategoryList::new(alloc),
            notes: Bytes::new(alloc),
        });
    };
    match configured(alloc, files, path) {
        Ok(
            Configured {
                config,
                documents: _documents,
                notes,
            },
        ) => Ok(Watched {
            paths: config.categories,
            notes,
        }),
        Err(refused) => Err(refused),
    }
}
