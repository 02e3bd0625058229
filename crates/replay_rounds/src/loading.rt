//! The values that a session goes on from.

ghost use Rattle.std.specs.Prelude.{◌≡◌, ◌≤◌, Err, IfOk, OnOk};
ghost use Rattle.batch_keeper.specs.Calling.{Fails, Passes};
ghost use Rattle.osq_outside.specs.Causes.{Rose};
ghost use Rattle.entry_model.specs.Fits.{Fits};
ghost use Rattle.entry_model.specs.Legal.{Legal};
ghost use Rattle.entry_model.specs.Summary.{summary};
ghost use Rattle.replay_rounds.specs.Stopping.{HasNumbers};
ghost use Rattle.replay_rounds.specs.declared.loading.LoadError.{LoadError};
ghost use Rattle.replay_rounds.specs.declared.refused.Numbers.{Numbers};

use crate::refused::{Numbers, numbers_in};
use batch_keeper::{Keeper, KeeperError};
use entry_model::laws;
use entry_model::restored::Restored;
use entry_summary::fitting::fits_by_hash;
use osq_value::NoMemory;
use std::alloc::Global;
use thiserror::Error;

/// Why there are no values to go on from.
#[derive(Clone, Copy, Debug, Error)]
pub enum LoadError {
    /// The keeper failed.
    #[error("failed to read or write the kept list")]
    KeeperFault,
    /// The keeper gave values that no session may go on from. They have these numbers.
    #[error("no session can go on from the kept values")]
    KeeperRefused { kept: Numbers },
    /// Memory was wanting.
    #[error("out of memory")]
    NoMemory,
}

/// The values of the keeper's list, where a session may go on from them. Those of a legal list are never refused.
/// KeeperFault where the keeper failed; KeeperRefused, with the numbers of its values, where no session may go on from them.
pub fn load_values<K: Keeper>(alloc: Global, keeper: &mut K) -> Result<Restored, LoadError>
    ensures fits { IfOk result Fits }
    ensures value { K.tells → IfOk result (λ restored. restored ≡ summary (K.kept keeper.old)) }
    ensures same { K.tells → K.kept keeper.new ≡ K.kept keeper.old }
    ensures refused { K.tells → (kept : Numbers) → result ≡ Err (LoadError.KeeperRefused kept) → ¬ Fits (summary (K.kept keeper.old)) }
    ensures illegal { K.tells → (kept : Numbers) → result ≡ Err (LoadError.KeeperRefused kept) → ¬ Legal (K.kept keeper.old) }
    ensures numbers { K.tells → (kept : Numbers) → result ≡ Err (LoadError.KeeperRefused kept) → HasNumbers (K.kept keeper.old) kept }
    ensures cause { result ≡ Err LoadError.KeeperFault → Rose (K.faults keeper.old) (K.faults keeper.new) }
    ensures passed { K.counts → OnOk result (Passes (K.calls keeper.old) 1 (K.calls keeper.new)) }
    ensures failed { K.counts → result ≡ Err LoadError.KeeperFault → Fails (K.calls keeper.old) 0 (K.calls keeper.new) }
    ensures later { K.faults keeper.old ≤ K.faults keeper.new }
{
    laws::fitting();
    let restored = match keeper.load(alloc) {
        Ok(restored) => restored,
        Err(KeeperError::Fault) => return Err(LoadError::KeeperFault),
        Err(KeeperError::NoMemory) => return Err(LoadError::NoMemory),
    };
    let fit = match fits_by_hash(alloc, &restored) {
        Ok(fit) => fit,
        Err(NoMemory) => return Err(LoadError::NoMemory),
    };
    if fit {
        Ok(restored)
    } else {
        Err(LoadError::KeeperRefused {
            kept: numbers_in(&restored),
        })
    }
}
