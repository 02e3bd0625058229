//! Why rows give no values.

use osq_value::NoMemory;
use thiserror::Error;

/// Why the rows of the tables give no values.
#[derive(Clone, Copy, Debug, Error)]
pub enum TableError {
    /// A row isn't one that a seal writes.
    #[error("unreadable row in the store")]
    Unreadable,
    /// Memory was wanting.
    #[error("out of memory")]
    NoMemory,
}

impl From<NoMemory> for TableError {
    ghost use Rattle.std.specs.Prelude.{◌≡◌};
    ghost use Rattle.kept_tables.specs.declared.error.TableError.TheVariants as fault;

    ghost from_gives = { λ _ e. e ≡ fault.NoMemory };

    fn from(_error: NoMemory) -> Self {
        TableError::NoMemory
    }
}
