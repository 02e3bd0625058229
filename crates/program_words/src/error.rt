//! Why words give no command.

use osq_value::NoMemory;
use thiserror::Error;

/// Why words give no command.
#[derive(Clone, Copy, Debug, Error)]
pub enum WordsError {
    /// They are the words of no command.
    #[error("invalid command line")]
    Usage,
    /// Memory was wanting.
    #[error("out of memory")]
    NoMemory,
}

impl From<NoMemory> for WordsError {
    ghost use Rattle.std.specs.Prelude.{◌≡◌};
    ghost use Rattle.program_words.specs.declared.error.WordsError.{WordsError};

    ghost from_gives = { λ _ e. e ≡ WordsError.NoMemory };

    fn from(_error: NoMemory) -> Self {
        WordsError::NoMemory
    }
}
