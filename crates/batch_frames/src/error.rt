//! Why a line is no frame.

use osq_value::NoMemory;
use thiserror::Error;

/// What is wrong with a line, by the first of these that holds.
#[derive(Clone, Copy, Debug, Error)]
pub enum BadKind {
    /// The line is no JSON value.
    #[error("not JSON")]
    NotJson,
    /// The value isn't an object with exactly the keys of a frame and values of their kinds, or the frame isn't valid.
    #[error("keys or values are not those of a frame")]
    WrongShape,
    /// The digest isn't that of the frame.
    #[error("digest mismatch")]
    BadDigest,
    /// The frame's text is another.
    #[error("not in canonical form")]
    NotCanonical,
}

/// Why a line wasn't decoded.
#[derive(Clone, Copy, Debug, Error)]
pub enum FrameError {
    /// The line is no frame.
    #[error("invalid frame: {kind}")]
    BadFrame {
        /// What is wrong with it.
        kind: BadKind,
    },
    /// Memory was wanting.
    #[error("out of memory")]
    NoMemory,
}

impl From<NoMemory> for FrameError {
    ghost use Rattle.std.specs.Prelude.{◌≡◌};
    ghost use Rattle.batch_frames.specs.declared.error.FrameError.TheVariants as fault;

    ghost from_gives = { λ _ e. e ≡ fault.NoMemory };

    fn from(_error: NoMemory) -> Self {
        FrameError::NoMemory
    }
}
