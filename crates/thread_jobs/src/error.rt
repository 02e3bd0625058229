//! Why a job isn't done.

use thiserror::Error;

/// Why a job isn't done.
#[derive(Clone, Copy, Debug, Error)]
pub enum JobError {
    /// The source failed.
    #[error("failed to read the source")]
    SourceFault,
    /// The next event's or the next batch's number would pass 2^62.
    #[error("event or batch numbers are exhausted")]
    NumbersSpent,
    /// Another seat has added a reading of the source.
    #[error("another seat added a reading of the source")]
    Intruded,
    /// Memory was wanting.
    #[error("out of memory")]
    NoMemory,
}
