//! Why a step of threads isn't done.

use thiserror::Error;

/// Why a step of threads isn't done.
#[derive(Clone, Copy, Debug, Error)]
pub enum StepRefusal {
    /// The source at this place failed, the first one of those that did.
    #[error("failed to read source {place}")]
    SourceFault { place: usize },
    /// The next event's or the next batch's number would pass 2^62.
    #[error("event or batch numbers are exhausted")]
    NumbersSpent,
    /// Memory was wanting.
    #[error("out of memory")]
    NoMemory,
}
