//! Why a part of a tick isn't done.

use thiserror::Error;

/// Why a part of a tick isn't done. What was added up to there stays in the state, and is not sealed.
#[derive(Clone, Copy, Debug, Error)]
pub enum RoundError {
    /// The next event's or the next batch's number would pass 2^62.
    #[error("event or batch numbers are exhausted")]
    NumbersSpent,
    /// Memory was wanting.
    #[error("out of memory")]
    NoMemory,
}

/// Why a tick isn't done.
#[derive(Clone, Copy, Debug, Error)]
pub enum FinishError {
    /// The next batch's number would pass 2^62.
    #[error("batch numbers are exhausted")]
    NumbersSpent,
    /// The keeper failed: it has all entries of the tick, or none.
    #[error("failed to read or write the kept list")]
    KeeperFault,
    /// The entries are kept, and a front part of their lines was written.
    #[error("failed to write the result lines")]
    SinkFault,
    /// Memory was wanting.
    #[error("out of memory")]
    NoMemory,
}

/// Why the turn of a source isn't done.
#[derive(Clone, Copy, Debug, Error)]
pub enum TurnError {
    /// The source failed.
    #[error("failed to read the source")]
    SourceFault,
    /// The next event's number would pass 2^62.
    #[error("event numbers are exhausted")]
    NumbersSpent,
    /// Memory was wanting.
    #[error("out of memory")]
    NoMemory,
}

/// Why a round of the sources isn't done.
#[derive(Clone, Copy, Debug, Error)]
pub enum TakeError {
    /// The source at this place failed.
    #[error("failed to read source {place}")]
    SourceFault { place: usize },
    /// The next event's number would pass 2^62.
    #[error("event numbers are exhausted")]
    NumbersSpent,
    /// Memory was wanting.
    #[error("out of memory")]
    NoMemory,
}

/// Why the sources of a session aren't started.
#[derive(Clone, Copy, Debug, Error)]
pub enum StartError {
    /// The source at this place failed.
    #[error("failed to read source {place}")]
    SourceFault { place: usize },
    /// The source at this place ended after `found` bytes, before the `kept` bytes that earlier sessions took of it.
    #[error("source {place} ended after {found} bytes, before the {kept} bytes already taken of it")]
    SourceShrank { place: usize, kept: u64, found: u64 },
    /// Memory was wanting.
    #[error("out of memory")]
    NoMemory,
}

/// Why a session isn't open.
#[derive(Clone, Copy, Debug, Error)]
pub enum OpenError {
    /// The clock gave this moment, which is beyond the year 9999.
    #[error("clock reading {moment} is beyond the year 9999")]
    MomentTooLarge { moment: u64 },
    /// The source at this place failed.
    #[error("failed to read source {place}")]
    SourceFault { place: usize },
    /// The source at this place ended after `found` bytes, before the `kept` bytes that earlier sessions took of it.
    #[error("source {place} ended after {found} bytes, before the {kept} bytes already taken of it")]
    SourceShrank { place: usize, kept: u64, found: u64 },
    /// The next event's number would pass 2^62.
    #[error("event numbers are exhausted")]
    NumbersSpent,
    /// Memory was wanting.
    #[error("out of memory")]
    NoMemory,
}
