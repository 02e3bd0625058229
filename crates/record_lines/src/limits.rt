//! How much of a source is read, and what a line may have.

/// A line of an audit log, of changes or of an answer's stream has at most so many bytes. A longer one is skipped.
pub const LINE_LIMIT: u64 = 65_536;

/// A step, which reads one source for a while, ends once it has read so many bytes.
pub const STEP_BYTES: u64 = 16_777_216;

/// One read takes at most so many bytes.
pub const PIECE_BYTES: usize = 65_536;
