use osq_value::Bytes;

/// A line without its line feed. `end` is the stream's offset behind the line feed.
#[derive(Drop)]
pub struct Line {
    /// Its bytes, of any value but 0A, and at most as many as the limit.
    pub text: Bytes,
    /// In bytes from the start of the stream.
    pub end: u64,
}

/// A line of the stream, or a place where a line was longer than the limit. `end` is the stream's offset behind its line feed.
#[derive(Drop)]
pub enum Cut {
    /// A line that is at most as long as the limit.
    Line(Line),
    /// A longer line, whose bytes aren't kept.
    Skipped { end: u64 },
}
