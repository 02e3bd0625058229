//! Places in a query's text.

/// Byte places in the text, from `start` to before `end`.
#[derive(Clone, Copy)]
pub struct Span {
    /// The first byte, from 0.
    pub start: usize,
    /// The byte behind the last one.
    pub end: usize,
}
