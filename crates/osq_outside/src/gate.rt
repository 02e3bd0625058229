//! Places at which a test may hold a thread up.

/// A place between two turns of a publisher or a worker.
#[derive(Clone, Copy)]
pub enum Point {
    /// A worker has claimed a cut.
    AfterCut,
    /// A worker has the rows of its cut, and hasn't committed them.
    BeforeCommit,
    /// A publisher has a reading, and hasn't added it.
    BeforeAppend,
    /// A publisher has added a reading.
    AfterAppend,
}

/// What a publisher or a worker passes at each of its points, outside any turn.
pub trait Gate: Sync {
    /// `who` is the source's place for a publisher, and the number of sources plus the worker's place for a worker;
    /// places count from 0.
    fn at(&self, who: u32, point: Point);
}

/// A gate that holds nothing up.
#[derive(Clone, Copy)]
pub struct OpenGate;

impl Gate for OpenGate {
    fn at(&self, _who: u32, _point: Point) {}
}
