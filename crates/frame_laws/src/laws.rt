//! The laws of frames, which speak of the definitions alone.

ghost use Rattle.frame_laws.specs.Laws.{CommitsMakeFrames, FetchedIsCommitted, FetchedIsNumbered, FetchedMakesFrame};

/// Each batch of a legal list makes a valid frame, for every host whose name has 1 to 255 bytes, under the names of its query's columns: its
/// numbers are small enough, and its rows as wide as the names. The list has fewer than 2^63 entries before the batch.
pub fn commits_make_frames()
    ensures { CommitsMakeFrames }
{}

/// The batch of a number that is fetched from a legal list has that number.
pub fn fetched_is_numbered()
    ensures { FetchedIsNumbered }
{}

/// A batch that is fetched was committed in the list.
pub fn fetched_is_committed()
    ensures { FetchedIsCommitted }
{}

/// A batch that is fetched from a legal list of fewer than 2^63 entries makes a valid frame, for every host whose name has 1 to 255 bytes,
/// under the names of its query's columns.
pub fn fetched_makes_frame()
    ensures { FetchedMakesFrame }
{}
