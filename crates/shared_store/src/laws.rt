//! The laws of a shared state, which tie what its calls say to the list of the lock.

ghost use Rattle.shared_store.specs.Laws.{Dues, Tails};

/// A state that stands for the lock's list knows the first query that is due, and up to which number the events of each
/// evented table are to expire, by each kept list for which the store's start stands.
pub fn dues()
    ensures { Dues }
{}

/// Its tail is what was added behind the last mark, and where there is none, the start's tail and all that was added.
pub fn tails()
    ensures { Tails }
{}
