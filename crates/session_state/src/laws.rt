//! The laws of states, which tie their contracts to the lists for which they stand.

ghost use Rattle.session_state.specs.Laws.{Dues, Shows};

/// A state that has the values of a list knows the first query that is due by the list, and up to which number the events
/// of each evented table are to expire, so that a tick is refused exactly where the list says so.
pub fn dues()
    ensures { Dues }
{}

/// What is shown of a state that has the values of a list is, table by table, what a query sees after these entries.
pub fn shows()
    ensures { Shows }
{}
