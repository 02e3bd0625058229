//! The laws of collectors, which speak of the definitions alone.

ghost use Rattle.collect_rounds.specs.Laws.{Isolation, Reopens};

/// The ledger of a file, with what a collector added to it, is the one that the collector had at its end. So it goes on where it was.
pub fn reopens()
    ensures { Reopens }
{}

/// What is recorded of a host and answered to its frames hangs on what was recorded of it before and on its own frames, in their order:
/// no line that is another host's frame, or no frame, changes it.
pub fn isolation()
    ensures { Isolation }
{}
