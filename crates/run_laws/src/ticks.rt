//! How many ticks are enough for a session to read its sources to their ends.

ghost use Rattle.run_laws.specs.Ticks.{FewTicks, ReadsWhole};

use batch_forwarder::Link;
use batch_keeper::Keeper;
use osq_outside::{Clock, Sink, Source};

/// Where a session's ticks are over and a source had more, there were fewer than are enough for it.
pub fn few_ticks<S: Source, L: Link>()
    ensures { FewTicks S.tells L.tells }
{}

/// A run whose ticks are enough for each of its sources reads all of them to their ends.
pub fn reads_whole<K: Keeper, O: Sink, S: Source, L: Link, C: Clock>()
    ensures { ReadsWhole K.tells O.tells S.tells L.tells C.reads }
{}
