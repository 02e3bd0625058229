//! When a run answers Ok.

ghost use Rattle.run_laws.specs.Completeness.{Completes};

use batch_forwarder::Link;
use batch_keeper::Keeper;
use osq_outside::{Clock, Files, Sink, Source};
use osq_program::outside::{Observes, Outside};

/// Where no object of the outside fails, and what they hold is in order, a run of a command answers Ok, or memory was wanting.
pub fn completes<S: Source, O: Sink, F: Files, C: Clock, K: Keeper, L: Link>()
    ensures { Completes ⟦<Outside<S, O, F, C, K, L> as Observes>⟧.observed }
{}
