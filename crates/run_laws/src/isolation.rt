//! What runs of a collector give a host.

ghost use Rattle.run_laws.specs.Isolation.{HostsIsolate};

use batch_forwarder::Link;
use batch_keeper::Keeper;
use osq_outside::{Clock, Files, Sink, Source};
use osq_program::outside::{Observes, Outside};

/// Two runs of `collect` that end with Ok, over ledgers' files that agree on a host and over streams with the same lines of it: then the files agree on it
/// behind the runs, and the same is answered to it, whatever else the streams have.
pub fn hosts_isolate<S: Source, O: Sink, F: Files, C: Clock, K: Keeper, L: Link>()
    ensures { HostsIsolate ⟦<Outside<S, O, F, C, K, L> as Observes>⟧.observed }
{}
