//! What questions to ledgers get of a host.

ghost use Rattle.run_laws.specs.Questions.{QuestionsIsolate};

use batch_forwarder::Link;
use batch_keeper::Keeper;
use osq_outside::{Clock, Files, Sink, Source};
use osq_program::outside::{Observes, Outside};

/// Two runs of `fleet` that ask one text of one host, over ledgers' files that record the same frames of it: then both write the same lines, or both refuse
/// the text by the same fault, whatever the files hold of other hosts.
pub fn questions_isolate<S: Source, O: Sink, F: Files, C: Clock, K: Keeper, L: Link>()
    ensures { QuestionsIsolate ⟦<Outside<S, O, F, C, K, L> as Observes>⟧.observed }
{}
