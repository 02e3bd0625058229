//! The command `replay`: a whole session, in whichever order its ticks are worked on.

ghost use Rattle.std.specs.Prelude.{◌≡◌, ◌-◌, ℕ, false, List, [], ◌∷◌, vec_len, length};
ghost use Rattle.program_words.specs.Bounds.{SessionBounds};
ghost use Rattle.program_words.specs.Commands.{forwards};
ghost use Rattle.replay_rounds.specs.Called.{HasSealedOf, HasStoppedOf};
ghost use Rattle.osq_program.specs.Answers.{IsDoneStatus, IsUsageStatus};
ghost use Rattle.osq_program.specs.Replaying.{IsReplay};
ghost use Rattle.osq_program.specs.Telling.{TellsReplay};

use crate::configuration::configured;
use crate::ending::{answer_to, finish};
use crate::outside::{Observes, Outside};
use crate::setup::setup_of;
use crate::status::Status;
use crate::stop::{refuse_unconfigured, starve, stop};
use batch_forwarder::Link;
use batch_keeper::Keeper;
use daemon_rounds::TakesRound;
use osq_outside::{Clock, Files, Sink, Source};
use program_words::ReplayWords;
use replay_rounds::{Basis, run_session};
use std::alloc::Global;

/// How often the link failed since its count stood here.
fn faults_since<L: Link>(link: &L, count: u64) -> u64
    ensures { result ≡ L.faults link.now - count }
{
    link.fault_count().saturating_sub(count)
}

/// Runs the session that the words ask for, whose ticks are worked on in this order, and tells on the status stream what the session tells, and how it
/// ended. Where the words name a link, what is sealed is forwarded through it.
pub(crate) fn run_replay<
    T: TakesRound<S>,
    S: Source,
    O: Sink,
    F: Files,
    C: Clock,
    K: Keeper,
    L: Link,
>(order: &T, alloc: Global, words: &ReplayWords, outside: &mut Outside<S, O, F, C, K, L>) -> Status
    requires sources { vec_len outside.old.sources ≡ length words.now.sources }
    requires takes { T.takes order.now }
    requires bounded { SessionBounds words.now }
    ensures usage { ¬ IsUsageStatus result }
    ensures link { forwards words.now ≡ false → outside.new.link ≡ outside.old.link }
    ensures ledger { outside.new.ledger ≡ outside.old.ledger }
    ensures sources { vec_len outside.new.sources ≡ vec_len outside.old.sources }
    ensures does { IsReplay T.order words.now (⟦<Outside<S, O, F, C, K, L> as Observes>⟧.observed outside.old outside.new) result }
    ensures sealed { K.counts → forwards words.now ≡ false → IsDoneStatus result → HasSealedOf K.Keeper outside.old.keeper outside.new.keeper words.now.ticks }
    ensures stopped { K.counts → forwards words.now ≡ false → result ≡ Status.KeeperFault → HasStoppedOf K.Keeper outside.old.keeper outside.new.keeper words.now.ticks }
    ensures told { TellsReplay T.order words.now (⟦<Outside<S, O, F, C, K, L> as Observes>⟧.observed outside.old outside.new) result }
{
    let configured = match configured(alloc, &mut outside.files, &words.config) {
        Ok(configured) => configured,
        Err(refused) => return refuse_unconfigured(alloc, &mut outside.status, refused),
    };
    let Ok(setup) = setup_of(alloc, words) else {
        return starve(&mut outside.status);
    };
    let basis = Basis {
        alloc,
        setup,
        configured,
    };
    let before = outside.link.fault_count();
    match run_session(
        order,
        &basis,
        &mut outside.clock,
        outside.sources.as_mut_slice(),
        &mut outside.keeper,
        &mut outside.results,
        &mut outside.status,
        &mut outside.link,
    ) {
        Ok(ended) => {
            let faults = faults_since(&outside.link, before);
            finish(alloc, &mut outside.status, ended, faults)
        }
        Err(refused) => {
            let status = answer_to(alloc, words.sources.as_slice(), refused.error);
            let faults = faults_since(&outside.link, before);
            stop(alloc, &mut outside.status, status, refused.numbers, faults)
        }
    }
}
