//! Sessions whose ticks are worked on in turn, for `replay`, and by threads, for `daemon`.

ghost use Rattle.std.specs.Prelude.{◌≡◌, ◌≤◌, false, length, vec_len};
ghost use Rattle.program_words.specs.Bounds.{DaemonBounds, SessionBounds};
ghost use Rattle.program_words.specs.Commands.{forwards};
ghost use Rattle.session_model.specs.Orders.{at_once, in_turn};
ghost use Rattle.daemon_rounds.specs.Orders.{EndsRound};
ghost use Rattle.daemon_rounds.specs.Rounding.{AreGoing};
ghost use Rattle.replay_rounds.specs.Called.{HasSealedOf, HasStoppedOf};
ghost use Rattle.osq_program.specs.Answers.{IsDoneStatus, IsUsageStatus};
ghost use Rattle.osq_program.specs.Replaying.{IsReplay};
ghost use Rattle.osq_program.specs.Telling.{TellsReplay};

use crate::outside::{Observes, Outside};
use crate::replay::run_replay;
use crate::status::Status;
use batch_forwarder::Link;
use batch_keeper::Keeper;
use daemon_rounds::{AtOnce, InTurn, TakeError, round_in_turn};
use osq_outside::{Clock, Files, Gate, Sink, Source};
use program_words::{DaemonWords, ReplayWords};
use session_state::State;
use source_feeds::Feed;
use std::alloc::Global;
use std::sync::Wait;
use std::thread::Threads;
use thread_rounds::round_at_once;

/// How a round ends.
type Taken = Result<(), TakeError>;

/// Runs the session that the words ask for, one source after another, and tells on the status stream what the session tells, and how it ended.
pub(crate) fn run_in_turn<S: Source, O: Sink, F: Files, C: Clock, K: Keeper, L: Link>(
    alloc: Global,
    words: &ReplayWords,
    outside: &mut Outside<S, O, F, C, K, L>,
) -> Status
    requires sources { vec_len outside.old.sources ≡ length words.now.sources }
    requires bounded { SessionBounds words.now }
    ensures usage { ¬ IsUsageStatus result }
    ensures link { forwards words.now ≡ false → outside.new.link ≡ outside.old.link }
    ensures ledger { outside.new.ledger ≡ outside.old.ledger }
    ensures sources { vec_len outside.new.sources ≡ vec_len outside.old.sources }
    ensures does { IsReplay in_turn words.now (⟦<Outside<S, O, F, C, K, L> as Observes>⟧.observed outside.old outside.new) result }
    ensures sealed { K.counts → forwards words.now ≡ false → IsDoneStatus result → HasSealedOf K.Keeper outside.old.keeper outside.new.keeper words.now.ticks }
    ensures stopped { K.counts → forwards words.now ≡ false → result ≡ Status.KeeperFault → HasStoppedOf K.Keeper outside.old.keeper outside.new.keeper words.now.ticks }
    ensures told { TellsReplay in_turn words.now (⟦<Outside<S, O, F, C, K, L> as Observes>⟧.observed outside.old outside.new) result }
{
    let call = |alloc: Global, state: &mut State, feeds: &mut [Feed], sources: &mut [S], most: u64| -> Taken
        requires paired { length sources.old ≡ length feeds.old }
        requires going { AreGoing state.old.counts.taken feeds.old }
        ensures { EndsRound in_turn S.tells S.left S.faults most feeds.old feeds.new sources.old sources.new state.old state.new result }
    { round_in_turn(alloc, state, feeds, sources, most) };
    let order = InTurn { call };
    run_replay(&order, alloc, words, outside)
}

/// By what a round of all sources is taken at once: one value, so that a call that holds it borrows for one lifetime.
#[derive(Drop)]
struct Threaded<'a, R: Threads + Wait + Sync, G: Gate> {
    /// What starts threads and waits for them.
    rt: &'a R,
    /// Where each thread passes before its turns.
    gate: &'a G,
    /// How many workers answer what is due.
    workers: u32,
}

/// A round of all sources at once.
fn round_threaded<R: Threads + Wait + Sync, S: Source, G: Gate>(
    by: &Threaded<R, G>,
    alloc: Global,
    state: &mut State,
    feeds: &mut [Feed],
    sources: &mut [S],
    most: u64,
) -> Taken
    requires workers { 1 ≤ by.now.workers }
    requires paired { length sources.old ≡ length feeds.old }
    requires going { AreGoing state.old.counts.taken feeds.old }
    ensures { EndsRound at_once S.tells S.left S.faults most feeds.old feeds.new sources.old sources.new state.old state.new result }
{
    round_at_once(
        by.rt, by.gate, by.workers, alloc, state, feeds, sources, most,
    )
}

/// Runs the session that the words ask for, with as many workers as they say, and tells on the status stream what the session tells, and how it ended.
pub(crate) fn run_by_threads<
    R: Threads + Wait + Sync,
    S: Source,
    O: Sink,
    F: Files,
    C: Clock,
    K: Keeper,
    L: Link,
    G: Gate,
>(
    rt: &R,
    alloc: Global,
    words: &DaemonWords,
    outside: &mut Outside<S, O, F, C, K, L>,
    gate: &G,
) -> Status
    requires sources { vec_len outside.old.sources ≡ length words.now.run.sources }
    requires bounded { DaemonBounds words.now }
    ensures usage { ¬ IsUsageStatus result }
    ensures link { forwards words.now.run ≡ false → outside.new.link ≡ outside.old.link }
    ensures ledger { outside.new.ledger ≡ outside.old.ledger }
    ensures sources { vec_len outside.new.sources ≡ vec_len outside.old.sources }
    ensures does { IsReplay at_once words.now.run (⟦<Outside<S, O, F, C, K, L> as Observes>⟧.observed outside.old outside.new) result }
    ensures sealed { K.counts → forwards words.now.run ≡ false → IsDoneStatus result → HasSealedOf K.Keeper outside.old.keeper outside.new.keeper words.now.run.ticks }
    ensures stopped { K.counts → forwards words.now.run ≡ false → result ≡ Status.KeeperFault → HasStoppedOf K.Keeper outside.old.keeper outside.new.keeper words.now.run.ticks }
    ensures told { TellsReplay at_once words.now.run (⟦<Outside<S, O, F, C, K, L> as Observes>⟧.observed outside.old outside.new) result }
{
    let by = Threaded {
        rt,
        gate,
        workers: words.workers,
    };
    let call = move |alloc: Global, state: &mut State, feeds: &mut [Feed], sources: &mut [S], most: u64| -> Taken
        requires workers { 1 ≤ by.workers }
        requires paired { length sources.old ≡ length feeds.old }
        requires going { AreGoing state.old.counts.taken feeds.old }
        ensures { EndsRound at_once S.tells S.left S.faults most feeds.old feeds.new sources.old sources.new state.old state.new result }
    { round_threaded(&by, alloc, state, feeds, sources, most) };
    let order = AtOnce { call };
    run_replay(&order, alloc, &words.run, outside)
}
