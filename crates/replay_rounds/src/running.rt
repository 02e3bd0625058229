//! A whole session.

ghost use Rattle.std.specs.Prelude.{◌≡◌, ◌<◌, ◌≤◌, ◌⊎◌, ℕ, true, false, length, bytes_eq, [], ◌∷◌, ◌++◌, List, Some, Err, IfOk, IfErr, OnOk};
ghost use Rattle.osq_value.specs.declared.moment.TheConstants.{LAST_MOMENT};
ghost use Rattle.config_files.specs.Configurations.{IsConfigOf};
ghost use Rattle.osq_config.specs.Bounds.{IsBounded};
ghost use Rattle.osq_outside.specs.Causes.{Rose};
ghost use Rattle.entry_model.specs.Fits.{Fits, IsDistinct};
ghost use Rattle.entry_model.specs.Legal.{Legal};
ghost use Rattle.entry_model.specs.Summary.{summary};
ghost use Rattle.session_state.specs.Kept.{IsState};
ghost use Rattle.batch_frames.specs.Valid.{is_host};
ghost use Rattle.forward_rounds.specs.Forwarding.{view_of};
ghost use Rattle.daemon_rounds.specs.Moments.{IsRead};
ghost use Rattle.daemon_rounds.specs.Rounding.{FailsAt};
ghost use Rattle.daemon_rounds.specs.Starting.{source_names};
ghost use Rattle.replay_rounds.specs.Called.{HasSealedOf, HasStoppedOf};
ghost use Rattle.replay_rounds.specs.Fixed.{fixed_of};
ghost use Rattle.replay_rounds.specs.Noting.{HasTold, HasToldSome, IsBetween, IsGrown, IsNotedAt, skipped_lines};
ghost use Rattle.replay_rounds.specs.Refusals.{numbers_of};
ghost use Rattle.replay_rounds.specs.Running.{HasRun, IsKept, IsWritten, ReadsAll, run_of};
ghost use Rattle.replay_rounds.specs.Sources.{all_over};
ghost use Rattle.replay_rounds.specs.Spent.{RanOutOfNumbers};
ghost use Rattle.replay_rounds.specs.Stopping.{HasShrunkFor, IsBehindLoading, Stops};
ghost use Rattle.replay_rounds.specs.declared.refused.Refused.{Refused};
ghost use Rattle.replay_rounds.specs.declared.refused.RunError.{RunError};

use crate::basis::Basis;
use crate::linking::{forward_last, forward_sealed};
use crate::loading::load_values;
use crate::noting::{note_again, told, write_skipped};
use crate::opening::open_noted;
use crate::refused::{Numbers, Refused, RunError, numbers_in, numbers_of, unloaded, unnoted};
use crate::ticking::{Tick, take_next, take_tick};
use batch_forwarder::Link;
use batch_keeper::Keeper;
use daemon_rounds::{MomentTooLarge, TakesRound, asks_again, read_moment};
use entry_model::laws;
use osq_outside::{Clock, Sink, Source};
use session_state::State;
use source_feeds::Feed;
use std::alloc::Global;

/// A session that ran all its ticks.
#[derive(Clone, Copy)]
pub struct Ended {
    /// Every source was read to its end.
    pub is_end: bool,
    /// Those of the kept list behind it.
    pub numbers: Numbers,
}

/// The moment of the next tick: the clock is read once, and it is its reading, or the last moment, whichever is later. Where the session, which
/// was configured last at `configured_at`, is to be configured again at that moment, what is then to be told is written.
fn next_moment<C: Clock, O: Sink>(
    basis: &Basis,
    clock: &mut C,
    state: &State,
    status: &mut O,
    configured_at: u64,
) -> Result<u64, Refused>
    requires { configured_at ≤ state.now.counts.moment }
    ensures is { IsState state.now }
    ensures read { IfOk result (λ moment. IsRead C.reads clock.old clock.new state.now.counts.moment moment) }
    ensures once { (reading : ℕ) × C.reads clock.old reading clock.new }
    ensures noted { O.tells → IfOk result (λ moment. IsNotedAt basis.now configured_at moment state.now (O.written status.old) (O.written status.new)) }
    ensures cause { IfErr result (λ refused. IsBetween (λ moment. C.reads clock.old moment clock.new × (LAST_MOMENT < moment)) (Rose (O.faults status.old) (O.faults status.new)) refused.error) }
    ensures numbers { IfErr result (λ refused. refused.numbers ≡ Some (numbers_of state.now)) }
    ensures untold { O.tells → IfErr result (λ refused. (O.written status.new ≡ O.written status.old) ⊎ Rose (O.faults status.old) (O.faults status.new)) }
    ensures grown { O.tells → IsGrown (O.written status.old) (O.written status.new) }
    ensures later { O.faults status.old ≤ O.faults status.new }
{
    state.is_state();
    let numbers = numbers_of(state);
    let moment = match read_moment(clock, state.moment()) {
        Ok(moment) => moment,
        Err(MomentTooLarge { moment }) => {
            return Err(Refused {
                error: RunError::MomentTooLarge { moment },
                numbers: Some(numbers),
            });
        }
    };
    if !asks_again(&basis.configured.config, configured_at, moment) {
        return Ok(moment);
    }
    match note_again(basis, state, status, moment) {
        Ok(()) => Ok(moment),
        Err(error) => Err(unnoted(error, numbers)),
    }
}

/// Every source was read to its end.
pub fn all_over(feeds: &[Feed]) -> bool
    ensures { result ≡ all_over feeds.now }
{
    feeds.iter().all(|feed| feed.at_end())
}

/// What a session leaves that ran all its ticks. A line is written for each source of which lines were skipped.
fn end_session<O: Sink>(
    alloc: Global,
    state: &State,
    feeds: &[Feed],
    status: &mut O,
) -> Result<Ended, Refused>
    ensures is_end { IfOk result (λ ended. ended.is_end ≡ all_over feeds.now) }
    ensures numbers { IfOk result (λ ended. ended.numbers ≡ numbers_of state.now) }
    ensures skipped { O.tells → IfOk result (λ ended. O.written status.new ≡ O.written status.old ++ skipped_lines feeds.now) }
    ensures cause { IfErr result (λ refused. IsBetween (λ moment. ⊥) (Rose (O.faults status.old) (O.faults status.new)) refused.error) }
    ensures stopped { IfErr result (λ refused. refused.numbers ≡ Some (numbers_of state.now)) }
    ensures untold { O.tells → IfErr result (λ refused. (O.written status.new ≡ O.written status.old) ⊎ Rose (O.faults status.old) (O.faults status.new)) }
    ensures grown { O.tells → IsGrown (O.written status.old) (O.written status.new) }
    ensures later { O.faults status.old ≤ O.faults status.new }
{
    let numbers = numbers_of(state);
    match write_skipped(alloc, feeds, status) {
        Ok(()) => Ok(Ended {
            is_end: all_over(feeds),
            numbers,
        }),
        Err(error) => Err(unnoted(error, numbers)),
    }
}

/// Runs a whole session behind the keeper's list: it is loaded, the session opens, and all ticks are run in this order, each of which is sealed by itself
/// and then told. Behind each it forwards what is sealed through the link, where its setup says so; what the answers acknowledge goes into the next seal, and
/// behind the last tick into one of its own. No two sources have one name. On the status stream it tells of each configuration, and at the end of
/// skipped lines.
/// The error of a refusal is one of the causes that `RunError` lists, with the numbers of the kept list where it was loaded.
pub fn run_session<T: TakesRound<S>, S: Source, K: Keeper, O: Sink, C: Clock, L: Link>(
    order: &T,
    basis: &Basis,
    clock: &mut C,
    sources: &mut [S],
    keeper: &mut K,
    results: &mut O,
    status: &mut O,
    link: &mut L,
) -> Result<Ended, Refused>
    requires takes { T.takes order.now }
    requires configuration { IsConfigOf basis.now.configured.documents basis.now.configured.config basis.now.configured.notes }
    requires bounded { IsBounded basis.now.configured.config }
    requires paired { length sources.old ≡ length basis.now.setup.sources }
    requires distinct { IsDistinct bytes_eq (source_names basis.now.setup.sources) }
    requires ticks { 1 ≤ basis.now.setup.ticks }
    requires host { basis.now.setup.forward ≡ true → is_host basis.now.setup.host.identifier ≡ true }
    ensures done { IfOk result (λ ended. HasRun (run_of T.order K.Keeper O.Sink S.Source L.Link C.Clock basis.now sources.old keeper.old results.old link.old clock.old clock.new) basis.now.setup.ticks (K.kept keeper.new) (O.written results.new) (view_of L.Link link.new) ended) }
    ensures sealed { K.counts → basis.now.setup.forward ≡ false → OnOk result (HasSealedOf K.Keeper keeper.old keeper.new basis.now.setup.ticks) }
    ensures failed { K.counts → basis.now.setup.forward ≡ false → (refused : Refused) → result ≡ Err refused → refused.error ≡ RunError.KeeperFault → HasStoppedOf K.Keeper keeper.old keeper.new basis.now.setup.ticks }
    ensures fit { K.tells → IfOk result (λ ended. Fits (summary (K.kept keeper.old))) }
    ensures fit_behind { K.tells → IfErr result (λ refused. IsBehindLoading refused.error → Fits (summary (K.kept keeper.old))) }
    ensures unfit { K.tells → IfErr result (λ refused. refused.error ≡ RunError.KeeperRefused → K.kept keeper.new ≡ K.kept keeper.old) }
    ensures stops { IfErr result (λ refused. Stops (run_of T.order K.Keeper O.Sink S.Source L.Link C.Clock basis.now sources.old keeper.old results.old link.old clock.old clock.new) (K.kept keeper.new) (status.new ≡ status.old) refused.error refused.numbers) }
    ensures kept { K.tells → IsKept (run_of T.order K.Keeper O.Sink S.Source L.Link C.Clock basis.now sources.old keeper.old results.old link.old clock.old clock.new) (K.kept keeper.new) }
    ensures written { O.tells → IsWritten (fixed_of T.order K.Keeper O.Sink S.Source L.Link basis.now sources.old keeper.old results.old link.old) (K.kept keeper.new) (O.written results.new) }
    ensures keeper_cause { (refused : Refused) → result ≡ Err refused → refused.error ≡ RunError.KeeperFault → Rose (K.faults keeper.old) (K.faults keeper.new) }
    ensures refused { K.tells → (refused : Refused) → result ≡ Err refused → refused.error ≡ RunError.KeeperRefused → ¬ Fits (summary (K.kept keeper.old)) }
    ensures illegal { K.tells → (refused : Refused) → result ≡ Err refused → refused.error ≡ RunError.KeeperRefused → ¬ Legal (K.kept keeper.old) }
    ensures moment { (refused : Refused) (moment : ℕ) → result ≡ Err refused → refused.error ≡ RunError.MomentTooLarge moment → (LAST_MOMENT < moment) × ((readings : List ℕ) × ReadsAll C.reads clock.old (readings ++ moment ∷ []) clock.new) }
    ensures fault { (refused : Refused) (place : ℕ) → result ≡ Err refused → refused.error ≡ RunError.SourceFault place → FailsAt S.faults place sources.old sources.new }
    ensures shrank { (refused : Refused) (place kept found : ℕ) → result ≡ Err refused → refused.error ≡ RunError.SourceShrank place kept found → HasShrunkFor K.Keeper S.Source basis.now keeper.old place kept found sources.old }
    ensures spent { (refused : Refused) → result ≡ Err refused → refused.error ≡ RunError.NumbersSpent → RanOutOfNumbers (run_of T.order K.Keeper O.Sink S.Source L.Link C.Clock basis.now sources.old keeper.old results.old link.old clock.old clock.new) (K.kept keeper.new) }
    ensures sink_cause { (refused : Refused) → result ≡ Err refused → refused.error ≡ RunError.SinkFault → Rose (O.faults results.old) (O.faults results.new) ⊎ Rose (O.faults status.old) (O.faults status.new) }
    ensures told { O.tells → IfOk result (λ ended. HasTold (fixed_of T.order K.Keeper O.Sink S.Source L.Link basis.now sources.old keeper.old results.old link.old) (K.kept keeper.new) basis.now.configured.notes (O.written status.old) (O.written status.new)) }
    ensures stops_telling { O.tells → IfErr result (λ refused. HasToldSome (fixed_of T.order K.Keeper O.Sink S.Source L.Link basis.now sources.old keeper.old results.old link.old) (K.kept keeper.new) basis.now.configured.notes (O.written status.old) (O.written status.new) ⊎ Rose (O.faults status.old) (O.faults status.new)) }
    ensures notes { O.tells → IsGrown (O.written status.old) (O.written status.new) }
    ensures unlinked { basis.now.setup.forward ≡ false → link.new ≡ link.old }
    ensures link_later { L.faults link.old ≤ L.faults link.new }
    ensures later { (K.faults keeper.old ≤ K.faults keeper.new) × (O.faults results.old ≤ O.faults results.new) × (O.faults status.old ≤ O.faults status.new) }
{
    laws::coverage();
    let restored = match load_values(basis.alloc, keeper) {
        Ok(restored) => restored,
        Err(error) => return Err(unloaded(error)),
    };
    let sealed = numbers_in(&restored);
    let mut session = match open_noted(basis, restored, clock, sources, status) {
        Ok(session) => session,
        Err(refused) => return Err(refused),
    };
    let state = &mut session.state;
    let feeds = session.feeds.as_mut_slice();
    let configured_at = session.configured_at;
    let first = Tick {
        moment: configured_at,
        configured_at,
        sealed,
    };
    let mut last = match take_tick(order, basis, state, feeds, sources, keeper, results, first) {
        Ok(last) => last,
        Err(refused) => {
            let refused = told(basis.alloc, feeds, status, refused);
            // At each end by a call: the drop of a session is dear to prove where it stands among so many loans.
            drop(session);
            return Err(refused);
        }
    };
    for _ in 1..basis.setup.ticks {
        let marks = match forward_sealed(basis, state, keeper, link) {
            Ok(marks) => marks,
            Err(refused) => {
                let refused = told(basis.alloc, feeds, status, refused);
                drop(session);
                return Err(refused);
            }
        };
        let moment = match next_moment(basis, clock, state, status, last) {
            Ok(moment) => moment,
            Err(refused) => {
                let refused = told(basis.alloc, feeds, status, refused);
                drop(session);
                return Err(refused);
            }
        };
        let sealed = numbers_of(state);
        let tick = Tick {
            moment,
            configured_at: last,
            sealed,
        };
        last = match take_next(
            order, basis, state, feeds, sources, keeper, results, &marks, tick,
        ) {
            Ok(last) => last,
            Err(refused) => {
                let refused = told(basis.alloc, feeds, status, refused);
                drop(session);
                return Err(refused);
            }
        };
    }
    match forward_last(basis, state, keeper, link) {
        Ok(()) => {}
        Err(refused) => {
            let refused = told(basis.alloc, feeds, status, refused);
            drop(session);
            return Err(refused);
        }
    }
    state.is_state();
    let ended = end_session(basis.alloc, state, feeds, status);
    drop(session);
    ended
}
