//! A session opens, and what is to be told of its configuration is written.

ghost use Rattle.std.specs.Prelude.{◌≡◌, ◌≢◌, ◌⊎◌, ◌<◌, ◌≤◌, ℕ, length, bytes_eq, Some, Err, IfOk, IfErr};
ghost use Rattle.osq_value.specs.declared.moment.TheConstants.{LAST_MOMENT};
ghost use Rattle.osq_config.specs.Bounds.{IsBounded};
ghost use Rattle.osq_outside.specs.Causes.{Rose};
ghost use Rattle.entry_model.specs.Fits.{Fits, IsDistinct};
ghost use Rattle.daemon_rounds.specs.Opening.{IsFoundBy};
ghost use Rattle.daemon_rounds.specs.Rounding.{AreGoing, FailsAt};
ghost use Rattle.daemon_rounds.specs.Session.{IsOverfull};
ghost use Rattle.daemon_rounds.specs.Starting.{HasShrunk, source_names};
ghost use Rattle.replay_rounds.specs.Noting.{IsGrown, IsNoted, IsOpenBy, TellsOpened, TellsSkipped};
ghost use Rattle.replay_rounds.specs.Refusals.{numbers_in};
ghost use Rattle.replay_rounds.specs.declared.refused.Refused.{Refused};
ghost use Rattle.replay_rounds.specs.declared.refused.RunError.{RunError};

use crate::basis::Basis;
use crate::noting::{told, write_notes};
use crate::refused::{Refused, numbers_in, unnoted, unopened};
use daemon_rounds::{Session, open_session};
use entry_model::restored::Restored;
use osq_outside::{Clock, Sink, Source};
use std::alloc::Global;

/// What a session that was opened is refused with, where what is to be told of its configuration isn't written. The session ends.
fn unwritten<O: Sink>(alloc: Global, session: Session, status: &mut O, refused: Refused) -> Refused
    ensures same { result ≡ refused }
    ensures skipped { O.tells → TellsSkipped session.feeds.items (O.written status.old) (O.written status.new) ⊎ Rose (O.faults status.old) (O.faults status.new) }
    ensures grown { O.tells → IsGrown (O.written status.old) (O.written status.new) }
    ensures later { O.faults status.old ≤ O.faults status.new }
{
    told(alloc, session.feeds.as_slice(), status, refused)
}

/// Opens a session over the values of a kept list, and writes what is to be told of its configuration. No two sources have one name.
pub(crate) fn open_noted<S: Source, C: Clock, O: Sink>(
    basis: &Basis,
    restored: Restored,
    clock: &mut C,
    sources: &mut [S],
    status: &mut O,
) -> Result<Session, Refused>
    requires fits { Fits restored }
    requires bounded { IsBounded basis.now.configured.config }
    requires paired { length sources.old ≡ length basis.now.setup.sources }
    requires distinct { IsDistinct bytes_eq (source_names basis.now.setup.sources) }
    ensures opened { IfOk result (λ session. IsOpenBy S.Source C.Clock basis.now restored clock.old clock.new sources.old sources.new session.configured_at session.feeds.items session.state) }
    ensures going { IfOk result (λ session. AreGoing session.state.counts.taken session.feeds.items) }
    ensures read { (reading : ℕ) × C.reads clock.old reading clock.new }
    ensures loaded { IfErr result (λ refused. (refused.error ≢ RunError.KeeperFault) × (refused.error ≢ RunError.KeeperRefused)) }
    ensures moment { (refused : Refused) (moment : ℕ) → result ≡ Err refused → refused.error ≡ RunError.MomentTooLarge moment → C.reads clock.old moment clock.new × (LAST_MOMENT < moment) }
    ensures fault { (refused : Refused) (place : ℕ) → result ≡ Err refused → refused.error ≡ RunError.SourceFault place → FailsAt S.faults place sources.old sources.new }
    ensures shrank { (refused : Refused) (place kept found : ℕ) → result ≡ Err refused → refused.error ≡ RunError.SourceShrank place kept found → HasShrunk S.tells S.left restored.taken basis.now.setup.sources place kept found sources.old }
    ensures spent { (refused : Refused) → result ≡ Err refused → refused.error ≡ RunError.NumbersSpent → IsOverfull S.tells S.left S.faults basis.now.setup basis.now.configured.config restored sources.old sources.new }
    ensures sink_cause { (refused : Refused) → result ≡ Err refused → refused.error ≡ RunError.SinkFault → Rose (O.faults status.old) (O.faults status.new) }
    ensures found { IfOk result (λ session. IsFoundBy restored basis.now.configured.config session.configured_at session.state session.found.items) }
    ensures noted { O.tells → IfOk result (λ session. IsNoted basis.now.configured.config basis.now.setup.host session.found.items basis.now.configured.notes (O.written status.old) (O.written status.new)) }
    ensures untold { O.tells → IfErr result (λ refused. TellsOpened S.Source C.Clock basis.now restored clock.old clock.new sources.old sources.new (O.written status.old) (O.written status.new) ⊎ Rose (O.faults status.old) (O.faults status.new)) }
    ensures numbers { IfErr result (λ refused. refused.numbers ≡ Some (numbers_in restored)) }
    ensures grown { O.tells → IsGrown (O.written status.old) (O.written status.new) }
    ensures later { O.faults status.old ≤ O.faults status.new }
{
    let kept = numbers_in(&restored);
    let session = match open_session(
        basis.alloc,
        &basis.setup,
        &basis.configured,
        restored,
        clock,
        sources,
    ) {
        Ok(session) => session,
        Err(error) => return Err(unopened(error, kept)),
    };
    match write_notes(basis, session.found.as_slice(), &session.state, status) {
        Ok(()) => Ok(session),
        Err(error) => Err(unwritten(basis.alloc, session, status, unnoted(error, kept))),
    }
}
