//! The laws of sessions in any order.

ghost use Rattle.session_model.specs.Laws.{Forgets, StayDone};

use osq_outside::Source;

/// A session of one thread is a session in some order, over sources of each type.
pub fn forgets<S: Source>()
    ensures { Forgets S.tells }
{}

/// Where no query is due, none becomes due within a tick: so what one worker has seen at its end holds of the whole tick.
pub fn stay_done()
    ensures { StayDone }
{}
