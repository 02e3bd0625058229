//! A tick begins.

ghost use Rattle.std.specs.Prelude.{◌≡◌, ◌≤◌, ℕ, true, None, max, [], ◌∷◌, OnOk, OnErr};
ghost use Rattle.osq_value.specs.declared.moment.TheConstants.{LAST_MOMENT};
ghost use Rattle.entry_model.specs.declared.entry.Entry.TheVariants.{Ticked};
ghost use Rattle.entry_model.specs.Views.{is_evented_table};
ghost use Rattle.session_state.specs.Ticks.{first_due, owed_at};
ghost use Rattle.daemon_rounds.specs.Adding.{AddsEntries, AreFree};

use osq_value::NoMemory;
use session_state::{State, TickRefusal};

/// Begins a tick at this moment, or at the last one, whichever is later. No query is due and no event is to expire, so nothing keeps it
/// from beginning.
pub fn begin_tick(state: &mut State, moment: u64) -> Result<(), NoMemory>
    requires calendar { moment ≤ LAST_MOMENT }
    requires answered { first_due state.old ≡ None }
    requires settled { (table : ℕ) → is_evented_table table ≡ true → owed_at state.old table ≡ None }
    ensures ticked { OnOk result (AddsEntries state.old (Ticked (max moment state.old.counts.moment) ∷ []) state.new) }
    ensures free { OnOk result (AreFree state.new.claims) }
    ensures err { OnErr result (state.new ≡ state.old) }
{
    match state.tick(moment) {
        Ok(()) => Ok(()),
        Err(TickRefusal::NoMemory) => Err(NoMemory),
        Err(TickRefusal::StillDue { at: _ }) => unreachable!(),
        Err(TickRefusal::ExpiryOwed { table: _ }) => unreachable!(),
    }
}
