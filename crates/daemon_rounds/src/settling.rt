//! What is too old, or too much, expires at the end of a tick.

ghost use Rattle.std.specs.Prelude.{◌≡◌, ℕ, true, None, OnOk, OnErr};
ghost use Rattle.entry_model.specs.Views.{is_evented_table};
ghost use Rattle.session_state.specs.Expiries.{expiries};
ghost use Rattle.session_state.specs.Ticks.{first_due, owed_at};
ghost use Rattle.daemon_rounds.specs.Adding.{AddsEntries};

use osq_value::NoMemory;
use session_state::State;

/// Expires what the state owes: an entry for each such evented table, in the order of the catalogue. Behind them no floor is owed.
pub fn settle(state: &mut State) -> Result<(), NoMemory>
    ensures expired { OnOk result (AddsEntries state.old (expiries state.old) state.new) }
    ensures settled { OnOk result ((table : ℕ) → is_evented_table table ≡ true → owed_at state.new table ≡ None) }
    ensures due { OnOk result (first_due state.new ≡ first_due state.old) }
    ensures err { OnErr result (state.new ≡ state.old) }
{
    state.is_state();
    state.expire()?;
    Ok(())
}
