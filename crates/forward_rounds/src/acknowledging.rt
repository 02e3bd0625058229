//! Batches are acknowledged.

ghost use Rattle.std.specs.Prelude.{◌≡◌, ℕ, [], true, map, OnOk};
ghost use Rattle.entry_model.specs.declared.entry.Entry.TheVariants.{Acked};
ghost use Rattle.entry_model.specs.Views.{is_evented_table};
ghost use Rattle.session_state.specs.Ticks.{first_due, owed_at};
ghost use Rattle.daemon_rounds.specs.Adding.{AddsEntries};
ghost use Rattle.daemon_rounds.specs.Telling.{AreTellable};
ghost use Rattle.forward_rounds.specs.Forwarding.{AreBeyond};

use osq_value::NoMemory;
use session_state::State;

/// Adds an acknowledgement for each of these marks, in order, to a state whose entries are all sealed. Each mark passes the one before, and no batch
/// that there isn't. They go into the next seal; what keeps a tick from beginning is as before.
///
/// Where memory is wanting, the first of them may have been added.
pub fn acknowledge_each(state: &mut State, marks: &[u64]) -> Result<(), NoMemory>
    requires beyond { AreBeyond state.old.counts.acked state.old.counts.batches marks.now }
    requires sealed { state.old.tail ≡ [] }
    ensures added { OnOk result (AddsEntries state.old (map Acked marks.now) state.new) }
    ensures image { OnOk result (state.new.image ≡ state.old.image) }
    ensures due { OnOk result (first_due state.new ≡ first_due state.old) }
    ensures owed { OnOk result ((table : ℕ) → is_evented_table table ≡ true → owed_at state.new table ≡ owed_at state.old table) }
    ensures tellable { OnOk result (AreTellable state.new.tail) }
    ensures claims { state.new.claims ≡ state.old.claims }
{
    for mark in marks {
        if !state.acknowledge(*mark)? {
            unreachable!();
        }
    }
    Ok(())
}
