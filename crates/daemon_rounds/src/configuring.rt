//! What a session runs from now on.

ghost use Rattle.std.specs.Prelude.{◌≡◌, ◌≤◌, IfOk, OnOk, OnErr};
ghost use Rattle.osq_value.specs.declared.moment.TheConstants.{LAST_MOMENT};
ghost use Rattle.osq_config.specs.Bounds.{IsBounded};
ghost use Rattle.daemon_rounds.specs.Configuring.{Configures, found_now};

use osq_config::Config;
use osq_value::{Copied, NoMemory, TextList};
use pack_rules::Host;
use query_answers::{found_packs, schedule_for};
use session_state::State;
use std::alloc::Global;

/// Which packs are meant for the host: each whose discovery finds something in the tables at this moment, where no event is seen.
pub fn discover(
    alloc: Global,
    state: &State,
    config: &Config,
    moment: u64,
) -> Result<Vec<bool>, NoMemory>
    requires { moment ≤ LAST_MOMENT }
    ensures { IfOk result (λ found. found.items ≡ found_now config.now state.now moment) }
{
    let view = state.tables_view(alloc, moment)?;
    found_packs(alloc, config, &view)
}

/// Runs the schedule that the configuration gives the host from this moment on, which isn't before the last one. Discovery sees the tables
/// at that moment, and no event. The documents are those that the configuration was read from.
pub fn configure(
    alloc: Global,
    state: &mut State,
    config: &Config,
    documents: &TextList,
    host: &Host,
    moment: u64,
) -> Result<(), NoMemory>
    requires bounded { IsBounded config.now }
    requires later { state.old.counts.moment ≤ moment }
    requires calendar { moment ≤ LAST_MOMENT }
    ensures configured { OnOk result (Configures config.now documents.now host.now moment state.old state.new) }
    ensures err { OnErr result (state.new ≡ state.old) }
{
    state.is_state();
    let view = state.tables_view(alloc, moment)?;
    let schedule = schedule_for(alloc, config, host, &view)?;
    let documents = documents.copy(alloc)?;
    match state.configure(alloc, documents, schedule, moment) {
        Ok(()) => Ok(()),
        Err(NoMemory) => Err(NoMemory),
    }
}
