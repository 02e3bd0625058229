//! The rows of a query over all that a state shows.

ghost use Rattle.std.specs.Prelude.{◌≡◌, ◌≤◌, IfOk};
ghost use Rattle.osq_value.specs.declared.moment.TheConstants.{LAST_MOMENT};
ghost use Rattle.sql_meaning.specs.Meaning.{meaning_of};
ghost use Rattle.sql_query.specs.Resolved.{query_of};
ghost use Rattle.event_store.specs.Contents.{rows_in};
ghost use Rattle.session_state.specs.Computed.{shown_by};
ghost use Rattle.kept_queries.specs.Asking.{MeansBehind};

use osq_value::{NoMemory, RowList};
use session_state::{State, laws};
use sql_planner::{plan_of, run_plan};
use sql_query::query::Query;
use std::alloc::Global;

/// The rows of a query over what the state shows of all live events and of the tables, at this moment.
fn rows_shown(alloc: Global, query: &Query, state: &State, moment: u64) -> Result<RowList, NoMemory>
    requires calendar { moment ≤ LAST_MOMENT }
    ensures { IfOk result (λ rows. rows ≡ meaning_of (query_of query.now) (rows_in (shown_by state.now 0 moment))) }
{
    let view = state.view_above(alloc, 0, moment)?;
    let plan = plan_of(alloc, query)?;
    run_plan(alloc, &plan, &view)
}

/// The rows that a query means over all live events and the tables of each list for which the state stands, at this moment in seconds
/// since 1970. The moment is at most the greatest of the calendar. It wants memory for the plan, the view and the rows.
pub fn rows_behind(
    alloc: Global,
    query: &Query,
    state: &State,
    moment: u64,
) -> Result<RowList, NoMemory>
    requires calendar { moment ≤ LAST_MOMENT }
    ensures means { IfOk result (λ rows. MeansBehind state.now (query_of query.now) moment rows) }
{
    laws::shows();
    state.is_state();
    rows_shown(alloc, query, state, moment)
}
