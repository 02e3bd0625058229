//! The flag `--explain` of `query`: the text that shows the plan of a query.

ghost use Rattle.std.specs.Prelude.{◌≡◌, ℕ, List, [], ◌∷◌, IfOk};
ghost use Rattle.osq_program.specs.Answers.{IsUsageStatus};
ghost use Rattle.osq_program.specs.Explaining.{IsExplain};
ghost use Rattle.osq_program.specs.Telling.{TellsAlone};
ghost use Rattle.sql_query.specs.Resolved.{query_of};
ghost use Rattle.sql_planner.specs.Explained.{explained};
ghost use Rattle.sql_planner.specs.Plans.{planned};

use crate::outside::{Observes, Outside};
use crate::query::asked;
use crate::status::Status;
use crate::stop::{refuse, starve};
use batch_forwarder::Link;
use batch_keeper::Keeper;
use osq_outside::{Clock, Files, Sink, Source, write_all};
use osq_value::{Bytes, NoMemory};
use sql_planner::plan_of;
use sql_query::query::Query;
use std::alloc::Global;

/// The text that shows the plan of a query.
fn shown(alloc: Global, query: &Query) -> Result<Bytes, NoMemory>
    ensures { IfOk result (λ text. text ≡ explained (planned (query_of query.now))) }
{
    let plan = plan_of(alloc, query)?;
    sql_planner::explain(alloc, &plan)
}

/// Writes the plan of the text's query, and tells on the status stream why it doesn't. It reads nothing.
pub(crate) fn run_explain<S: Source, O: Sink, F: Files, C: Clock, K: Keeper, L: Link>(
    alloc: Global,
    text: &str,
    outside: &mut Outside<S, O, F, C, K, L>,
) -> Status
    ensures usage { ¬ IsUsageStatus result }
    ensures unread { outside.new ≡ record outside.old { results = outside.new.results; status = outside.new.status } }
    ensures does { IsExplain (record { text = text.now }) (⟦<Outside<S, O, F, C, K, L> as Observes>⟧.observed outside.old outside.new) result }
    ensures told { TellsAlone (⟦<Outside<S, O, F, C, K, L> as Observes>⟧.observed outside.old outside.new) result }
{
    let query = match asked(alloc, text) {
        Ok(query) => query,
        Err(status) => return refuse(alloc, &mut outside.status, status),
    };
    let Ok(shown) = shown(alloc, &query) else {
        return starve(&mut outside.status);
    };
    match write_all(&mut outside.results, shown.as_slice()) {
        Ok(()) => Status::Ok,
        Err(_) => refuse(alloc, &mut outside.status, Status::SinkFault),
    }
}
