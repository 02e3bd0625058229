//! When a query is due.

ghost use Rattle.std.specs.Prelude.{◌≡◌, option_copied};
ghost use Rattle.query_cursors.specs.Due.{is_due};

use entry_model::restored::Run;
use pack_rules::schedule::Scheduled;

/// The query has no run, or its interval has passed since the last one.
pub fn due(scheduled: &Scheduled, run: Option<&Run>, moment: u64) -> bool
    ensures { result ≡ is_due scheduled.now (option_copied run.entry) moment }
{
    match run {
        None => true,
        Some(run) => u128::from(run.moment) + u128::from(scheduled.interval) <= u128::from(moment),
    }
}
