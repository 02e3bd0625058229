//! The schedule of a configuration on a host.

ghost use Rattle.std.specs.Prelude.{◌≡◌, length, IfOk};
ghost use Rattle.pack_rules.specs.ByName.{IsByName};
ghost use Rattle.pack_rules.specs.Schedules.{IsScheduleOf, form_of};

use crate::host::Host;
use crate::offers::offers_of;
use crate::schedule::{Form, Schedule, ScheduledList};
use osq_config::Config;
use osq_value::NoMemory;
use std::alloc::Global;

/// The queries by name, the first of each name alone. They are moved.
fn by_name(offers: ScheduledList) -> Result<ScheduledList, NoMemory>
    ensures { IfOk result (IsByName offers) }
{
    let mut queries = offers.into_vec();
    queries.sort_by(|left, right| {
        left.key
            .name
            .as_str()
            .as_bytes()
            .cmp(right.key.name.as_str().as_bytes())
    })?;
    queries.dedup_by(|later, earlier| later.key.name.is(&earlier.key.name));
    Ok(ScheduledList::from_vec(queries))
}

fn form_of(is_batch: bool) -> Form
    ensures { result ≡ form_of is_batch }
{
    if is_batch { Form::Batch } else { Form::Event }
}

/// The schedule of a configuration on a host. `found` says of each pack, in byte order of their names, whether its discovery found
/// something. A pack is active where its rules hold and it was found; an entry is taken where its rules hold, its pack, if
/// it has one, is active, and its text has a query. An entry of the schedule is named by its key, one of a pack `pack_`, the
/// pack, `_` and the key. Of equal names the schedule's entry is taken first, then that of the first pack. The
/// queries stand in byte order of their names. A query is evented where it names an evented table and isn't marked as a
/// snapshot.
///
/// ```
/// let host = Host {
///     identifier: Str::of(alloc, "web1")?,
///     platform: Str::of(alloc, "linux")?,
///     agent: Str::of(alloc, "5.10.0")?,
/// };
/// let schedule = schedule_of(alloc, &config, &host, &[])?;   // of a configuration without packs
/// schedule.queries.len()    // how many of its entries hold on that host, and have a query
/// ```
pub fn schedule_of(
    alloc: Global,
    config: &Config,
    host: &Host,
    found: &[bool],
) -> Result<Schedule, NoMemory>
    requires { length found.now ≡ length config.now.packs }
    ensures { IfOk result (IsScheduleOf config.now host.now found.now) }
{
    let offers = offers_of(alloc, config, host, found)?;
    Ok(Schedule {
        queries: by_name(offers)?,
        events_expiry: config.events_expiry,
        events_max: config.events_max,
        form: form_of(config.is_batch_form),
    })
}
