//! Which packs of a configuration are meant for a host, by what their discovery finds in its tables.

ghost use Rattle.std.specs.Prelude.{◌≡◌, map, IfOk};
ghost use Rattle.std.specs.List.{list_all};
ghost use Rattle.pack_rules.specs.Schedules.{IsScheduleOf};
ghost use Rattle.query_answers.specs.Discovery.{gives_rows, is_found};

use crate::text::answer;
use osq_config::Config;
use osq_value::{NoMemory, Str, Tables};
use pack_rules::schedule::Schedule;
use pack_rules::{Host, schedule_of};
use std::alloc::Global;

/// Whether the text is accepted and means at least one row over the view.
fn gives_rows<V: Tables>(alloc: Global, text: &str, view: &V) -> Result<bool, NoMemory>
    ensures { IfOk result (λ gives. gives ≡ gives_rows (V.rows_of view.now) text.now) }
{
    match answer(alloc, text, view)? {
        None => Ok(false),
        Some(rows) => Ok(rows.len() > 0),
    }
}

/// Whether each of the texts gives a row. The first that gives none is the last that is asked.
fn all_give_rows<V: Tables>(alloc: Global, texts: &[Str], view: &V) -> Result<bool, NoMemory>
    ensures { IfOk result (λ all. all ≡ list_all (gives_rows (V.rows_of view.now)) texts.now) }
{
    for text in texts {
        if !gives_rows(alloc, text.as_str(), view)? {
            return Ok(false);
        }
    }
    Ok(true)
}

/// One truth value for each pack, in the configuration's order: whether each of its discovery texts is accepted and means at least one row
/// over the view. A pack without discovery is found.
pub fn found_packs<V: Tables>(
    alloc: Global,
    config: &Config,
    view: &V,
) -> Result<Vec<bool>, NoMemory>
    ensures { IfOk result (λ found. found.items ≡ map (is_found (V.rows_of view.now)) config.now.packs) }
{
    let mut found = Vec::new(alloc);
    for pack in config.packs.as_slice() {
        found.push(all_give_rows(alloc, pack.discovery.as_slice(), view)?)?;
    }
    Ok(found)
}

/// The schedule that the configuration gives the host, a pack being found by what its discovery texts mean over the view.
pub fn schedule_for<V: Tables>(
    alloc: Global,
    config: &Config,
    host: &Host,
    view: &V,
) -> Result<Schedule, NoMemory>
    ensures { IfOk result (IsScheduleOf config.now host.now (map (is_found (V.rows_of view.now)) config.now.packs)) }
{
    let found = found_packs(alloc, config, view)?;
    schedule_of(alloc, config, host, found.as_slice())
}
