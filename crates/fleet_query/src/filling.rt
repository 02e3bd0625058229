//! The rows of the tables that a query names, and what the query answers over them.

ghost use Rattle.std.specs.Prelude.{◌≡◌, ◌<◌, ℕ, IfOk, map, option_map, true};
ghost use Rattle.std.specs.List.{range_with_len};
ghost use Rattle.sql_meaning.specs.Meaning.{meaning_of};
ghost use Rattle.sql_query.specs.Answers.{is_among};
ghost use Rattle.sql_query.specs.Resolved.{query_of};
ghost use Rattle.fleet_query.specs.Filled.{rows_in};
ghost use Rattle.fleet_query.specs.Wanted.{is_wanted, wanted_rows};
ghost use Rattle.fleet_query.specs.Tables.{TABLES, fleet_derived, fleet_view, shown_lasts};

use crate::columns::derived_by;
use crate::names::last_frames;
use crate::tables::rows_at;
use crate::view::FleetTables;
use batch_frames::Frame;
use osq_value::{NoMemory, RowList, Sequence, TableId};
use sql_planner::{plan_of, run_plan};
use sql_query::answers::names_table;
use sql_query::derived::FIRST_DERIVED;
use sql_query::query::Query;
use std::alloc::Global;

/// The most tables of a host: its batches, their values, and those of its queries.
const TABLES: u8 = 92;

/// The rows of a query over the tables of a host's frames, by its meaning over `fleet_view`. Only the tables that it names are filled, and
/// they are gone when it answers.
///
/// ```
/// let derived = derived_of(alloc, frames)?;
/// let query = query_with(alloc, "SELECT COUNT(*) AS n FROM batches", derived.as_slice())?;
/// let rows = rows_of_fleet(alloc, frames, &query)?;
/// rows.len()                // 1: the row of the number of frames
/// ```
pub fn rows_of_fleet(alloc: Global, frames: &[Frame], query: &Query) -> Result<RowList, NoMemory>
    ensures { IfOk result (λ rows. rows ≡ meaning_of (query_of query.now) (fleet_view frames.now)) }
{
    let tables = filled(alloc, frames, query)?;
    rows_over(alloc, query, &tables)
}

/// The rows of a query over filled tables.
fn rows_over(alloc: Global, query: &Query, tables: &FleetTables) -> Result<RowList, NoMemory>
    ensures { IfOk result (λ rows. rows ≡ meaning_of (query_of query.now) (rows_in tables.now)) }
{
    let plan = plan_of(alloc, query)?;
    run_plan(alloc, &plan, tables)
}

/// The tables of a host's frames, with the rows of those that a query names.
pub fn filled(alloc: Global, frames: &[Frame], query: &Query) -> Result<FleetTables, NoMemory>
    ensures derived { IfOk result (λ tables. tables.derived ≡ fleet_derived frames.now) }
    ensures rows { IfOk result (λ tables. (table : ℕ) → is_among table (query_of query.now).sources ≡ true → rows_in tables table ≡ fleet_view frames.now table) }
{
    filled_for(alloc, frames, Some(query))
}

/// The tables of a host's frames, with the rows of each.
pub(crate) fn all_filled(alloc: Global, frames: &[Frame]) -> Result<FleetTables, NoMemory>
    ensures derived { IfOk result (λ tables. tables.derived ≡ fleet_derived frames.now) }
    ensures rows { IfOk result (λ tables. (table : ℕ) → rows_in tables table ≡ fleet_view frames.now table) }
{
    filled_for(alloc, frames, None)
}

/// The tables of a host's frames, with the rows of those that a query names, or of each where there is no query.
#[tactic(auto, unfolding(crate::specs::Tables::fleet_derived))]
fn filled_for(
    alloc: Global,
    frames: &[Frame],
    query: Option<&Query>,
) -> Result<FleetTables, NoMemory>
    ensures derived { IfOk result (λ tables. tables.derived ≡ fleet_derived frames.now) }
    ensures rows { IfOk result (λ tables. tables.rows ≡ map (wanted_rows (option_map (λ query. query_of query.now) query.entry) frames.now) (range_with_len 0 TABLES)) }
{
    let lasts = last_frames(alloc, frames)?;
    let lasts = lasts.as_slice();
    Ok(FleetTables {
        derived: derived_by(alloc, lasts)?,
        rows: wanted_rows(alloc, frames, lasts, query)?,
    })
}

/// The rows of each table that is wanted, and none of the others.
fn wanted_rows(
    alloc: Global,
    frames: &[Frame],
    lasts: &[&Frame],
    query: Option<&Query>,
) -> Result<Sequence<RowList>, NoMemory>
    requires { map (λ last. last.now) lasts.now ≡ shown_lasts frames.now }
    ensures { IfOk result (λ tables. tables ≡ map (wanted_rows (option_map (λ query. query_of query.now) query.entry) frames.now) (range_with_len 0 TABLES)) }
{
    let mut tables = Sequence::with_capacity(alloc, TABLES as usize)?;
    for place in 0..TABLES {
        tables.push(rows_if_wanted(alloc, frames, lasts, query, place)?)?;
    }
    Ok(tables)
}

/// The rows of the table at a place, where it is wanted.
fn rows_if_wanted(
    alloc: Global,
    frames: &[Frame],
    lasts: &[&Frame],
    query: Option<&Query>,
    place: u8,
) -> Result<RowList, NoMemory>
    requires place { place < TABLES }
    requires lasts { map (λ last. last.now) lasts.now ≡ shown_lasts frames.now }
    ensures { IfOk result (λ rows. rows ≡ wanted_rows (option_map (λ query. query_of query.now) query.entry) frames.now place) }
{
    if is_wanted(query, TableId(FIRST_DERIVED + place)) {
        rows_at(alloc, frames, lasts, place as usize)
    } else {
        Ok(RowList::new(alloc))
    }
}

/// Whether the query names a table; each is wanted where there is no query.
fn is_wanted(query: Option<&Query>, table: TableId) -> bool
    ensures { result ≡ is_wanted (option_map (λ query. query_of query.now) query.entry) table.0 }
{
    match query {
        None => true,
        Some(query) => names_table(query, table),
    }
}
