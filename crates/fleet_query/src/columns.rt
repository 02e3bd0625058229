//! The derived tables of a host's frames: their names and their columns.

ghost use Rattle.std.specs.Prelude.{◌≡◌, ◌≤◌, ◌++◌, All, IfOk, OnOk, codes, length, map};
ghost use Rattle.fleet_query.specs.Tables.{any, batch_columns, cell_columns, column, derived_by, fleet_derived, query_table, table};

use crate::names::last_frames;
use batch_frames::Frame;
use osq_value::{Affinity, Copied, NoMemory, Str};
use sql_query::derived::{Derived, DerivedList};
use sql_query::query::{SourceColumn, SourceColumnList};
use std::alloc::Global;

/// The most columns of a table.
const MOST_COLUMNS: usize = 32767;

const INTEGER: Option<Affinity> = Some(Affinity::Integer);

const TEXT: Option<Affinity> = Some(Affinity::Text);

/// The derived tables of a host's frames, in the order of their numbers: `batches`, `batch_rows`, and a table for each of the first ninety
/// names of queries in byte order. They have their names and columns alone, and no row.
///
/// A table of more than 32767 columns is want of memory.
#[tactic(auto, unfolding(crate::specs::Tables::fleet_derived))]
pub fn derived_of(alloc: Global, frames: &[Frame]) -> Result<DerivedList, NoMemory>
    ensures derived { IfOk result (λ derived. derived ≡ fleet_derived frames.now) }
    ensures few { IfOk result (λ derived. length derived ≤ 100) }
    ensures narrow { IfOk result (λ derived. All (λ shown. length shown.columns ≤ 32767) derived) }
{
    let lasts = last_frames(alloc, frames)?;
    derived_by(alloc, lasts.as_slice())
}

/// The same by the last frame of each query that has a table.
pub(crate) fn derived_by(alloc: Global, lasts: &[&Frame]) -> Result<DerivedList, NoMemory>
    ensures derived { IfOk result (λ derived. derived ≡ derived_by (map (λ last. last.now) lasts.now)) }
    ensures narrow { IfOk result (λ derived. All (λ shown. length shown.columns ≤ 32767) derived) }
{
    let mut derived = DerivedList::new(alloc);
    derived.push(batches(alloc)?)?;
    derived.push(batch_rows(alloc)?)?;
    push_queries(alloc, &mut derived, lasts)?;
    Ok(derived)
}

/// Adds the table of each query, by its last frame.
fn push_queries(alloc: Global, derived: &mut DerivedList, lasts: &[&Frame]) -> Result<(), NoMemory>
    requires { All (λ shown. length shown.columns ≤ 32767) derived.old }
    ensures derived { OnOk result (derived.new ≡ derived.old ++ map query_table (map (λ last. last.now) lasts.now)) }
    ensures narrow { OnOk result (All (λ shown. length shown.columns ≤ 32767) derived.new) }
{
    for last in lasts {
        derived.push(query_table(alloc, last)?)?;
    }
    Ok(())
}

/// The table of batches.
fn batches(alloc: Global) -> Result<Derived, NoMemory>
    ensures { IfOk result (λ made. made ≡ table (codes "batches") batch_columns) }
{
    let columns = columns(
        alloc,
        &[
            ("number", INTEGER),
            ("name", TEXT),
            ("mode", TEXT),
            ("lo", INTEGER),
            ("hi", INTEGER),
            ("moment", INTEGER),
            ("rows", INTEGER),
        ],
    )?;
    Ok(Derived {
        name: Str::of(alloc, "batches")?,
        columns,
    })
}

/// The table of the batches' values.
fn batch_rows(alloc: Global) -> Result<Derived, NoMemory>
    ensures { IfOk result (λ made. made ≡ table (codes "batch_rows") cell_columns) }
{
    let columns = columns(
        alloc,
        &[
            ("number", INTEGER),
            ("name", TEXT),
            ("row", INTEGER),
            ("column_name", TEXT),
            ("value", None),
        ],
    )?;
    Ok(Derived {
        name: Str::of(alloc, "batch_rows")?,
        columns,
    })
}

/// The table of a query, by its last frame. The query's own columns have no affinity.
fn query_table(alloc: Global, last: &Frame) -> Result<Derived, NoMemory>
    ensures table { IfOk result (λ made. made ≡ query_table last.now) }
    ensures narrow { IfOk result (λ shown. length shown.columns ≤ 32767) }
{
    let mut columns = columns(alloc, &[("batch_number", INTEGER), ("moment", INTEGER)])?;
    push_names(alloc, &mut columns, last.names.as_slice())?;
    if columns.len() > MOST_COLUMNS {
        return Err(NoMemory);
    }
    Ok(Derived {
        name: last.batch.query.name.copy(alloc)?,
        columns,
    })
}

/// Adds columns of these names, which have no affinity. No column behind the last that a table may have is looked at.
fn push_names(alloc: Global, columns: &mut SourceColumnList, names: &[Str]) -> Result<(), NoMemory>
    ensures { OnOk result (columns.new ≡ columns.old ++ map any names.now) }
{
    if names.len() > MOST_COLUMNS {
        return Err(NoMemory);
    }
    for name in names {
        columns.push(column(alloc, name.as_str(), None)?)?;
    }
    Ok(())
}

/// Columns by their names and affinities.
fn columns(
    alloc: Global,
    described: &[(&str, Option<Affinity>)],
) -> Result<SourceColumnList, NoMemory>
    ensures { IfOk result (λ columns. columns ≡ map (λ described. column described.0.now described.1) described.now) }
{
    let mut columns = SourceColumnList::with_capacity(alloc, described.len())?;
    for (name, affinity) in described {
        columns.push(column(alloc, name, *affinity)?)?;
    }
    Ok(columns)
}

/// A column that `*` writes.
fn column(alloc: Global, name: &str, affinity: Option<Affinity>) -> Result<SourceColumn, NoMemory>
    ensures { IfOk result (λ made. made ≡ column name.now affinity) }
{
    Ok(SourceColumn {
        name: Str::of(alloc, name)?,
        affinity,
        hidden: false,
    })
}
