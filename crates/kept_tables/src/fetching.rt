//! The batch that rows of the tables stand for.

ghost use Rattle.std.specs.Prelude.{◌≡◌, ◌++◌, IfOk, map};
ghost use Rattle.entry_model.specs.declared.entry.Batch.{Batch as BatchOf};
ghost use Rattle.kept_tables.specs.Fetches.{ShowsBatch, batch_row, is_fetched};
ghost use Rattle.kept_tables.specs.Groups.{joined};
ghost use Rattle.kept_tables.specs.Reads.{Gives};

use crate::counts::Counts;
use crate::error::TableError;
use crate::restoring::{key_of, number_in};
use crate::shown::{Shown, all_of};
use crate::values::list_at;
use entry_model::entry::Batch;
use osq_value::{NoMemory, Row, RowList, Sequence};
use std::alloc::Global;

/// What the statements of `layout` show of the batch of a number.
#[derive(Drop)]
pub struct FoundBatch {
    /// The rows of `BATCH`.
    pub batches: RowList,
    /// The rows of `BATCH_PARTS`.
    pub parts: RowList,
}

/// Some rows of a batch.
#[derive(Drop)]
pub struct BatchPart {
    /// The rows.
    pub rows: RowList,
}

/// A row has some rows of a batch.
impl Shown for BatchPart {
    ghost use Rattle.kept_tables.specs.Fetches.{IsBatchPart, part_row};

    ghost shown = { part_row };

    ghost is_held = { IsBatchPart };

    fn of_row(alloc: Global, row: &Row) -> Result<Self, TableError> {
        let rows = list_at(alloc, row, 0)?;
        Ok(BatchPart { rows })
    }
}

/// The list with these counts has a batch of this number, counted from 1, which is not acknowledged.
pub fn is_fetched(counts: &Counts, number: u64) -> bool
    ensures { result ≡ is_fetched counts.now number }
{
    counts.acked < number && number <= counts.batches
}

/// The batch that these rows show. Rows that show none are refused, or give some batch.
pub fn batch_of(alloc: Global, found: &FoundBatch) -> Result<Batch, TableError>
    ensures { (batch : BatchOf) → ShowsBatch found.now batch → Gives batch result }
{
    let parts: Sequence<BatchPart> = all_of(alloc, &found.parts)?;
    let rows = rows_of(alloc, parts)?;
    match found.batches.get(0) {
        Some(row) => batch_in(alloc, row, rows),
        None => Err(TableError::Unreadable),
    }
}

/// The rows of these parts, one part behind another.
fn rows_of(alloc: Global, parts: Sequence<BatchPart>) -> Result<RowList, NoMemory>
    ensures { IfOk result (λ rows. rows ≡ joined (map (λ part. part.rows) parts)) }
{
    let mut rows = RowList::new(alloc);
    for part in parts.into_vec() {
        rows.append(part.rows)?;
    }
    Ok(rows)
}

/// The batch of this row, with these rows.
fn batch_in(alloc: Global, row: &Row, rows: RowList) -> Result<Batch, TableError>
    ensures { (batch : BatchOf) → row.now ≡ batch_row batch → rows ≡ batch.rows → Gives batch result }
{
    let query = key_of(alloc, row)?;
    let number = number_in(row, 3)?;
    let lo = number_in(row, 4)?;
    let hi = number_in(row, 5)?;
    let cut = number_in(row, 6)?;
    let moment = number_in(row, 7)?;
    Ok(Batch {
        number,
        query,
        lo,
        hi,
        cut,
        moment,
        rows,
    })
}
