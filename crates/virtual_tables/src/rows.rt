//! The rows of a table that meet constraints.
ghost use Rattle.std.specs.Prelude.{◌≡◌, ◌++◌, IfOk, OnOk, map};
ghost use Rattle.std.specs.List.{filter, list_all};
ghost use Rattle.std.specs.Option.{option_copied, option_to_list};
ghost use Rattle.virtual_tables.specs.Constraints.{meets};
ghost use Rattle.virtual_tables.specs.Tests.{passes};

use crate::constraint::{Constraint, ConstraintList, passes_all, tests};
use osq_value::{NoMemory, Row, Sequence, TableId, Tables};
use std::alloc::Global;

/// Rows that stay where they are.
pub type RowRefs<'a> = Sequence<&'a Row>;

/// The rows of a table for which each constraint is true, in their order. They are lent by the view and not copied.
/// A constraint compares as the operator of SQL does: between a column, which has its affinity, and a literal, which has none.
/// A column beyond the row holds Null.
pub fn scan<'a, V: Tables>(
    alloc: Global,
    view: &'a V,
    table: TableId,
    constraints: &ConstraintList,
) -> Result<RowRefs<'a>, NoMemory>
    ensures { IfOk result (λ rows. map (λ row. row.now) rows ≡ filter (meets table.0 constraints.now) (V.rows_of view.now table.0)) }
{
    let tests = tests(alloc, table, constraints.as_slice())?;
    passing(alloc, view, table, tests.as_slice())
}

/// The rows of a table that pass each test.
fn passing<'a, V: Tables>(
    alloc: Global,
    view: &'a V,
    table: TableId,
    tests: &[Constraint],
) -> Result<RowRefs<'a>, NoMemory>
    ensures { IfOk result (λ rows. map (λ row. row.now) rows ≡ filter (λ row. list_all (passes row) tests.now) (V.rows_of view.now table.0)) }
{
    let mut rows = RowRefs::new(alloc);
    for at in 0..view.count(table) {
        push_passing(&mut rows, view.row(table, at), tests)?;
    }
    Ok(rows)
}

/// Adds a row if it passes each test.
fn push_passing<'a>(
    rows: &mut RowRefs<'a>,
    row: Option<&'a Row>,
    tests: &[Constraint],
) -> Result<(), NoMemory>
    ensures { OnOk result (map (λ row. row.now) rows.new ≡ map (λ row. row.now) rows.old ++ filter (λ row. list_all (passes row) tests.now) (option_to_list (option_copied row.entry))) }
{
    match row {
        None => Ok(()),
        Some(row) => {
            if passes_all(row, tests) {
                rows.push(row)?;
            }
            Ok(())
        }
    }
}
