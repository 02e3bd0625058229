//! What is asked of a table's rows where they are read.
ghost use Rattle.std.specs.Prelude.{◌≡◌, ℕ, ◌+◌, ◌++◌, ◌∷◌, [], IfOk, IfSome, List, OnOk, Some, map, true};
ghost use Rattle.virtual_tables.specs.Constraints.{affinity_at};
ghost use Rattle.sql_query.specs.Exprs.{ExprTree};
ghost use Rattle.sql_query.specs.Resolved.{source_of};
ghost use Rattle.sql_query.specs.View.{expr_of};
ghost use Rattle.sql_planner.specs.Reading.{AreHalves, AreReadings, IsLiteralFor, IsReading, IsTestOf};
ghost use Rattle.sql_planner.specs.declared.reading.Reading.{Reading as ReadingOf};

use crate::column_test::column_test;
use crate::comparison::compares_by;
use osq_value::{Affinity, Copied, NoMemory, Sequence, TableId, Value, column_of};
use sql_query::copy::copy_expr;
use sql_query::query::{Condition, ExprList, QuerySource};
use sql_query::tree::Expr;
use std::alloc::Global;
use virtual_tables::{Constraint, ConstraintList, turn};

/// A condition of a join in two parts.
#[derive(Drop)]
pub(crate) struct Reading {
    /// What each row of the table is tested with by itself.
    pub tests: ConstraintList,
    /// What is asked of a row behind the rows before.
    pub on: Condition,
}

/// Readings in the order of their tables.
pub(crate) type ReadingList = Sequence<Reading>;

/// The readings of the tables of FROM.
pub(crate) fn readings_of(alloc: Global, sources: &[QuerySource]) -> Result<ReadingList, NoMemory>
    ensures { IfOk result (λ made. AreReadings 0 (map source_of sources.now) made) }
{
    let mut made = ReadingList::with_capacity(alloc, sources.len())?;
    push_readings(alloc, &mut made, sources, Some(0))?;
    Ok(made)
}

/// Adds the readings of further tables, whose columns stand behind so many values. Without a width each condition is asked of joined rows.
fn push_readings(
    alloc: Global,
    made: &mut ReadingList,
    sources: &[QuerySource],
    width: Option<usize>,
) -> Result<(), NoMemory>
    ensures { OnOk result ((more : List ReadingOf) × (made.new ≡ made.old ++ more) × ((before : ℕ) → IfSome width (λ known. known ≡ before) → AreReadings before (map source_of sources.now) more)) }
{
    let [source, others @ ..] = sources else {
        return Ok(());
    };
    made.push(reading_of(alloc, source, width)?)?;
    push_readings(alloc, made, others, behind(width, source.columns.len()))
}

/// The width with so many values more.
fn behind(width: Option<usize>, more: usize) -> Option<usize>
    ensures { (before : ℕ) → IfSome width (λ known. known ≡ before) → IfSome result (λ sum. sum ≡ before + more) }
{
    match width {
        Some(width) => width.checked_add(more),
        None => None,
    }
}

/// The condition of a join with a table, whose columns stand behind `width` values: comparisons of its own columns with literals are
/// tests of the table's rows.
fn reading_of(
    alloc: Global,
    source: &QuerySource,
    width: Option<usize>,
) -> Result<Reading, NoMemory>
    ensures { IfOk result (λ reading. (before : ℕ) → IfSome width (λ known. known ≡ before) → IsReading before (source_of source.now) reading) }
{
    let mut tests = ConstraintList::new(alloc);
    let mut on = ExprList::new(alloc);
    for part in source.on.parts.as_slice() {
        push_part(alloc, &mut tests, &mut on, source.table, width, part)?;
    }
    Ok(Reading {
        tests,
        on: Condition { parts: on },
    })
}

/// Adds a part of a condition to the tests where it is one, or else to the others.
fn push_part(
    alloc: Global,
    tests: &mut ConstraintList,
    on: &mut ExprList,
    table: TableId,
    width: Option<usize>,
    part: &Expr,
) -> Result<(), NoMemory>
    ensures { OnOk result ((parts : List ExprTree) (before : ℕ) → IfSome width (λ known. known ≡ before) → AreHalves table.0 before parts tests.old (map expr_of on.old) → AreHalves table.0 before (parts ++ expr_of part.now ∷ []) tests.new (map expr_of on.new)) }
{
    match constraint_behind(alloc, table, width, part)? {
        Some(test) => tests.push(test),
        None => on.push(copy_expr(alloc, part)?),
    }
}

/// The constraint that a part of a condition is, where it compares a column of the table with a literal.
fn constraint_behind(
    alloc: Global,
    table: TableId,
    width: Option<usize>,
    part: &Expr,
) -> Result<Option<Constraint>, NoMemory>
    ensures { IfOk result (λ made. IfSome made (λ test. (before : ℕ) → IfSome width (λ known. known ≡ before) → IsTestOf table.0 before (expr_of part.now) test)) }
{
    let Some(found) = column_test(part) else {
        return Ok(None);
    };
    let Some(op) = compares_by(found.op) else {
        return Ok(None);
    };
    let Some(column) = column_behind(width, found.at) else {
        return Ok(None);
    };
    let Some(value) = literal_for(alloc, table, column, found.affinity, found.value)? else {
        return Ok(None);
    };
    Ok(Some(Constraint { column, op, value }))
}

/// The column that stands at a place behind so many values.
fn column_behind(width: Option<usize>, at: u32) -> Option<u32>
    ensures { IfSome result (λ column. (before : ℕ) → IfSome width (λ known. known ≡ before) → at ≡ before + column) }
{
    let Some(width) = width else {
        return None;
    };
    match u32::try_from(width) {
        Ok(width) => at.checked_sub(width),
        Err(_) => None,
    }
}

/// The literal with which a scan compares a column, so that it finds what the text asks, in which the column has that affinity. A scan compares a
/// column of the catalogue by its affinity, and that of a derived table as it is, so that its literal is turned here. None where the catalogue
/// has another affinity.
fn literal_for(
    alloc: Global,
    table: TableId,
    column: u32,
    affinity: Option<Affinity>,
    literal: &Value,
) -> Result<Option<Value>, NoMemory>
    ensures { IfOk result (λ made. IfSome made (IsLiteralFor (affinity_at table.0 column) affinity literal.now)) }
{
    let Some(known) = column_of(table, column) else {
        return Ok(Some(turn(alloc, affinity, literal)?));
    };
    if is_affinity(affinity, known.affinity) {
        Ok(Some(literal.copy(alloc)?))
    } else {
        Ok(None)
    }
}

/// Whether there is an affinity, and it is that one.
fn is_affinity(affinity: Option<Affinity>, known: Affinity) -> bool
    ensures { result ≡ true → Some known ≡ affinity }
{
    match affinity {
        Some(affinity) => known == affinity,
        None => false,
    }
}
