//! Statements inside a transaction: which of them ran, what a query showed, and that a crash may leave nothing new by them.

ghost use Rattle.std.specs.Prelude.{◌≡◌, IfOk, OnOk, Ok, map, ℕ};
ghost use Rattle.keeper_sqlite.specs.Commits.{CommitsNothing};
ghost use Rattle.keeper_sqlite.specs.Asking.{AreMade, Finds, IsMade, bound_to, held_as};
ghost use Rattle.sqlite.specs.Held.{state};
ghost use Rattle.sqlite.specs.State.{ExecutesInside, HasCleanDisk};
ghost use Rattle.sqlite.specs.Values.{bound, bound_value};
ghost use Rattle.sqlite_value.specs.Value.{owned};

use crate::stop::Stop;
use kept_tables::changes::{Change, ChangeList, Parameter};
use osq_value::{NoMemory, Row, RowList, Sequence, Str, Value};
use sqlite::types::ValueRef;
use sqlite::{Alter, Row as Shown, Transaction};
use std::alloc::Global;
use std::str;

/// Makes the changes, one after another.
#[tactic(auto, using(crate::proofs::Commits::same_commits_nothing, crate::proofs::Commits::nothing_then_nothing))]
pub(crate) fn make_all<S: Alter>(
    alloc: Global,
    tx: &mut Transaction<'_, S>,
    changes: &ChangeList,
) -> Result<(), Stop>
    ensures same_reference { tx.new.conn.ghost_name ≡ tx.old.conn.ghost_name }
    ensures survives { CommitsNothing (state S.Store tx.old.conn.now) (state S.Store tx.new.conn.now) }
    ensures made { HasCleanDisk (state S.Store tx.new.conn.now) → OnOk result (AreMade S.Store changes.now tx.old.conn.now tx.new.conn.now) }
{
    for change in changes.as_slice() {
        make(alloc, tx, change)?;
    }
    Ok(())
}

/// Makes one change.
fn make<S: Alter>(alloc: Global, tx: &mut Transaction<'_, S>, change: &Change) -> Result<(), Stop>
    ensures same_reference { tx.new.conn.ghost_name ≡ tx.old.conn.ghost_name }
    ensures survives { CommitsNothing (state S.Store tx.old.conn.now) (state S.Store tx.new.conn.now) }
    ensures made { HasCleanDisk (state S.Store tx.new.conn.now) → OnOk result (IsMade S.Store change.now tx.old.conn.now tx.new.conn.now) }
{
    let values = values_of(alloc, change.parameters.as_slice())?;
    execute(tx, change.statement.text(), values.as_slice())
}

/// Runs a statement with these parameters.
#[tactic(auto, using(crate::proofs::Commits::same_commits_nothing))]
fn execute<S: Alter>(
    tx: &mut Transaction<'_, S>,
    sql: &str,
    values: &[ValueRef<'_>],
) -> Result<(), Stop>
    ensures same_reference { tx.new.conn.ghost_name ≡ tx.old.conn.ghost_name }
    ensures survives { CommitsNothing (state S.Store tx.old.conn.now) (state S.Store tx.new.conn.now) }
    ensures ran { HasCleanDisk (state S.Store tx.new.conn.now) → OnOk result ((count : ℕ) × ExecutesInside 0 sql.now (bound values.now) (state S.Store tx.old.conn.now) (state S.Store tx.new.conn.now) (Ok count)) }
{
    tx.execute(sql, values)?;
    Ok(())
}

/// What the parameters stand for, as it lies in them.
fn values_of(alloc: Global, parameters: &[Parameter]) -> Result<Vec<ValueRef<'_>>, NoMemory>
    ensures { IfOk result (λ values. bound values.items ≡ map bound_to parameters.now) }
{
    let mut values = Vec::with_capacity(alloc, parameters.len())?;
    for parameter in parameters {
        values.push(value_of(parameter))?;
    }
    Ok(values)
}

fn value_of(parameter: &Parameter) -> ValueRef<'_>
    ensures { bound_value (owned result) ≡ bound_to parameter.now }
{
    match parameter {
        Parameter::Number(number) => ValueRef::Int(*number),
        Parameter::Text(text) => ValueRef::Text(text.as_str().as_bytes()),
        Parameter::List(text) => ValueRef::Text(text.as_slice()),
    }
}

/// All rows of an answer.
pub(crate) fn show<S: Alter>(
    alloc: Global,
    tx: &mut Transaction<'_, S>,
    sql: &str,
) -> Result<RowList, Stop>
    ensures same_reference { tx.new.conn.ghost_name ≡ tx.old.conn.ghost_name }
    ensures survives { CommitsNothing (state S.Store tx.old.conn.now) (state S.Store tx.new.conn.now) }
    ensures found { HasCleanDisk (state S.Store tx.new.conn.now) → IfOk result (λ rows. Finds S.Store sql.now rows tx.old.conn.now tx.new.conn.now) }
{
    let shown = tx.query_all(sql, &[])?;
    rows_of(alloc, shown.as_slice())
}

/// All rows of an answer about this number.
pub(crate) fn show_of<S: Alter>(
    alloc: Global,
    tx: &mut Transaction<'_, S>,
    sql: &str,
    number: u64,
) -> Result<RowList, Stop> {
    let number = match i64::try_from(number) {
        Ok(number) => number,
        Err(_) => return Err(Stop::Fault),
    };
    let shown = tx.query_all(sql, &[ValueRef::Int(number)])?;
    rows_of(alloc, shown.as_slice())
}

fn rows_of(alloc: Global, shown: &[Shown]) -> Result<RowList, Stop>
    ensures { IfOk result (λ rows. map (map held_as) rows ≡ shown.now) }
{
    let mut rows = Sequence::with_capacity(alloc, shown.len())?;
    for row in shown {
        rows.push(row_of(alloc, row)?)?;
    }
    Ok(rows)
}

fn row_of(alloc: Global, shown: &Shown) -> Result<Row, Stop>
    ensures { IfOk result (λ row. map held_as row ≡ shown.now) }
{
    let mut row = Row::with_capacity(alloc, shown.column_count())?;
    for at in 0..shown.column_count() {
        row.push(shown_value(alloc, shown.get_ref(at)?)?)?;
    }
    Ok(row)
}

fn shown_value(alloc: Global, shown: ValueRef<'_>) -> Result<Value, Stop>
    ensures { IfOk result (λ value. held_as value ≡ owned shown.entry) }
{
    match shown {
        ValueRef::Null => Ok(Value::Null),
        ValueRef::Int(number) => Ok(Value::Int(number)),
        ValueRef::Text(bytes) => match str::from_utf8(bytes) {
            Ok(text) => Ok(Value::Text(Str::of(alloc, text)?)),
            Err(_) => Err(Stop::Fault),
        },
        _ => Err(Stop::Fault),
    }
}
