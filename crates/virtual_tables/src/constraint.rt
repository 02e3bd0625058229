//! Comparisons of a column with a literal.
ghost use Rattle.std.specs.Prelude.{◌≡◌, IfOk, map};
ghost use Rattle.std.specs.List.{list_all};
ghost use Rattle.virtual_tables.specs.Constraints.{affinity_at};
ghost use Rattle.virtual_tables.specs.Tests.{is_passed, passes, tested, turned, wanted};
ghost use Rattle.sql_scalar.specs.Comparison.{spelled};

use osq_value::{
    Affinity, Copied, NoMemory, Row, Sequence, TableId, Value, cast_text, column_of, compare,
    int_spelling,
};
use std::alloc::Global;
use std::cmp::Ordering;

/// How a column is compared with a literal.
#[derive(Clone, Copy)]
pub enum ConstraintOp {
    /// The column equals the literal.
    Eq,
    /// The column is below it.
    Lt,
    /// The column is below it or equals it.
    Le,
    /// The column is above it.
    Gt,
    /// The column is above it or equals it.
    Ge,
}

/// A comparison of a column with a literal, the column on the left side.
#[derive(Drop)]
pub struct Constraint {
    /// The column's place in the table, from 0.
    pub column: u32,
    /// How the column is compared.
    pub op: ConstraintOp,
    /// The literal.
    pub value: Value,
}

/// Constraints, each of which is to be true.
pub type ConstraintList = Sequence<Constraint>;

/// The constraints with their literals turned by the affinities of the columns, once for all rows of the table.
pub(crate) fn tests(
    alloc: Global,
    table: TableId,
    constraints: &[Constraint],
) -> Result<ConstraintList, NoMemory>
    ensures { IfOk result (λ tests. tests ≡ map (tested table.0) constraints.now) }
{
    let mut tests = ConstraintList::with_capacity(alloc, constraints.len())?;
    for constraint in constraints {
        tests.push(Constraint {
            column: constraint.column,
            op: constraint.op,
            value: turn(alloc, affinity(table, constraint.column), &constraint.value)?,
        })?;
    }
    Ok(tests)
}

/// Whether a row passes each test. A place beyond the row holds Null.
pub(crate) fn passes_all(row: &Row, tests: &[Constraint]) -> bool
    ensures { result ≡ list_all (passes row.now) tests.now }
{
    let mut rest = tests;
    while let [test, others @ ..] = rest {
        if !passes_one(row, test) {
            return false;
        }
        rest = others;
    }
    true
}

fn passes_one(row: &Row, test: &Constraint) -> bool
    ensures { result ≡ passes row.now test.now }
{
    match row.get(test.column as usize) {
        None => false,
        Some(value) => passes_test(test.op, value, &test.value),
    }
}

/// The affinity of a column of a table, none where there is no such column.
fn affinity(table: TableId, column: u32) -> Option<Affinity>
    ensures { result ≡ affinity_at table.0 column }
{
    match column_of(table, column) {
        None => None,
        Some(column) => Some(column.affinity),
    }
}

/// A literal as it is compared with a value of that affinity: the two are then in the order of `compare`. It is Null just where the literal is.
pub fn turn(alloc: Global, affinity: Option<Affinity>, value: &Value) -> Result<Value, NoMemory>
    ensures { IfOk result (λ made. made ≡ turned affinity value.now) }
{
    match affinity {
        None => value.copy(alloc),
        Some(Affinity::Integer) => spelled_number(alloc, value),
        Some(Affinity::Text) => cast_text(alloc, value),
    }
}

/// The whole number that a text spells, and any other value as it is.
fn spelled_number(alloc: Global, value: &Value) -> Result<Value, NoMemory>
    ensures { IfOk result (λ made. made ≡ spelled value.now) }
{
    match value {
        Value::Null => Ok(Value::Null),
        Value::Int(number) => Ok(Value::Int(*number)),
        Value::Text(text) => match int_spelling(text.as_str().as_bytes()) {
            Some(number) => Ok(Value::Int(number)),
            None => value.copy(alloc),
        },
    }
}

/// Whether neither value is Null and their order is that of the comparison.
fn passes_test(op: ConstraintOp, left: &Value, right: &Value) -> bool
    ensures { result ≡ is_passed op left.now right.now }
{
    match (left, right) {
        (Value::Null, _) | (_, Value::Null) => false,
        _ => is_wanted(op, compare(left, right)),
    }
}

/// Whether the order is one that the comparison wants.
fn is_wanted(op: ConstraintOp, order: Ordering) -> bool
    ensures { result ≡ wanted op order }
{
    match op {
        ConstraintOp::Eq => order.is_eq(),
        ConstraintOp::Lt => order.is_lt(),
        ConstraintOp::Le => order.is_le(),
        ConstraintOp::Gt => order.is_gt(),
        ConstraintOp::Ge => order.is_ge(),
    }
}
