//! What an aggregate makes of the rows of a group.
ghost use Rattle.std.specs.Prelude.{◌≡◌, ℤ, pos, IfOk, filter, filter_map, unwrap_or};
ghost use Rattle.osq_value.specs.declared.value.Value.TheVariants.{Int, Null};
ghost use Rattle.sql_meaning.specs.Folds.{counted_rows, different, folded_over, looked_at, sum_over};
ghost use Rattle.sql_meaning.specs.Known.{is_known};
ghost use Rattle.sql_meaning.specs.Looks.{extreme_of, nearer_of};
ghost use Rattle.sql_scalar.specs.Arithmetic.{whole, within};

use crate::set_key::key_of_values;
use indexmap::IndexSet;
use osq_value::{NoMemory, Sequence, Value, compare};
use set_keys::SetKey;
use sql_scalar::whole;
use sql_tree::functions::Fold;
use std::alloc::Global;

/// An aggregate over what its argument is in each row of a group: COUNT counts the values that aren't Null, SUM adds
/// their whole numbers, MIN and MAX are the first and the last in the order of `compare`. With DISTINCT each value
/// counts once. Without a value that isn't Null, and where the true sum lies outside 64 bits, the answer is Null.
pub fn fold_values(
    alloc: Global,
    fold: Fold,
    is_distinct: bool,
    values: Sequence<Value>,
) -> Result<Value, NoMemory>
    ensures { IfOk result (λ value. value ≡ folded_over fold is_distinct values) }
{
    let looked = looked_at(alloc, values, is_distinct)?;
    match fold {
        Fold::Count => count_value(looked.len()),
        Fold::Sum => Ok(sum(looked.as_slice())),
        Fold::Min => Ok(extreme(looked, false)),
        Fold::Max => Ok(extreme(looked, true)),
    }
}

/// An aggregate without an argument over so many rows. COUNT counts them; no other has that form.
pub fn count_rows(fold: Fold, rows: usize) -> Result<Value, NoMemory>
    ensures { IfOk result (λ value. value ≡ counted_rows fold rows) }
{
    match fold {
        Fold::Count => count_value(rows),
        Fold::Sum | Fold::Min | Fold::Max => Ok(Value::Null),
    }
}

fn count_value(count: usize) -> Result<Value, NoMemory>
    ensures { IfOk result (λ value. value ≡ Int (pos count)) }
{
    match i64::try_from(count) {
        Ok(number) => Ok(Value::Int(number)),
        Err(_) => Err(NoMemory),
    }
}

/// The values that an aggregate looks at: those that aren't Null, and with DISTINCT each of them once.
fn looked_at(
    alloc: Global,
    values: Sequence<Value>,
    is_distinct: bool,
) -> Result<Sequence<Value>, NoMemory>
    ensures { IfOk result (λ looked. looked ≡ looked_at is_distinct values) }
{
    let known = known_values(values);
    if is_distinct {
        different(alloc, known)
    } else {
        Ok(Sequence::from_vec(known))
    }
}

/// The values that aren't Null.
fn known_values(values: Sequence<Value>) -> Vec<Value>
    ensures { result.items ≡ filter is_known values }
{
    let mut known = values.into_vec();
    known.retain(|value| is_known(value));
    known
}

/// Each value once, where it first stands.
fn different(alloc: Global, values: Vec<Value>) -> Result<Sequence<Value>, NoMemory>
    ensures { IfOk result (λ kept. kept ≡ different values.items) }
{
    let mut kept = Sequence::new(alloc);
    for value in hashed(alloc, values)? {
        kept.push(value)?;
    }
    Ok(kept)
}

/// The same values, which are found by their hash. Each is hashed once.
fn hashed(alloc: Global, values: Vec<Value>) -> Result<IndexSet<Value, SetKey>, NoMemory>
    ensures { IfOk result (λ kept. kept.keys ≡ different values.items) }
{
    let mut kept = IndexSet::with_hasher(alloc, key_of_values(values.as_slice()));
    for value in values {
        kept.insert(value)?;
    }
    Ok(kept)
}

/// The true sum of the whole numbers, Null of none and outside 64 bits.
fn sum(values: &[Value]) -> Value
    ensures { result ≡ sum_over (filter_map whole values.now) }
{
    let mut total: i128 = 0;
    let mut is_empty = true;
    for value in values {
        let number = whole(value);
        is_empty = is_empty & number.is_none();
        total += i128::from(number.unwrap_or(0));
    }
    if is_empty { Value::Null } else { within(total) }
}

/// The number, or Null where it lies outside 64 bits.
fn within(number: i128) -> Value
    ensures { result ≡ within number }
{
    match i64::try_from(number) {
        Ok(number) => Value::Int(number),
        Err(_) => Value::Null,
    }
}

/// The greatest of the values, or the least of them, Null of none.
fn extreme(values: Sequence<Value>, is_greatest: bool) -> Value
    ensures { result ≡ unwrap_or (extreme_of is_greatest values) Null }
{
    let mut best = None;
    for value in values.into_vec() {
        best = Some(nearer(best, value, is_greatest));
    }
    best.unwrap_or(Value::Null)
}

/// The greater of the two, or the lesser.
fn nearer(best: Option<Value>, value: Value, is_greatest: bool) -> Value
    ensures { result ≡ nearer_of is_greatest best value }
{
    match best {
        Some(held) => {
            let order = compare(&value, &held);
            let is_nearer = if is_greatest {
                order.is_gt()
            } else {
                order.is_lt()
            };
            if is_nearer { value } else { held }
        }
        None => value,
    }
}

fn is_known(value: &Value) -> bool
    ensures { result ≡ is_known value.now }
{
    match value {
        Value::Null => false,
        Value::Int(_) | Value::Text(_) => true,
    }
}
