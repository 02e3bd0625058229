//! Functions that look at kinds, at Null, and at one number.
ghost use Rattle.std.specs.Prelude.{◌≡◌, IfOk};
ghost use Rattle.sql_scalar.specs.Choices.{abs_of, first_known, nullif_of, typeof_of};

use crate::arithmetic::{or_null, whole};
use osq_value::{Copied, NoMemory, Str, Value, compare};
use std::alloc::Global;

/// The absolute value of the whole number: Null for Null and for the least number.
pub(crate) fn abs(value: &Value) -> Value
    ensures { result ≡ abs_of value.now }
{
    match whole(value) {
        Some(number) => or_null(number.checked_abs()),
        None => Value::Null,
    }
}

/// `null`, `integer` or `text`.
pub(crate) fn type_name(alloc: Global, value: &Value) -> Result<Value, NoMemory>
    ensures { IfOk result (λ name. name ≡ typeof_of value.now) }
{
    match value {
        Value::Null => Ok(Value::Text(Str::of(alloc, "null")?)),
        Value::Int(_) => Ok(Value::Text(Str::of(alloc, "integer")?)),
        Value::Text(_) => Ok(Value::Text(Str::of(alloc, "text")?)),
    }
}

/// The first value that isn't Null, else Null.
pub(crate) fn first_known(alloc: Global, values: &[Value]) -> Result<Value, NoMemory>
    ensures { IfOk result (λ value. value ≡ first_known values.now) }
{
    let mut rest = values;
    while let Some((first, others)) = rest.split_first() {
        match first {
            Value::Null => rest = others,
            Value::Int(_) | Value::Text(_) => return first.copy(alloc),
        }
    }
    Ok(Value::Null)
}

/// Null where both are equal values, else the first.
pub(crate) fn null_if_equal(alloc: Global, value: &Value, other: &Value) -> Result<Value, NoMemory>
    ensures { IfOk result (λ kept. kept ≡ nullif_of value.now other.now) }
{
    if compare(value, other).is_eq() {
        Ok(Value::Null)
    } else {
        value.copy(alloc)
    }
}
