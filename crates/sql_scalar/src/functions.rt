//! The functions.
ghost use Rattle.std.specs.Prelude.{◌≡◌, ◌≢◌, ◌∷◌, [], IfOk};
ghost use Rattle.sql_scalar.specs.Bounds.{IsWithin};
ghost use Rattle.sql_scalar.specs.Functions.{call_of, ifnull_of};

use crate::choices::{abs, first_known, null_if_equal, type_name};
use crate::finds::{instr, replace};
use crate::texts::{length, lower, trim, upper};
use crate::windows::{substr_from, substr_within};
use osq_value::{Copied, NoMemory, Row, Value};
use sql_tree::functions::Function;
use std::alloc::Global;

/// What a function gives for its arguments: Null for a number of arguments that it doesn't take, and, but for `typeof`, `coalesce`,
/// `ifnull` and `nullif`, where an argument is Null; yet `replace` of an empty text gives the first argument's text. Numbers among
/// arguments that are wanted as texts count as their decimal texts, and texts that are wanted as numbers as `cast_int` of them. `replace`
/// wants memory for a text of more than 10^9 bytes, which is SQLite's bound.
pub fn call(alloc: Global, function: Function, arguments: &Row) -> Result<Value, NoMemory>
    ensures called { IfOk result (λ value. value ≡ call_of function arguments.now) }
    ensures within { function ≡ Function.Replace → IfOk result IsWithin }
{
    let values = arguments.as_slice();
    match function {
        Function::Coalesce => {
            if values.len() < 2 {
                Ok(Value::Null)
            } else {
                first_known(alloc, values)
            }
        }
        _ => call_fixed(alloc, function, values),
    }
}

/// A function that takes at most three arguments.
fn call_fixed(alloc: Global, function: Function, arguments: &[Value]) -> Result<Value, NoMemory>
    requires { function ≢ Function.Coalesce }
    ensures called { IfOk result (λ value. value ≡ call_of function arguments.now) }
    ensures within { function ≡ Function.Replace → IfOk result IsWithin }
{
    match arguments {
        [x] => call_one(alloc, function, x),
        [x, y] => call_two(alloc, function, x, y),
        [x, y, z] => call_three(alloc, function, x, y, z),
        _ => Ok(Value::Null),
    }
}

fn call_one(alloc: Global, function: Function, x: &Value) -> Result<Value, NoMemory>
    ensures called { IfOk result (λ value. value ≡ call_of function (x.now ∷ [])) }
    ensures within { function ≡ Function.Replace → IfOk result IsWithin }
{
    match function {
        Function::Length => length(alloc, x),
        Function::Lower => lower(alloc, x),
        Function::Upper => upper(alloc, x),
        Function::Trim => trim(alloc, x),
        Function::Abs => Ok(abs(x)),
        Function::Typeof => type_name(alloc, x),
        Function::Substr
        | Function::Instr
        | Function::Replace
        | Function::Coalesce
        | Function::Ifnull
        | Function::Nullif => Ok(Value::Null),
    }
}

fn call_two(alloc: Global, function: Function, x: &Value, y: &Value) -> Result<Value, NoMemory>
    requires { function ≢ Function.Coalesce }
    ensures called { IfOk result (λ value. value ≡ call_of function (x.now ∷ y.now ∷ [])) }
    ensures within { function ≡ Function.Replace → IfOk result IsWithin }
{
    match function {
        Function::Substr => substr_from(alloc, x, y),
        Function::Instr => instr(alloc, x, y),
        Function::Ifnull => known_or(alloc, x, y),
        Function::Nullif => null_if_equal(alloc, x, y),
        Function::Length
        | Function::Lower
        | Function::Upper
        | Function::Trim
        | Function::Replace
        | Function::Abs
        | Function::Typeof
        | Function::Coalesce => Ok(Value::Null),
    }
}

fn call_three(
    alloc: Global,
    function: Function,
    x: &Value,
    y: &Value,
    z: &Value,
) -> Result<Value, NoMemory>
    requires { function ≢ Function.Coalesce }
    ensures called { IfOk result (λ value. value ≡ call_of function (x.now ∷ y.now ∷ z.now ∷ [])) }
    ensures within { function ≡ Function.Replace → IfOk result IsWithin }
{
    match function {
        Function::Substr => substr_within(alloc, x, y, z),
        Function::Replace => replace(alloc, x, y, z),
        Function::Length
        | Function::Lower
        | Function::Upper
        | Function::Trim
        | Function::Instr
        | Function::Abs
        | Function::Typeof
        | Function::Coalesce
        | Function::Ifnull
        | Function::Nullif => Ok(Value::Null),
    }
}

/// The first value that isn't Null, else Null.
fn known_or(alloc: Global, value: &Value, other: &Value) -> Result<Value, NoMemory>
    ensures { IfOk result (λ known. known ≡ ifnull_of value.now other.now) }
{
    match value {
        Value::Null => other.copy(alloc),
        Value::Int(_) | Value::Text(_) => value.copy(alloc),
    }
}
