ghost use Rattle.std.specs.Prelude.{◌≡◌, Some, option_map};
ghost use Rattle.serde_json.specs.Find.{as_str};
ghost use Rattle.serde_json.specs.View.{view};
ghost use Rattle.change_records.specs.Changes.{text_at};
ghost use Rattle.change_records.specs.Fields.{number_of, text_of};
ghost use Rattle.change_records.specs.Members.{held};
ghost use Rattle.change_records.specs.Reads.{Reads};
ghost use Rattle.change_records.specs.Tokens.{shallow_view};

use crate::error::JsonLineError;
use crate::token::Shallow;
use osq_value::{Str, Value, int_spelling};
use serde_json::Value as Json;
use std::alloc::Global;

/// The text of a member.
pub fn text_at<'a>(line: &'a Json, key: &str) -> Option<&'a str>
    ensures { option_map (λ text. text.now) result ≡ text_at key.now (view line.now) }
{
    line.get(key)?.as_str()
}

/// The whole number that a member holds, or that its text spells.
/// BadLine where it holds anything else but null; Null where it is missing.
pub fn number_in(member: Option<Shallow<'_>>) -> Result<Value, JsonLineError>
    ensures { Reads (number_of (held member.entry)) result }
{
    match member {
        None => Ok(Value::Null),
        Some(value) => number(value).ok_or(JsonLineError::BadLine),
    }
}

fn number(value: Shallow<'_>) -> Option<Value>
    ensures { result ≡ number_of (Some (shallow_view value.entry)) }
{
    match value {
        Shallow::Null => Some(Value::Null),
        Shallow::Number(number) => number.as_i64().map(Value::Int),
        Shallow::Text(text) => int_spelling(text.as_bytes()).map(Value::Int),
        Shallow::Bool(_) | Shallow::Array | Shallow::Object => None,
    }
}

/// The text that a member holds.
/// BadLine where it holds anything else but null; Null where it is missing.
pub fn value_in(alloc: Global, member: Option<Shallow<'_>>) -> Result<Value, JsonLineError>
    ensures { Reads (text_of (held member.entry)) result }
{
    match member {
        None | Some(Shallow::Null) => Ok(Value::Null),
        Some(Shallow::Text(text)) => Ok(Value::Text(Str::of(alloc, text)?)),
        Some(_) => Err(JsonLineError::BadLine),
    }
}
