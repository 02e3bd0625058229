//! What a call of `regex_match` gives for a value.

ghost use Rattle.std.specs.Prelude.{◌≡◌, IfOk};
ghost use Rattle.std.specs.Option.{option_map_or};
ghost use Rattle.osq_value.specs.declared.value.Value.TheVariants.{Null, Text};
ghost use Rattle.regex.specs.Patterns.{Re, SameCaptures};
ghost use Rattle.regex.specs.Strings.{matcher_pattern};
ghost use Rattle.custom_tables.specs.Matching.{found_text, match_value as value_matched};

use osq_value::{NoMemory, Str, Value};
use regex::Matcher;
use std::alloc::Global;

/// The text of a group of the first match in a value's text, group 0 being the whole match. A number is searched as its digits. Null for
/// Null, where nothing matches, and for a group that isn't there or took no part. Patterns with the same captures give the same.
#[tactic(auto, unfolding(crate::specs::Matching::match_value))]
pub fn match_value(
    alloc: Global,
    matcher: &mut Matcher,
    group: usize,
    value: &Value,
) -> Result<Value, NoMemory>
    ensures value { (re : Re) → SameCaptures (matcher_pattern matcher.old) re → IfOk result (λ found. found ≡ value_matched re group value.now) }
    ensures same { matcher_pattern matcher.new ≡ matcher_pattern matcher.old }
{
    match value {
        Value::Null => Ok(Value::Null),
        Value::Int(number) => {
            let digits = number.to_string(alloc)?;
            text_value(alloc, matcher, group, digits.as_str())
        }
        Value::Text(text) => text_value(alloc, matcher, group, text.as_str()),
    }
}

/// The text of a group of the first match in a text, by any pattern with the matcher's captures.
fn text_value(
    alloc: Global,
    matcher: &mut Matcher,
    group: usize,
    text: &str,
) -> Result<Value, NoMemory>
    ensures value { (re : Re) → SameCaptures (matcher_pattern matcher.old) re → IfOk result (λ found. found ≡ option_map_or Text (found_text re group text.now) Null) }
    ensures same { matcher_pattern matcher.new ≡ matcher_pattern matcher.old }
{
    group_value(alloc, matcher, group, text)
}

/// The text of a group of the first match in a text.
#[tactic(auto, using(crate::proofs::Groups::group_is))]
fn group_value(
    alloc: Global,
    matcher: &mut Matcher,
    group: usize,
    text: &str,
) -> Result<Value, NoMemory>
    ensures value { IfOk result (λ found. found ≡ option_map_or Text (found_text (matcher_pattern matcher.old) group text.now) Null) }
    ensures same { matcher_pattern matcher.new ≡ matcher_pattern matcher.old }
{
    let Some(captures) = matcher.captures(text) else {
        return Ok(Value::Null);
    };
    match captures.get(group) {
        None => Ok(Value::Null),
        Some(found) => Ok(Value::Text(Str::of(alloc, found.as_str())?)),
    }
}
