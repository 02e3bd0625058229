//! The values of keys.

ghost use Rattle.std.specs.Prelude.{◌≡◌, Some, IfOk, is_some};
ghost use Rattle.serde_json.specs.Find.{as_object, get};
ghost use Rattle.serde_json.specs.View.{items_view, view};
ghost use Rattle.osq_config.specs.declared.error.ConfigError.TheVariants.{OutOfRange, WrongShape};
ghost use Rattle.osq_config.specs.Faults.{all_texts, fault_at, fault_at_needed, fault_of_shape, number_of, path_to, spelled_truth, texts_of, truth_of, within};
ghost use Rattle.osq_config.specs.Kinds.{text, texts, truth, whole};
ghost use Rattle.osq_config.specs.Reads.{Faults, Reads};
ghost use Rattle.osq_config.specs.Values.{number_in, text_in, truth_in};

use crate::error::ConfigError;
use osq_value::{NoMemory, Str, TextList, int_spelling};
use serde_json::Value as Json;
use std::alloc::Global;

/// The least and the greatest number that a key allows, and the number that stands for a missing one.
#[derive(Clone, Copy)]
pub struct Bounds {
    /// The least number that is allowed.
    pub least: u64,
    /// The greatest number that is allowed.
    pub most: u64,
    /// The number of a missing key. It lies between the other two.
    pub default: u64,
}

/// The path of a key under a path: both with a dot between them, or the key alone under the empty path.
pub fn path_to(alloc: Global, path: &str, key: &str) -> Result<Str, NoMemory>
    ensures { IfOk result (λ made. made ≡ path_to path.now key.now) }
{
    if path.is_empty() {
        return Str::of(alloc, key);
    }
    let mut joined = String::new(alloc);
    joined.push_str(path)?;
    joined.push('.')?;
    joined.push_str(key)?;
    Ok(Str::from_string(joined))
}

/// The fault of a value that has another kind.
pub fn wrong_shape(alloc: Global, path: &str) -> ConfigError
    ensures { Faults (Some (WrongShape path.now)) result }
{
    match Str::of(alloc, path) {
        Ok(key) => ConfigError::WrongShape { key },
        Err(_) => ConfigError::NoMemory,
    }
}

/// The fault of a key whose value has another kind.
pub fn wrong_shape_at(alloc: Global, path: &str, key: &str) -> ConfigError
    ensures { Faults (Some (WrongShape (path_to path.now key.now))) result }
{
    match path_to(alloc, path, key) {
        Ok(key) => ConfigError::WrongShape { key },
        Err(_) => ConfigError::NoMemory,
    }
}

/// The fault of a key whose value isn't among those allowed.
pub fn out_of_range_at(alloc: Global, path: &str, key: &str) -> ConfigError
    ensures { Faults (Some (OutOfRange (path_to path.now key.now))) result }
{
    match path_to(alloc, path, key) {
        Ok(key) => ConfigError::OutOfRange { key },
        Err(_) => ConfigError::NoMemory,
    }
}

/// A whole number, or a text that spells one.
fn number_of(value: &Json) -> Option<i64>
    ensures { result ≡ number_of (view value.now) }
{
    match value.as_str() {
        Some(text) => int_spelling(text.as_bytes()),
        None => value.as_i64(),
    }
}

fn within(number: i64, bounds: Bounds) -> Option<u64>
    ensures { result ≡ within bounds.least bounds.most number }
{
    let number = u64::try_from(number).ok()?;
    if bounds.least <= number && number <= bounds.most {
        Some(number)
    } else {
        None
    }
}

/// The whole number of a key that may be missing.
/// WrongShape where the value is no whole number of 64 bits and no text that spells one; OutOfRange where the number lies outside the
/// bounds.
pub fn number_at(
    alloc: Global,
    path: &str,
    object: &Json,
    key: &str,
    bounds: Bounds,
) -> Result<u64, ConfigError>
    ensures { Reads (fault_at (whole bounds.least bounds.most) path.now key.now (view object.now))
        (number_in bounds.least bounds.most bounds.default (get key.now (view object.now))) result }
{
    let Some(value) = object.get(key) else {
        return Ok(bounds.default);
    };
    let Some(number) = number_of(value) else {
        return Err(wrong_shape_at(alloc, path, key));
    };
    match within(number, bounds) {
        Some(number) => Ok(number),
        None => Err(out_of_range_at(alloc, path, key)),
    }
}

/// The text of a key that may be missing.
/// WrongShape where the value is no text; a missing one is the empty text.
pub fn text_at(alloc: Global, path: &str, object: &Json, key: &str) -> Result<Str, ConfigError>
    ensures { Reads (fault_at text path.now key.now (view object.now))
        (text_in (get key.now (view object.now))) result }
{
    let Some(value) = object.get(key) else {
        return Ok(Str::empty());
    };
    match value.as_str() {
        Some(text) => Ok(Str::of(alloc, text)?),
        None => Err(wrong_shape_at(alloc, path, key)),
    }
}

/// The text of a key that must be there.
/// WrongShape where it is missing, or is no text.
pub fn needed_text_at(
    alloc: Global,
    path: &str,
    object: &Json,
    key: &str,
) -> Result<Str, ConfigError>
    ensures { Reads (fault_at_needed text path.now key.now (view object.now))
        (text_in (get key.now (view object.now))) result }
{
    let Some(value) = object.get(key) else {
        return Err(wrong_shape_at(alloc, path, key));
    };
    match value.as_str() {
        Some(text) => Ok(Str::of(alloc, text)?),
        None => Err(wrong_shape_at(alloc, path, key)),
    }
}

/// The truth value that a text spells.
fn spelled_truth(text: &str) -> Option<bool>
    ensures { result ≡ spelled_truth text.now }
{
    if text == "true" {
        Some(true)
    } else if text == "false" {
        Some(false)
    } else {
        None
    }
}

fn truth_of(value: &Json) -> Option<bool>
    ensures { result ≡ truth_of (view value.now) }
{
    match value.as_str() {
        Some(text) => spelled_truth(text),
        None => value.as_bool(),
    }
}

/// The truth value of a key; a missing one is false.
/// WrongShape where the value is neither `true` nor `false`, nor a text that is one of these words.
pub fn truth_at(alloc: Global, path: &str, object: &Json, key: &str) -> Result<bool, ConfigError>
    ensures { Reads (fault_at truth path.now key.now (view object.now))
        (truth_in (get key.now (view object.now))) result }
{
    let Some(value) = object.get(key) else {
        return Ok(false);
    };
    truth_of(value).ok_or_else(|| wrong_shape_at(alloc, path, key))
}

/// The items, where each is a text.
fn all_texts(alloc: Global, items: &[Json]) -> Result<Option<TextList>, NoMemory>
    ensures { IfOk result (λ found. found ≡ all_texts (items_view items.now)) }
{
    let mut texts = TextList::new(alloc);
    for item in items {
        let Some(text) = item.as_str() else {
            return Ok(None);
        };
        texts.push(Str::of(alloc, text)?)?;
    }
    Ok(Some(texts))
}

/// The texts of an array of texts.
/// None where it is no array, or has an item that is no text.
pub fn texts_of(alloc: Global, value: &Json) -> Result<Option<TextList>, NoMemory>
    ensures { IfOk result (λ found. found ≡ texts_of (view value.now)) }
{
    match value.as_array() {
        Some(items) => all_texts(alloc, items.as_slice()),
        None => Ok(None),
    }
}

/// An object.
/// WrongShape where the value is no object.
pub fn check_object(alloc: Global, path: &str, value: &Json) -> Result<(), ConfigError>
    ensures { Reads (fault_of_shape path.now (is_some (as_object (view value.now)))) tt result }
{
    if value.is_object() {
        Ok(())
    } else {
        Err(wrong_shape(alloc, path))
    }
}
