//! The frame that a JSON object shows.

ghost use Rattle.std.specs.Prelude.{◌≡◌, codes, map, option_and_then, option_map};
ghost use Rattle.serde_json.specs.Find.{as_str};
ghost use Rattle.serde_json.specs.View.{view};
ghost use Rattle.change_records.specs.Changes.{text_at as data_text_at};
ghost use Rattle.change_records.specs.Reads.{Reads};
ghost use Rattle.change_records.specs.Rows.{all_there};
ghost use Rattle.batch_frames.specs.Shapes.{frame_of, has_form, has_keys, items_at, mode_of, number_at, query_of, row_of, shape_of, slice_of, table_of, value_of};

use crate::frame::Frame;
use crate::parts::{Sender, Slice, Table, frame_of_parts};
use change_records::JsonLineError;
use osq_value::{Row, RowList, Str, TextList, Value};
use pack_rules::schedule::{Mode, QueryKey};
use serde_json::Value as Json;
use std::alloc::Global;

/// A frame and a digest, as an object shows them.
#[derive(Drop)]
pub(crate) struct Shown {
    pub frame: Frame,
    pub digest: Str,
}

/// How many keys a frame's object has.
const KEYS: usize = 13;

fn text_at<'a>(line: &'a Json, key: &str) -> Option<&'a str>
    ensures { option_map (λ text. text.now) result ≡ data_text_at key.now (view line.now) }
{
    line.get(key)?.as_str()
}

fn text(alloc: Global, line: &Json, key: &str) -> Result<Str, JsonLineError>
    ensures { Reads (data_text_at key.now (view line.now)) result }
{
    match text_at(line, key) {
        Some(text) => Ok(Str::of(alloc, text)?),
        None => Err(JsonLineError::BadLine),
    }
}

fn number_at(line: &Json, key: &str) -> Option<u64>
    ensures { result ≡ number_at key.now (view line.now) }
{
    line.get(key)?.as_u64()
}

fn number(line: &Json, key: &str) -> Result<u64, JsonLineError>
    ensures { Reads (number_at key.now (view line.now)) result }
{
    number_at(line, key).ok_or(JsonLineError::BadLine)
}

fn names(alloc: Global, line: &Json) -> Result<TextList, JsonLineError>
    ensures { Reads (items_at as_str (codes "names") (view line.now)) result }
{
    let items = line
        .get("names")
        .ok_or(JsonLineError::BadLine)?
        .as_array()
        .ok_or(JsonLineError::BadLine)?;
    all_names(alloc, items.as_slice())
}

fn all_names(alloc: Global, items: &[Json]) -> Result<TextList, JsonLineError>
    ensures { Reads (all_there (map (λ item. as_str (view item)) items.now)) result }
{
    let mut names = TextList::new(alloc);
    for item in items {
        names.push(name(alloc, item)?)?;
    }
    Ok(names)
}

fn name(alloc: Global, item: &Json) -> Result<Str, JsonLineError>
    ensures { Reads (as_str (view item.now)) result }
{
    let text = item.as_str().ok_or(JsonLineError::BadLine)?;
    Ok(Str::of(alloc, text)?)
}

fn rows(alloc: Global, line: &Json) -> Result<RowList, JsonLineError>
    ensures { Reads (items_at row_of (codes "rows") (view line.now)) result }
{
    let items = line
        .get("rows")
        .ok_or(JsonLineError::BadLine)?
        .as_array()
        .ok_or(JsonLineError::BadLine)?;
    all_rows(alloc, items.as_slice())
}

fn all_rows(alloc: Global, items: &[Json]) -> Result<RowList, JsonLineError>
    ensures { Reads (all_there (map (λ item. row_of (view item)) items.now)) result }
{
    let mut rows = RowList::new(alloc);
    for item in items {
        rows.push(row(alloc, item)?)?;
    }
    Ok(rows)
}

fn row(alloc: Global, item: &Json) -> Result<Row, JsonLineError>
    ensures { Reads (row_of (view item.now)) result }
{
    let items = item.as_array().ok_or(JsonLineError::BadLine)?;
    all_values(alloc, items.as_slice())
}

fn all_values(alloc: Global, items: &[Json]) -> Result<Row, JsonLineError>
    ensures { Reads (all_there (map (λ item. value_of (view item)) items.now)) result }
{
    let mut row = Row::new(alloc);
    for item in items {
        row.push(value(alloc, item)?)?;
    }
    Ok(row)
}

fn value(alloc: Global, item: &Json) -> Result<Value, JsonLineError>
    ensures { Reads (value_of (view item.now)) result }
{
    if item.is_null() {
        return Ok(Value::Null);
    }
    match item.as_str() {
        Some(text) => Ok(Value::Text(Str::of(alloc, text)?)),
        None => item.as_i64().map(Value::Int).ok_or(JsonLineError::BadLine),
    }
}

fn mode_of(text: &str) -> Option<Mode>
    ensures { result ≡ mode_of text.now }
{
    if text == "evented" {
        Some(Mode::Evented)
    } else if text == "snapshot" {
        Some(Mode::Snapshot)
    } else {
        None
    }
}

fn mode(line: &Json) -> Result<Mode, JsonLineError>
    ensures { Reads (option_and_then mode_of (data_text_at (codes "mode") (view line.now))) result }
{
    text_at(line, "mode")
        .and_then(mode_of)
        .ok_or(JsonLineError::BadLine)
}

#[tactic(auto, unfolding(crate::specs::Shapes::query_of))]
fn query(alloc: Global, line: &Json) -> Result<QueryKey, JsonLineError>
    ensures { Reads (query_of (view line.now)) result }
{
    let name = text(alloc, line, "name")?;
    let text = text(alloc, line, "text")?;
    let mode = mode(line)?;
    Ok(QueryKey::read(name, text, mode))
}

#[tactic(auto, unfolding(crate::specs::Shapes::slice_of))]
fn slice(line: &Json) -> Result<Slice, JsonLineError>
    ensures { Reads (slice_of (view line.now)) result }
{
    let lo = number(line, "lo")?;
    let hi = number(line, "hi")?;
    let cut = number(line, "cut")?;
    let moment = number(line, "moment")?;
    Ok(Slice {
        lo,
        hi,
        cut,
        moment,
    })
}

#[tactic(auto, unfolding(crate::specs::Shapes::table_of))]
fn table(alloc: Global, line: &Json) -> Result<Table, JsonLineError>
    ensures { Reads (table_of (view line.now)) result }
{
    let names = names(alloc, line)?;
    let rows = rows(alloc, line)?;
    Ok(Table { names, rows })
}

#[tactic(auto, unfolding(crate::specs::Shapes::frame_of))]
fn frame(alloc: Global, line: &Json) -> Result<Frame, JsonLineError>
    ensures { Reads (frame_of (view line.now)) result }
{
    let host = text(alloc, line, "host")?;
    let number = number(line, "number")?;
    let query = query(alloc, line)?;
    let slice = slice(line)?;
    let table = table(alloc, line)?;
    Ok(frame_of_parts(Sender { host, number }, query, slice, table))
}

/// The object has as many keys as a frame's.
fn has_keys(line: &Json) -> bool
    ensures { result ≡ has_keys (view line.now) }
{
    match line.as_object() {
        Some(members) => members.len() == KEYS,
        None => false,
    }
}

/// The object has as many keys as a frame's, and `frame` is 1.
fn has_form(line: &Json) -> bool
    ensures { result ≡ has_form (view line.now) }
{
    number_at(line, "frame") == Some(1) && has_keys(line)
}

/// The frame and the digest of an object that has exactly the keys of a frame, with values of their kinds that make a valid frame.
#[tactic(auto, unfolding(crate::specs::Shapes::shape_of))]
pub(crate) fn shape(alloc: Global, line: &Json) -> Result<Shown, JsonLineError>
    ensures { Reads (shape_of (view line.now)) result }
{
    let frame = frame(alloc, line)?;
    let digest = text(alloc, line, "sha256")?;
    if has_form(line) && frame.is_valid() {
        Ok(Shown { frame, digest })
    } else {
        Err(JsonLineError::BadLine)
    }
}
