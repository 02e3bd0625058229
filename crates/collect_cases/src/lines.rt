//! Lines of rows, made without the code that is tried.

use case_text::{bytes_of, items_of};
use osq_value::{Bytes, NoMemory};
use serde_json::Value as Json;
use sha2::{Digest, Sha256};
use std::alloc::Global;

/// Adds a text, its digest as a frame has it, and a line feed.
fn push_hashed(alloc: Global, bytes: &mut Bytes, body: &str) -> Result<(), NoMemory> {
    let digits = hex::encode(alloc, &Sha256::digest(body.as_bytes()))?;
    bytes.extend(body.as_bytes())?;
    bytes.extend(b",\"sha256\":\"")?;
    bytes.extend(digits.as_bytes())?;
    bytes.extend(b"\"}\n")
}

/// The text at a place of an array; the empty one where none is there.
fn text_at(items: &[Json], at: usize) -> &str {
    items.get(at).and_then(Json::as_str).unwrap_or("")
}

/// The number at a place of an array, or another where none is there.
fn number_at(items: &[Json], at: usize, other: u64) -> u64 {
    items.get(at).and_then(Json::as_u64).unwrap_or(other)
}

/// What stands before the digest of the frame of an item.
fn body_of(alloc: Global, item: &[Json]) -> Result<String, NoMemory> {
    let host = text_at(item, 0);
    let number = number_at(item, 1, 0);
    let value = text_at(item, 2);
    let mut body = String::new(alloc);
    write!(
        body,
        "{{\"frame\":1,\"host\":\"{host}\",\"number\":{number},\"name\":\"u\","
    )?;
    body.push_str("\"text\":\"SELECT username FROM users\",\"mode\":\"evented\",")?;
    body.push_str("\"lo\":0,\"hi\":2,\"cut\":4,\"moment\":1000,")?;
    write!(body, "\"names\":[\"username\"],\"rows\":[[\"{value}\"]]")?;
    Ok(body)
}

/// Adds the line of the frame of an item, or so many of its first bytes.
fn push_frame(alloc: Global, bytes: &mut Bytes, item: &[Json]) -> Result<(), NoMemory> {
    let body = body_of(alloc, item)?;
    let mut line = Bytes::new(alloc);
    push_hashed(alloc, &mut line, body.as_str())?;
    let count = usize::try_from(number_at(item, 3, u64::MAX)).unwrap_or(usize::MAX);
    let (front, _) = line.as_slice().split_at(count.min(line.len()));
    bytes.extend(front)
}

fn push_part(alloc: Global, bytes: &mut Bytes, part: &Json) -> Result<(), NoMemory> {
    if part.is_array() {
        return push_frame(alloc, bytes, items_of(Some(part)));
    }
    match part.get("hashed").and_then(Json::as_str) {
        Some(body) => push_hashed(alloc, bytes, body),
        None => bytes.extend(bytes_of(alloc, part)?.as_slice()),
    }
}

/// The bytes of parts, one behind another.
pub(crate) fn bytes_of_parts(alloc: Global, parts: Option<&Json>) -> Result<Bytes, NoMemory> {
    let mut bytes = Bytes::new(alloc);
    for part in items_of(parts) {
        push_part(alloc, &mut bytes, part)?;
    }
    Ok(bytes)
}
