//! A text as it is read: without its calls.

ghost use Rattle.std.specs.Prelude.{◌≡◌, ◌++◌, replicate, IfOk, OnOk};
ghost use Rattle.std.specs.Str.Lossy.{utf8_lossy};
ghost use Rattle.custom_tables.specs.Reading.{between as bytes_between, call_name as name_of_call, padding, read_from, replacement as replacement_of, table_part};

use crate::call::Call;
use osq_value::{NoMemory, Str};
use sql_tree::tree::Name;
use std::alloc::{AllocError, Global};

/// The bytes from one place to before another.
fn between(text: &[u8], start: usize, end: usize) -> &[u8]
    ensures { result.now ≡ bytes_between text.now start end }
{
    let end = end.min(text.len());
    let start = start.min(end);
    &text[start..end]
}

/// The name of the hidden column of the call of that number, from 1.
pub fn call_name(alloc: Global, number: u64) -> Result<Str, NoMemory>
    ensures { IfOk result (λ name. name ≡ name_of_call number) }
{
    let mut name = String::from_str(alloc, "#r")?;
    name.push_str(number.to_string(alloc)?.as_str())?;
    Ok(Str::from_string(name))
}

/// The bytes of a table's name and a dot, where there is such a name.
fn push_table(bytes: &mut Vec<u8>, text: &[u8], table: Option<Name>) -> Result<(), NoMemory>
    ensures { OnOk result (bytes.new.items ≡ bytes.old.items ++ table_part text.now table) }
{
    if let Some(name) = table {
        bytes.extend_from_slice(between(text, name.span.start, name.span.end))?;
        bytes.extend_from_slice(b".")?;
    }
    Ok(())
}

/// What the call of that number is read as.
fn replacement(alloc: Global, text: &[u8], number: u64, call: Call) -> Result<Vec<u8>, NoMemory>
    ensures { IfOk result (λ made. made.items ≡ replacement_of text.now number call) }
{
    let mut made = Vec::new(alloc);
    push_table(&mut made, text, call.table)?;
    made.extend_from_slice(b"\"")?;
    made.extend_from_slice(call_name(alloc, number)?.as_str().as_bytes())?;
    made.extend_from_slice(b"\"")?;
    Ok(made)
}

/// So many blanks.
fn blanks(alloc: Global, count: usize) -> Result<Vec<u8>, AllocError>
    ensures { IfOk result (λ made. made.items ≡ replicate count 32) }
{
    vec![in alloc; b' '; count]
}

/// What the call of that number is read as, and blanks up to the call's length.
fn push_call(
    alloc: Global,
    bytes: &mut Vec<u8>,
    text: &[u8],
    number: u64,
    call: Call,
) -> Result<(), NoMemory>
    ensures { OnOk result (bytes.new.items ≡ bytes.old.items ++ replacement_of text.now number call ++ padding text.now number call) }
{
    let made = replacement(alloc, text, number, call)?;
    bytes.extend_from_slice(made.as_slice())?;
    let width = call.span.end.saturating_sub(call.span.start);
    bytes.extend_from_slice(blanks(alloc, width.saturating_sub(made.len()))?.as_slice())?;
    Ok(())
}

/// The text in which each call is the name of its hidden column, with the table's name before it where the call has one, and with blanks
/// behind it, so that every other byte stands at its place.
///
/// ```
/// // SELECT regex_match(l.msg, 'a', 1) FROM login l
/// // SELECT l."#r1"                    FROM login l
/// ```
pub fn text_as_read(alloc: Global, text: &str, calls: &[Call]) -> Result<Str, NoMemory>
    ensures { IfOk result (λ read. read ≡ utf8_lossy (read_from text.now 0 1 calls.now)) }
{
    let bytes = text.as_bytes();
    let mut read = Vec::with_capacity(alloc, bytes.len())?;
    let mut place = 0;
    let mut number = 1u64;
    for call in calls {
        read.extend_from_slice(between(bytes, place, call.span.start))?;
        push_call(alloc, &mut read, bytes, number, *call)?;
        place = call.span.end;
        number += 1;
    }
    read.extend_from_slice(between(bytes, place, bytes.len()))?;
    Ok(Str::from_string(String::from_utf8_lossy(alloc, &read)?))
}
