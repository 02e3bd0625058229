//! The fields of a line.
ghost use Rattle.std.specs.Prelude.{◌≡◌, ◌<◌, ◌++◌, option_map, OnOk, Some};
ghost use Rattle.std.specs.Option.{option_to_list};
ghost use Rattle.audit_records.specs.Lines.{around, bare_value, ends_word, field_word, fields_of, is_byte, is_quote, quoted_value};
ghost use Rattle.audit_records.specs.Lines.{value_at, word_at};
ghost use Rattle.audit_records.specs.Reads.{Reads, ReadsAs};

use crate::cuts::{around_byte, behind_first, is_blank, split_at_blank, split_key};
use crate::error::AuditLineError;
use crate::line::{Field, FieldList};
use osq_value::{NoMemory, Str};
use std::alloc::Global;

/// Most fields of a line are longer, with the blank before them: so much of its text is asked one field's room for at once.
const FIELD_BYTES: usize = 8;

/// A word of a line with its field, if it has one, and the text behind the word.
#[derive(Drop)]
struct Word<'a> {
    field: Option<Field>,
    rest: &'a str,
}

/// A value without its quotes, and the text behind it.
#[derive(Clone, Copy)]
struct ReadValue<'a> {
    quoted: bool,
    text: &'a str,
    rest: &'a str,
}

/// The fields of a text, in their order.
/// BadLine where a word begins with `=`, or a quoted value has no closing quote with a blank or the end behind it.
pub fn read_fields(alloc: Global, text: &str) -> Result<FieldList, AuditLineError>
    ensures { Reads (fields_of text.now) result }
{
    let mut fields = FieldList::with_capacity(alloc, text.len() / FIELD_BYTES + 1)?;
    let mut rest = text;
    while let Some(first) = rest.as_bytes().first() {
        if is_blank(*first) {
            rest = behind_first(rest);
        } else {
            // A `?` would keep the fault itself from the proof.
            let word = match read_word(alloc, rest) {
                Ok(word) => word,
                Err(fault) => return Err(fault),
            };
            add(&mut fields, word.field)?;
            rest = word.rest;
        }
    }
    Ok(fields)
}

/// Adds a field at the end, if there is one.
fn add(fields: &mut FieldList, field: Option<Field>) -> Result<(), NoMemory>
    ensures { OnOk result (fields.new ≡ fields.old ++ option_to_list field) }
{
    match field {
        Some(field) => fields.push(field),
        None => Ok(()),
    }
}

/// The word at the front of a text.
#[tactic(auto, unfolding(crate::specs::Lines::word_at))]
fn read_word<'a>(alloc: Global, text: &'a str) -> Result<Word<'a>, AuditLineError>
    ensures { ReadsAs (λ word. record { field = word.field; rest = word.rest.now }) (word_at text.now) result }
{
    let (key, rest) = split_key(text);
    match rest.as_bytes() {
        [first, ..] if *first == b'=' => read_field(alloc, key, behind_first(rest)),
        _ => Ok(Word { field: None, rest }),
    }
}

/// The word with this key, whose value stands at the front of a text. BadLine where the key is empty or there is no value.
fn read_field<'a>(alloc: Global, key: &str, text: &'a str) -> Result<Word<'a>, AuditLineError>
    ensures { ReadsAs (λ word. record { field = word.field; rest = word.rest.now }) (field_word key.now (value_at text.now)) result }
{
    if key.is_empty() {
        return Err(AuditLineError::BadLine);
    }
    let Some(value) = value_at(text) else {
        return Err(AuditLineError::BadLine);
    };
    let key = Str::of(alloc, key)?;
    let text = Str::of(alloc, value.text)?;
    let field = Field {
        key,
        quoted: value.quoted,
        text,
    };
    Ok(Word {
        field: Some(field),
        rest: value.rest,
    })
}

/// The value at the front of a text. None where a quote isn't closed, or another byte than a blank follows the closing one.
#[tactic(auto, unfolding(crate::specs::Lines::value_at))]
fn value_at(text: &str) -> Option<ReadValue<'_>>
    ensures { option_map (λ value. record { quoted = value.quoted; text = value.text.now; rest = value.rest.now }) result
        ≡ value_at text.now }
{
    match text.as_bytes() {
        [first, ..] if is_quote(*first) => quoted_value(behind_first(text), *first),
        _ => Some(bare_value(text)),
    }
}

fn is_quote(byte: u8) -> bool
    ensures { result ≡ is_quote byte }
{
    byte == b'"' || byte == b'\''
}

/// The value that runs to the next such quote.
fn quoted_value(text: &str, quote: u8) -> Option<ReadValue<'_>>
    requires { quote < 128 }
    ensures { option_map (λ value. record { quoted = value.quoted; text = value.text.now; rest = value.rest.now }) result
        ≡ quoted_value (around (is_byte quote) text.now) }
{
    match around_byte(text, quote) {
        Some((text, rest)) if ends_word(rest) => Some(ReadValue {
            quoted: true,
            text,
            rest,
        }),
        _ => None,
    }
}

/// A word ends before this text.
fn ends_word(rest: &str) -> bool
    ensures { result ≡ ends_word rest.now }
{
    match rest.as_bytes().first() {
        Some(first) => is_blank(*first),
        None => true,
    }
}

/// The value that runs to the next blank.
fn bare_value(text: &str) -> ReadValue<'_>
    ensures { bare_value text.now ≡ Some (record { quoted = result.quoted; text = result.text.now; rest = result.rest.now }) }
{
    let (text, rest) = split_at_blank(text);
    ReadValue {
        quoted: false,
        text,
        rest,
    }
}
