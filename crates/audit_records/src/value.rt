//! What the fields of audit lines say.

ghost use Rattle.std.specs.Prelude.{◌≡◌, ◌≤◌, length, IfOk, option_and_then, option_copied, option_map};
ghost use Rattle.std.specs.List.{prefix_len};
ghost use Rattle.std.specs.String.{string_bytes};
ghost use Rattle.osq_value.specs.Spelling.{is_digit};
ghost use Rattle.audit_records.specs.FieldValues.{decoded, field_of, has_kind, has_succeeded, has_text, hex_bytes, hex_text, is_argument_key, is_bracketed, is_index, is_string_key, number_in, number_value, spelled_number, string_value, text_in, text_of, text_or_null, time_of, utf8_text, value_text};

use crate::line::{AuditLine, Field};
use hex::FromHexError;
use osq_value::{Copied, NoMemory, Str, Value, int_spelling};
use std::alloc::Global;

/// The line has this type.
pub fn has_kind(line: &AuditLine, kind: &str) -> bool
    ensures { result ≡ has_kind kind.now line.now }
{
    line.kind.as_str() == kind
}

/// The first field of the line with this key.
pub fn field_of<'a>(line: &'a AuditLine, key: &str) -> Option<&'a Field>
    ensures { option_copied result ≡ field_of key.now line.now }
{
    line.fields
        .as_slice()
        .iter()
        .find(|field| field.key.as_str() == key)
}

/// The line has this key, with this text.
pub fn has_text(line: &AuditLine, key: &str, text: &str) -> bool
    ensures { result ≡ has_text key.now text.now line.now }
{
    match field_of(line, key) {
        None => false,
        Some(field) => field.text.as_str() == text,
    }
}

/// The whole number within 64 bits that the text of a key spells.
pub fn spelled_number(line: &AuditLine, key: &str) -> Option<i64>
    ensures { result ≡ spelled_number key.now line.now }
{
    match field_of(line, key) {
        None => None,
        Some(field) => int_spelling(field.text.as_str().as_bytes()),
    }
}

/// The number of a key as a column holds it: Null where its text spells none, and where the key is missing.
pub fn number_value(line: &AuditLine, key: &str) -> Value
    ensures { result ≡ number_value key.now line.now }
{
    number_in(field_of(line, key))
}

/// The number of a field as a column holds it: Null where its text spells none, and where there is no field.
pub fn number_in(field: Option<&Field>) -> Value
    ensures { result ≡ number_in (option_copied field.entry) }
{
    let Some(field) = field else {
        return Value::Null;
    };
    match int_spelling(field.text.as_str().as_bytes()) {
        None => Value::Null,
        Some(number) => Value::Int(number),
    }
}

/// What a field of a line of type `kind` says as a text: what stood between its quotes, or its value. An unquoted `(null)` says nothing.
/// Where the key is one of those whose values the kernel writes in hexadecimal as it needs, an unquoted value that is pairs of
/// hexadecimal digits of either case is the text that they stand for, if that is UTF-8.
pub fn string_value(alloc: Global, kind: &str, field: &Field) -> Result<Option<Str>, NoMemory>
    ensures { IfOk result (λ value. value ≡ string_value kind.now field.now) }
{
    if field.quoted {
        return Ok(Some(field.text.copy(alloc)?));
    }
    if field.text.as_str() == "(null)" {
        return Ok(None);
    }
    if is_string_key(kind, field.key.as_str()) {
        Ok(Some(decoded(alloc, &field.text)?))
    } else {
        Ok(Some(field.text.copy(alloc)?))
    }
}

/// The text of a key as a column holds it: Null where it is `(null)`, and where the key is missing.
pub fn text_value(alloc: Global, line: &AuditLine, key: &str) -> Result<Value, NoMemory>
    ensures { IfOk result (λ value. value ≡ value_text key.now line.now) }
{
    text_in(alloc, line.kind.as_str(), field_of(line, key))
}

/// The text of a field of a line of type `kind`, as a column holds it: Null where it is `(null)`, and where there is no field.
pub fn text_in(alloc: Global, kind: &str, field: Option<&Field>) -> Result<Value, NoMemory>
    ensures { IfOk result (λ value. value ≡ text_in kind.now (option_copied field.entry)) }
{
    let Some(field) = field else {
        return Ok(Value::Null);
    };
    match string_value(alloc, kind, field)? {
        None => Ok(Value::Null),
        Some(text) => Ok(Value::Text(text)),
    }
}

/// The call ended well.
pub fn has_succeeded(line: &AuditLine) -> bool
    ensures { result ≡ has_succeeded line.now }
{
    has_text(line, "success", "yes")
}

/// The second of the event. A column cannot hold one from 2^63 on, which no line of a log tells: it is Null.
pub fn time_of(line: &AuditLine) -> Value
    ensures { result ≡ time_of line.now }
{
    match i64::try_from(line.id.seconds) {
        Ok(seconds) => Value::Int(seconds),
        Err(_) => Value::Null,
    }
}

/// The text that hexadecimal digits stand for, or the text itself.
fn decoded(alloc: Global, text: &Str) -> Result<Str, NoMemory>
    ensures { IfOk result (λ value. value ≡ decoded text.now) }
{
    match hex_text(alloc, text.as_str())? {
        Some(decoded) => Ok(Str::from_string(decoded)),
        None => text.copy(alloc),
    }
}

/// The text that pairs of hexadecimal digits stand for, where there are such and their bytes are UTF-8.
fn hex_text(alloc: Global, text: &str) -> Result<Option<String>, NoMemory>
    ensures { IfOk result (λ found. option_map string_bytes found ≡ hex_text text.now) }
{
    if text.is_empty() {
        return Ok(None);
    }
    match hex_bytes(alloc, text)? {
        None => Ok(None),
        Some(bytes) => Ok(utf8_text(bytes)),
    }
}

/// The bytes as a text, where they are UTF-8.
fn utf8_text(bytes: Vec<u8>) -> Option<String>
    ensures { option_map string_bytes result ≡ utf8_text bytes.items }
{
    match String::from_utf8(bytes) {
        Ok(text) => Some(text),
        Err(_) => None,
    }
}

/// The bytes that pairs of hexadecimal digits stand for, where the text has no other byte.
pub fn hex_bytes(alloc: Global, text: &str) -> Result<Option<Vec<u8>>, NoMemory>
    ensures { IfOk result (λ found. option_map (λ bytes. bytes.items) found ≡ hex_bytes text.now) }
{
    match hex::decode(alloc, text) {
        Ok(bytes) => Ok(Some(bytes)),
        Err(error) => {
            if error == FromHexError::OutOfMemory {
                Err(NoMemory)
            } else {
                Ok(None)
            }
        }
    }
}

/// The key's unquoted values may be hexadecimal, in a line of type `kind`.
fn is_string_key(kind: &str, key: &str) -> bool
    ensures { result ≡ is_string_key kind.now key.now }
{
    matches!(key, "exe" | "cwd" | "name" | "comm" | "proctitle" | "acct")
        || kind == "EXECVE" && is_argument_key(key.as_bytes())
}

/// The key of an argument, as `a1`, or of a piece of one, as `a1[0]`.
fn is_argument_key(key: &[u8]) -> bool
    ensures { result ≡ is_argument_key key.now }
{
    match key.split_first() {
        None => false,
        Some((byte, rest)) => *byte == b'a' && is_index(rest),
    }
}

fn is_index(text: &[u8]) -> bool
    ensures { result ≡ is_index text.now }
{
    let (digits, rest) = text.split_at(digits_in_front(text));
    !digits.is_empty() && (rest.is_empty() || is_bracketed(rest))
}

fn is_bracketed(text: &[u8]) -> bool
    ensures { result ≡ is_bracketed text.now }
{
    match text.split_first() {
        None => false,
        Some((byte, inside)) => {
            let (digits, rest) = inside.split_at(digits_in_front(inside));
            *byte == b'[' && !digits.is_empty() && rest == b"]".as_slice()
        }
    }
}

/// How many decimal digits the text begins with.
fn digits_in_front(text: &[u8]) -> usize
    ensures count { result ≡ prefix_len is_digit text.now }
    ensures within { result ≤ length text.now }
{
    for at in 0..text.len() {
        if !text[at].is_ascii_digit() {
            return at;
        }
    }
    text.len()
}
