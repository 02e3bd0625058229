//! The command line of a group of audit lines.

ghost use Rattle.std.specs.Prelude.{◌≡◌, ◌+◌, [], ◌∷◌, ◌++◌, IfOk, IfSome, OnOk, Some, find, option_copied};
ghost use Rattle.std.specs.List.{concat};
ghost use Rattle.std.specs.String.{string_bytes};
ghost use Rattle.audit_records.specs.Arguments.{argument, argument_count, argument_key, command_line, count_of, execve_field, is_execve, piece_key, pieces, shown_text};
ghost use Rattle.audit_records.specs.Joins.{separator, AddsArgument};

use crate::execve::{ExecveFields, execve_field, is_execve};
use crate::line::{AuditLine, Field};
use crate::value::{spelled_number, string_value};
use osq_value::{NoMemory, Str};
use std::alloc::Global;

/// The bytes that a command line of few arguments is given room for. Most are shorter.
const SHORT_COMMAND: usize = 48;

/// So many arguments have a key that needn't be written, from `a0` on.
const EARLY_ARGUMENTS: u64 = 10;

/// The arguments 0, 1, 2 and so on of the group's EXECVE lines, with a space between each two. There are as many as `argc` of the first of
/// these lines says, and none from the first on that is missing. An argument is the text of its key, as `a1`, or where that is missing
/// the joined texts of its pieces `a1[0]`, `a1[1]` and so on, up to the first that is missing. `(null)` is shown as it is. Without an
/// EXECVE line or a number `argc` the text is empty. At most ten arguments, none of them cut into pieces, are looked for in the lines; else it
/// walks over the fields once, and looks up one key for each argument and piece.
pub fn command_line(alloc: Global, lines: &[AuditLine]) -> Result<Str, NoMemory>
    ensures { IfOk result (λ text. text ≡ command_line lines.now) }
{
    match short_command(alloc, lines)? {
        Some(text) => Ok(text),
        None => indexed_command(alloc, lines),
    }
}

/// The command line where it has at most ten arguments and none of them is cut or missing. No index is made for it, and no key is written.
fn short_command(alloc: Global, lines: &[AuditLine]) -> Result<Option<Str>, NoMemory>
    ensures { IfOk result (λ found. IfSome found (λ text. text ≡ command_line lines.now)) }
{
    let count = argument_count(lines);
    if count > EARLY_ARGUMENTS {
        return Ok(None);
    }
    let mut text = String::with_capacity(alloc, SHORT_COMMAND)?;
    for place in 0..count {
        let Some(field) = early_argument(lines, place) else {
            return Ok(None);
        };
        push_separator(&mut text, place)?;
        push_shown(alloc, &mut text, field)?;
    }
    // The copy takes no more memory than its bytes, and none where it lies in the value itself.
    Ok(Some(Str::of(alloc, text.as_str())?))
}

/// The field of one of the first ten arguments, where the argument isn't cut into pieces.
fn early_argument(lines: &[AuditLine], place: u64) -> Option<&Field>
    ensures { IfSome result (λ field. execve_field (argument_key place) lines.now ≡ Some field.now) }
{
    let Some(key) = early_key(place) else {
        return None;
    };
    execve_field(lines, key)
}

/// The key of one of the first ten arguments.
fn early_key(place: u64) -> Option<&'static str>
    ensures { IfSome result (λ key. key.now ≡ argument_key place) }
{
    match place {
        0 => Some("a0"),
        1 => Some("a1"),
        2 => Some("a2"),
        3 => Some("a3"),
        4 => Some("a4"),
        5 => Some("a5"),
        6 => Some("a6"),
        7 => Some("a7"),
        8 => Some("a8"),
        9 => Some("a9"),
        _ => None,
    }
}

/// The command line by an index of the fields.
fn indexed_command(alloc: Global, lines: &[AuditLine]) -> Result<Str, NoMemory>
    ensures { IfOk result (λ text. text ≡ command_line lines.now) }
{
    let fields = ExecveFields::of(alloc, lines)?;
    let mut text = String::new(alloc);
    // Whatever `argc` says, this ends at the first argument that the fields lack.
    for place in 0..argument_count(lines) {
        if !push_argument(alloc, &mut text, &fields, place)? {
            return Ok(Str::from_string(text));
        }
    }
    Ok(Str::from_string(text))
}

fn argument_count(lines: &[AuditLine]) -> u64
    ensures { result ≡ argument_count lines.now }
{
    match first_execve(lines) {
        None => 0,
        Some(line) => match spelled_number(line, "argc") {
            None => 0,
            Some(number) => count_of(number),
        },
    }
}

fn first_execve(lines: &[AuditLine]) -> Option<&AuditLine>
    ensures { option_copied result ≡ find is_execve lines.now }
{
    lines.iter().find(|line| is_execve(line))
}

/// A count below 0 is 0.
fn count_of(number: i64) -> u64
    ensures { result ≡ count_of number }
{
    match u64::try_from(number) {
        Ok(count) => count,
        Err(_) => 0,
    }
}

/// Adds an argument, with a space before it where it isn't the first. False where it is missing, and the text is as before.
fn push_argument(
    alloc: Global,
    text: &mut String,
    fields: &ExecveFields,
    place: u64,
) -> Result<bool, NoMemory>
    ensures { IfOk result (AddsArgument place (argument place fields.now.lines.now) (string_bytes text.old) (string_bytes text.new)) }
{
    let key = argument_key(alloc, place)?;
    if let Some(field) = fields.get(key.as_str()) {
        push_separator(text, place)?;
        push_shown(alloc, text, field)?;
        return Ok(true);
    }
    let first_piece = piece_key(alloc, place, 0)?;
    if fields.get(first_piece.as_str()).is_none() {
        return Ok(false);
    }
    push_separator(text, place)?;
    push_pieces(alloc, text, fields, place)?;
    Ok(true)
}

fn push_separator(text: &mut String, place: u64) -> Result<(), NoMemory>
    ensures { OnOk result (string_bytes text.new ≡ string_bytes text.old ++ separator place) }
{
    if place != 0 {
        text.push_str(" ")?;
    }
    Ok(())
}

/// Adds the pieces of an argument, from the first on.
fn push_pieces(
    alloc: Global,
    text: &mut String,
    fields: &ExecveFields,
    place: u64,
) -> Result<(), NoMemory>
    ensures { OnOk result (string_bytes text.new ≡ string_bytes text.old ++ concat (pieces place fields.now.lines.now)) }
{
    // A group has no more pieces than fields, so this ends where one is missing.
    for piece in 0..u64::MAX {
        let key = piece_key(alloc, place, piece)?;
        match fields.get(key.as_str()) {
            None => return Ok(()),
            Some(field) => push_shown(alloc, text, field)?,
        }
    }
    Ok(())
}

fn push_shown(alloc: Global, text: &mut String, field: &Field) -> Result<(), NoMemory>
    ensures { OnOk result (string_bytes text.new ≡ string_bytes text.old ++ shown_text field.now) }
{
    match string_value(alloc, "EXECVE", field)? {
        None => text.push_str("(null)")?,
        Some(shown) => text.push_str(shown.as_str())?,
    }
    Ok(())
}

fn argument_key(alloc: Global, place: u64) -> Result<String, NoMemory>
    ensures { IfOk result (λ key. string_bytes key ≡ argument_key place) }
{
    let key = format!(in alloc; "a{place}")?;
    Ok(key)
}

fn piece_key(alloc: Global, place: u64, piece: u64) -> Result<String, NoMemory>
    ensures { IfOk result (λ key. string_bytes key ≡ piece_key place piece) }
{
    let key = format!(in alloc; "a{place}[{piece}]")?;
    Ok(key)
}
