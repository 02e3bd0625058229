//! The rows of started programs.

ghost use Rattle.std.specs.Prelude.{◌≡◌, find, IfOk, option_copied};
ghost use Rattle.std.specs.Option.{option_or};
ghost use Rattle.audit_records.specs.CallFields.{each_or, first_fields, found_of, placed};
ghost use Rattle.audit_records.specs.Events.{cwd_of, execution_event, is_first_path, is_working_directory, mode_of, process_row};
ghost use Rattle.audit_records.specs.Indexes.{with_key};

use crate::arguments::command_line;
use crate::line::{AuditLine, Field};
use crate::value::{
    field_of, has_kind, has_succeeded, has_text, number_in, text_in, text_value, time_of,
};
use osq_value::{Copied, Event, NoMemory, Row, TableId, Value};
use std::alloc::Global;

/// The event of a call that runs a program, where it succeeded.
pub fn process_event(
    alloc: Global,
    line: &AuditLine,
    lines: &[AuditLine],
) -> Result<Option<Event>, NoMemory>
    ensures { IfOk result (λ event. event ≡ execution_event line.now lines.now) }
{
    if !has_succeeded(line) {
        return Ok(None);
    }
    Ok(Some(Event {
        table: TableId::PROCESS_EVENTS,
        row: process_row(alloc, line, lines)?,
    }))
}

/// The fields of a system call's line that a row shows, each the first with its key.
#[derive(Clone, Copy)]
struct CallFields<'a> {
    pid: Option<&'a Field>,
    exe: Option<&'a Field>,
    auid: Option<&'a Field>,
    uid: Option<&'a Field>,
    euid: Option<&'a Field>,
    gid: Option<&'a Field>,
    egid: Option<&'a Field>,
    ppid: Option<&'a Field>,
}

/// Finds them in one walk over the line.
fn call_fields(line: &AuditLine) -> CallFields<'_>
    ensures { found_of result ≡ first_fields line.now }
{
    let mut found = CallFields {
        pid: None,
        exe: None,
        auid: None,
        uid: None,
        euid: None,
        gid: None,
        egid: None,
        ppid: None,
    };
    for field in line.fields.as_slice() {
        found = with_field(found, field);
    }
    found
}

/// What was found, and the field where it has one of the keys and none with that key was found before.
#[inline(always)]
fn with_field<'a>(found: CallFields<'a>, field: &'a Field) -> CallFields<'a>
    ensures { found_of result ≡ each_or (found_of found.entry) (placed field.now) }
{
    CallFields {
        pid: first("pid", found.pid, field),
        exe: first("exe", found.exe, field),
        auid: first("auid", found.auid, field),
        uid: first("uid", found.uid, field),
        euid: first("euid", found.euid, field),
        gid: first("gid", found.gid, field),
        egid: first("egid", found.egid, field),
        ppid: first("ppid", found.ppid, field),
    }
}

/// What was found of a key, and else the field where this is its key. A key of another length isn't compared.
#[inline(always)]
fn first<'a>(key: &str, found: Option<&'a Field>, field: &'a Field) -> Option<&'a Field>
    ensures { option_copied result ≡ option_or (option_copied found.entry) (with_key key.now field.now) }
{
    if found.is_none() && field.key.len() == key.len() && field.key.as_str() == key {
        Some(field)
    } else {
        found
    }
}

fn process_row(alloc: Global, line: &AuditLine, lines: &[AuditLine]) -> Result<Row, NoMemory>
    ensures { IfOk result (λ row. row ≡ process_row line.now lines.now) }
{
    let found = call_fields(line);
    Row::of_twelve(
        alloc,
        [
            number_in(found.pid),
            text_in(alloc, line.kind.as_str(), found.exe)?,
            mode_of(alloc, lines)?,
            Value::Text(command_line(alloc, lines)?),
            cwd_of(alloc, lines)?,
            number_in(found.auid),
            number_in(found.uid),
            number_in(found.euid),
            number_in(found.gid),
            number_in(found.egid),
            number_in(found.ppid),
            time_of(line),
        ],
    )
}

/// The text of `mode` in the line of the first path.
fn mode_of(alloc: Global, lines: &[AuditLine]) -> Result<Value, NoMemory>
    ensures { IfOk result (λ value. value ≡ mode_of lines.now) }
{
    match first_path(lines) {
        None => Ok(Value::Null),
        Some(line) => match field_of(line, "mode") {
            None => Ok(Value::Null),
            Some(field) => Ok(Value::Text(field.text.copy(alloc)?)),
        },
    }
}

fn first_path(lines: &[AuditLine]) -> Option<&AuditLine>
    ensures { option_copied result ≡ find is_first_path lines.now }
{
    lines.iter().find(|line| is_first_path(line))
}

fn is_first_path(line: &AuditLine) -> bool
    ensures { result ≡ is_first_path line.now }
{
    has_kind(line, "PATH") && has_text(line, "item", "0")
}

/// The string value of `cwd` in the first CWD line.
fn cwd_of(alloc: Global, lines: &[AuditLine]) -> Result<Value, NoMemory>
    ensures { IfOk result (λ value. value ≡ cwd_of lines.now) }
{
    match working_directory(lines) {
        None => Ok(Value::Null),
        Some(line) => text_value(alloc, line, "cwd"),
    }
}

fn working_directory(lines: &[AuditLine]) -> Option<&AuditLine>
    ensures { option_copied result ≡ find is_working_directory lines.now }
{
    lines.iter().find(|line| has_kind(line, "CWD"))
}
