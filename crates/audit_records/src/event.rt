//! The events of groups of audit lines.

ghost use Rattle.std.specs.Prelude.{◌≡◌, find, IfOk, option_copied};
ghost use Rattle.audit_records.specs.Events.{call_event, call_numbered, call_of, event_of, is_system_call, line_event};

use crate::group::AuditGroup;
use crate::line::AuditLine;
use crate::process::process_event;
use crate::socket::socket_event;
use crate::value::{has_kind, has_text, spelled_number};
use osq_value::{Event, NoMemory};
use std::alloc::Global;

/// The system calls that groups tell of.
pub enum Call {
    /// execve or execveat.
    Execution,
    /// connect.
    Connect,
    /// bind.
    Bind,
    /// accept or accept4.
    Accept,
}

/// The event of a group, by its first SYSCALL line with `arch=c000003e` (x86-64). execve and execveat with `success=yes` give a row of
/// `process_events`; connect, bind, accept and accept4 give one of `socket_events` where a SOCKADDR line of the group tells an address.
/// None exactly for every other group.
#[tactic(auto, unfolding(crate::specs::Events::event_of))]
pub fn group_event(alloc: Global, group: &AuditGroup) -> Result<Option<Event>, NoMemory>
    ensures { IfOk result (λ event. event ≡ event_of group.now) }
{
    match system_call(group.as_slice()) {
        None => Ok(None),
        Some(line) => line_event(alloc, line, group.as_slice()),
    }
}

fn system_call(lines: &[AuditLine]) -> Option<&AuditLine>
    ensures { option_copied result ≡ find is_system_call lines.now }
{
    lines.iter().find(|line| is_system_call(line))
}

fn is_system_call(line: &AuditLine) -> bool
    ensures { result ≡ is_system_call line.now }
{
    has_kind(line, "SYSCALL") && has_text(line, "arch", "c000003e")
}

fn line_event(
    alloc: Global,
    line: &AuditLine,
    lines: &[AuditLine],
) -> Result<Option<Event>, NoMemory>
    ensures { IfOk result (λ event. event ≡ line_event line.now lines.now) }
{
    match call_of(line) {
        None => Ok(None),
        Some(call) => call_event(alloc, call, line, lines),
    }
}

fn call_of(line: &AuditLine) -> Option<Call>
    ensures { result ≡ call_of line.now }
{
    match spelled_number(line, "syscall") {
        None => None,
        Some(number) => call_numbered(number),
    }
}

/// The numbers are those of x86-64.
fn call_numbered(number: i64) -> Option<Call>
    ensures { result ≡ call_numbered number }
{
    match number {
        59 => Some(Call::Execution),
        322 => Some(Call::Execution),
        42 => Some(Call::Connect),
        49 => Some(Call::Bind),
        43 => Some(Call::Accept),
        288 => Some(Call::Accept),
        _ => None,
    }
}

fn call_event(
    alloc: Global,
    call: Call,
    line: &AuditLine,
    lines: &[AuditLine],
) -> Result<Option<Event>, NoMemory>
    ensures { IfOk result (λ event. event ≡ call_event call line.now lines.now) }
{
    match call {
        Call::Execution => process_event(alloc, line, lines),
        Call::Connect => socket_event(alloc, "connect", false, line, lines),
        Call::Bind => socket_event(alloc, "bind", true, line, lines),
        Call::Accept => socket_event(alloc, "accept", false, line, lines),
    }
}
