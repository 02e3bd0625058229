//! The rows of calls on sockets.

ghost use Rattle.std.specs.Prelude.{◌≡◌, ◌+◌, ◌*◌, ◌^◌, ◌≤◌, ◌<◌, pos, IfOk, MatchOption, option_map};
ghost use Rattle.hex.specs.Hex.{hex_digit_value};
ghost use Rattle.audit_records.specs.Addresses.{address_in};
ghost use Rattle.audit_records.specs.Events.{descriptor_of, descriptor_text, hex_number, located_event, status_of};

use crate::address::{Address, address_in};
use crate::line::AuditLine;
use crate::value::{field_of, has_succeeded, number_value, text_value, time_of};
use osq_value::{Event, NoMemory, Row, Str, TableId, Value};
use std::alloc::Global;

/// The event of a call on a socket, where the group tells an address: the local one where `is_local`, else the remote one. Nothing is
/// known of the other end.
pub fn socket_event(
    alloc: Global,
    action: &str,
    is_local: bool,
    line: &AuditLine,
    lines: &[AuditLine],
) -> Result<Option<Event>, NoMemory>
    ensures { IfOk result (λ event. event ≡ option_map (located_event action.now is_local line.now) (address_in lines.now)) }
{
    match address_in(alloc, lines)? {
        None => Ok(None),
        Some(address) => Ok(Some(Event {
            table: TableId::SOCKET_EVENTS,
            row: row(alloc, action, is_local, line, address)?,
        })),
    }
}

fn row(
    alloc: Global,
    action: &str,
    is_local: bool,
    line: &AuditLine,
    found: Address,
) -> Result<Row, NoMemory>
    ensures { IfOk result (λ row. row ≡ (located_event action.now is_local line.now found).row) }
{
    let port = i64::from(found.port);
    let empty = Str::empty();
    let (local_address, remote_address, local_port, remote_port) = if is_local {
        (found.address, empty, port, 0)
    } else {
        (empty, found.address, 0, port)
    };
    let mut row = Row::with_capacity(alloc, 13)?;
    row.push(Value::Text(Str::of(alloc, action)?))?;
    row.push(number_value(line, "pid"))?;
    row.push(text_value(alloc, line, "exe")?)?;
    row.push(descriptor_of(alloc, line)?)?;
    row.push(number_value(line, "auid"))?;
    row.push(Value::Text(status_of(alloc, line)?))?;
    row.push(Value::Int(i64::from(found.family)))?;
    row.push(Value::Text(local_address))?;
    row.push(Value::Text(remote_address))?;
    row.push(Value::Int(local_port))?;
    row.push(Value::Int(remote_port))?;
    row.push(Value::Text(found.socket))?;
    row.push(time_of(line))?;
    row.shared(alloc)
}

fn status_of(alloc: Global, line: &AuditLine) -> Result<Str, NoMemory>
    ensures { IfOk result (λ text. text ≡ status_of line.now) }
{
    if has_succeeded(line) {
        Str::of(alloc, "succeeded")
    } else {
        Str::of(alloc, "failed")
    }
}

/// The descriptor's number in decimal, which `a0` tells in hexadecimal.
fn descriptor_of(alloc: Global, line: &AuditLine) -> Result<Value, NoMemory>
    ensures { IfOk result (λ value. value ≡ descriptor_of line.now) }
{
    match field_of(line, "a0") {
        None => Ok(Value::Null),
        Some(field) => match hex_number(field.text.as_str().as_bytes()) {
            None => Ok(Value::Null),
            Some(number) => descriptor_text(alloc, number),
        },
    }
}

fn descriptor_text(alloc: Global, number: u64) -> Result<Value, NoMemory>
    ensures { IfOk result (λ value. value ≡ descriptor_text number) }
{
    if number < 1 << 63 {
        let text = number.to_string(alloc)?;
        Ok(Value::Text(Str::from_string(text)))
    } else {
        Ok(Value::Null)
    }
}

/// What 1 to 16 hexadecimal digits of either case spell.
fn hex_number(text: &[u8]) -> Option<u64>
    ensures { result ≡ hex_number text.now }
{
    if text.is_empty() || 16 < text.len() {
        return None;
    }
    let mut number = 0u64;
    for byte in text {
        let Some(digit) = hex_digit(*byte) else {
            return None;
        };
        number = 16 * number + u64::from(digit);
    }
    Some(number)
}

fn hex_digit(byte: u8) -> Option<u8>
    ensures { result ≡ hex_digit_value byte }
{
    match byte {
        b'A'..=b'F' => Some(byte - b'A' + 10),
        b'a'..=b'f' => Some(byte - b'a' + 10),
        b'0'..=b'9' => Some(byte - b'0'),
        _ => None,
    }
}
