//! The socket addresses that audit lines tell of, as the kernel lays out a `sockaddr`.

ghost use Rattle.std.specs.Prelude.{◌≡◌, ◌+◌, ◌*◌, ◌==◌, ◌≤◌, [], ◌∷◌, length, IfOk};
ghost use Rattle.std.specs.List.{before_first};
ghost use Rattle.std.specs.String.{string_bytes};
ghost use Rattle.audit_records.specs.Addresses.{address_in, address_of, family_of, groups_text, inet6_address, inet6_text, inet_address, inet_text, line_address, local_address, pair_at, path_of, path_text};

use crate::line::AuditLine;
use crate::value::{field_of, has_kind, hex_bytes};
use osq_value::{NoMemory, Str};
use std::alloc::Global;

/// The families of Linux: a path in the file system, an IPv4 and an IPv6 address.
const AF_UNIX: u16 = 1;

const AF_INET: u16 = 2;

const AF_INET6: u16 = 10;

/// One end of a socket. Of a path `address` is empty and `port` is 0; of the other families `socket` is empty.
#[derive(Drop)]
pub struct Address {
    /// The kernel's number of the family: 1 a path, 2 IPv4, 10 IPv6.
    pub family: u16,
    /// The address as text: four decimals with dots, or eight groups of lower-case hexadecimal of which none is left out.
    pub address: Str,
    /// The port, from 0 to 65535.
    pub port: u16,
    /// The path; in lower-case hexadecimal where its bytes aren't UTF-8.
    pub socket: Str,
}

/// The address of the first SOCKADDR line whose `saddr` tells one: pairs of hexadecimal digits for the bytes of a `sockaddr` of one of the
/// three families, as long as its family needs.
#[tactic(auto, unfolding(crate::specs::Addresses::address_in))]
pub fn address_in(alloc: Global, lines: &[AuditLine]) -> Result<Option<Address>, NoMemory>
    ensures { IfOk result (λ found. found ≡ address_in lines.now) }
{
    for line in lines {
        if let Some(address) = line_address(alloc, line)? {
            return Ok(Some(address));
        }
    }
    Ok(None)
}

fn line_address(alloc: Global, line: &AuditLine) -> Result<Option<Address>, NoMemory>
    ensures { IfOk result (λ found. found ≡ line_address line.now) }
{
    if !has_kind(line, "SOCKADDR") {
        return Ok(None);
    }
    let Some(field) = field_of(line, "saddr") else {
        return Ok(None);
    };
    match hex_bytes(alloc, field.text.as_str())? {
        None => Ok(None),
        Some(bytes) => address_of(alloc, bytes.as_slice()),
    }
}

/// The address of a `sockaddr`. The family stands first, its low byte before its high one.
fn address_of(alloc: Global, bytes: &[u8]) -> Result<Option<Address>, NoMemory>
    ensures { IfOk result (λ found. found ≡ address_of bytes.now) }
{
    if bytes.len() < 2 {
        return Ok(None);
    }
    let family = pair(bytes[1], bytes[0]);
    if family == AF_UNIX {
        Ok(Some(local_address(alloc, bytes)?))
    } else if family == AF_INET && 8 <= bytes.len() {
        Ok(Some(inet_address(alloc, bytes)?))
    } else if family == AF_INET6 && 24 <= bytes.len() {
        Ok(Some(inet6_address(alloc, bytes)?))
    } else {
        Ok(None)
    }
}

/// The path stands behind the family, up to the first zero byte or the end.
fn local_address(alloc: Global, bytes: &[u8]) -> Result<Address, NoMemory>
    requires { 2 ≤ length bytes.now }
    ensures { IfOk result (λ found. found ≡ local_address bytes.now) }
{
    let (_family, behind) = bytes.split_at(2);
    Ok(Address {
        family: AF_UNIX,
        address: Str::empty(),
        port: 0,
        socket: path_text(alloc, before_zero(behind))?,
    })
}

fn inet_address(alloc: Global, bytes: &[u8]) -> Result<Address, NoMemory>
    requires { 8 ≤ length bytes.now }
    ensures { IfOk result (λ found. found ≡ inet_address bytes.now) }
{
    Ok(Address {
        family: AF_INET,
        address: Str::from_string(inet_text(alloc, bytes)?),
        port: pair(bytes[2], bytes[3]),
        socket: Str::empty(),
    })
}

fn inet6_address(alloc: Global, bytes: &[u8]) -> Result<Address, NoMemory>
    requires { 24 ≤ length bytes.now }
    ensures { IfOk result (λ found. found ≡ inet6_address bytes.now) }
{
    Ok(Address {
        family: AF_INET6,
        address: Str::from_string(inet6_text(alloc, bytes)?),
        port: pair(bytes[2], bytes[3]),
        socket: Str::empty(),
    })
}

/// Four decimals with dots.
fn inet_text(alloc: Global, bytes: &[u8]) -> Result<String, NoMemory>
    requires { 8 ≤ length bytes.now }
    ensures { IfOk result (λ text. string_bytes text ≡ inet_text bytes.now) }
{
    let text = format!(in alloc; "{}.{}.{}.{}", bytes[4], bytes[5], bytes[6], bytes[7])?;
    Ok(text)
}

/// Eight groups in lower-case hexadecimal without leading zeros, of which none is left out.
fn inet6_text(alloc: Global, bytes: &[u8]) -> Result<String, NoMemory>
    requires { 24 ≤ length bytes.now }
    ensures { IfOk result (λ text. string_bytes text ≡ inet6_text bytes.now) }
{
    let front = four_groups(alloc, bytes, 8)?;
    let back = four_groups(alloc, bytes, 16)?;
    let text = format!(in alloc; "{front}:{back}")?;
    Ok(text)
}

fn four_groups(alloc: Global, bytes: &[u8], at: usize) -> Result<String, NoMemory>
    requires { at + 8 ≤ length bytes.now }
    ensures { IfOk result (λ text. string_bytes text ≡ groups_text bytes.now (at ∷ (at + 2) ∷ (at + 4) ∷ (at + 6) ∷ [])) }
{
    let text = format!(in alloc;
        "{:x}:{:x}:{:x}:{:x}",
        pair(bytes[at], bytes[at + 1]),
        pair(bytes[at + 2], bytes[at + 3]),
        pair(bytes[at + 4], bytes[at + 5]),
        pair(bytes[at + 6], bytes[at + 7])
    )?;
    Ok(text)
}

fn pair(high: u8, low: u8) -> u16
    ensures { result ≡ 256 * high + low }
{
    256 * u16::from(high) + u16::from(low)
}

/// Bytes that are not UTF-8 are shown in lower-case hexadecimal.
fn path_text(alloc: Global, path: &[u8]) -> Result<Str, NoMemory>
    ensures { IfOk result (λ text. text ≡ path_text path.now) }
{
    match str::from_utf8(path) {
        Ok(text) => Str::of(alloc, text),
        Err(_) => {
            let digits = hex::encode(alloc, path)?;
            Ok(Str::from_string(digits))
        }
    }
}

/// What stands before the first zero byte, or all where there is none.
fn before_zero(bytes: &[u8]) -> &[u8]
    ensures { result.now ≡ before_first (λ byte. byte == 0) bytes.now }
{
    for at in 0..bytes.len() {
        if bytes[at] == 0 {
            let (front, _rest) = bytes.split_at(at);
            return front;
        }
    }
    bytes
}
