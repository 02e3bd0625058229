//! What a line has before its fields.
ghost use Rattle.std.specs.Prelude.{◌≡◌, option_map};
ghost use Rattle.std.specs.List.{list_all};
ghost use Rattle.audit_records.specs.Lines.{fields_part, head_of, id_at, is_kind, is_kind_byte, kind_at, stamp_at, unnamed};

use crate::cuts::{around_blank, behind, behind_first, is_blank};
use crate::line::AuditId;
use crate::number::number_at;

/// The parts of a line before its fields, and the text of the fields.
#[derive(Clone, Copy)]
pub struct Head<'a> {
    /// The moment and the serial number.
    pub id: AuditId,
    /// The type, as `SYSCALL`.
    pub kind: &'a str,
    /// The text behind the head: empty, or what stands behind its blank.
    pub fields: &'a str,
}

/// Reads `node=WORD type=T msg=audit(S.M:N):`, where the node may be missing. None where the line doesn't begin so.
#[tactic(auto, unfolding(crate::specs::Lines::head_of))]
pub fn head_of(line: &str) -> Option<Head<'_>>
    ensures { option_map (λ head. record { id = head.id; kind = head.kind.now; fields = head.fields.now }) result ≡ head_of line.now }
{
    let Some(unnamed) = unnamed(line) else {
        return None;
    };
    let Some((kind, rest)) = kind_at(unnamed) else {
        return None;
    };
    let Some((id, rest)) = stamp_at(rest) else {
        return None;
    };
    let Some(fields) = fields_part(rest) else {
        return None;
    };
    Some(Head { id, kind, fields })
}

/// The line behind its node, if it names one.
#[tactic(auto, unfolding(crate::specs::Lines::unnamed))]
fn unnamed(line: &str) -> Option<&str>
    ensures { option_map (λ rest. rest.now) result ≡ unnamed line.now }
{
    let Some(rest) = behind(line, "node=") else {
        return Some(line);
    };
    match around_blank(rest) {
        Some((word, rest)) if !word.is_empty() => Some(rest),
        _ => None,
    }
}

/// The type, and the text behind its blank.
#[tactic(auto, unfolding(crate::specs::Lines::kind_at))]
fn kind_at(text: &str) -> Option<(&str, &str)>
    ensures { option_map (λ parts. (parts.0.now, parts.1.now)) result ≡ kind_at text.now }
{
    let Some(rest) = behind(text, "type=") else {
        return None;
    };
    let Some((kind, rest)) = around_blank(rest) else {
        return None;
    };
    if is_kind(kind.as_bytes()) {
        Some((kind, rest))
    } else {
        None
    }
}

/// A type is one capital letter, digit or `_` or more.
fn is_kind(text: &[u8]) -> bool
    ensures { result ≡ is_kind text.now }
{
    !text.is_empty() && are_kind_bytes(text)
}

fn are_kind_bytes(text: &[u8]) -> bool
    ensures { result ≡ list_all is_kind_byte text.now }
{
    text.iter()
        .all(|byte| matches!(*byte, b'A'..=b'Z' | b'0'..=b'9' | b'_'))
}

/// The moment and the serial number in `msg=audit(S.M:N):`, and the text behind.
#[tactic(auto, unfolding(crate::specs::Lines::stamp_at))]
fn stamp_at(text: &str) -> Option<(AuditId, &str)>
    ensures { option_map (λ read. (read.0, read.1.now)) result ≡ stamp_at text.now }
{
    let Some(rest) = behind(text, "msg=audit(") else {
        return None;
    };
    let Some((id, rest)) = id_at(rest) else {
        return None;
    };
    let Some(rest) = behind(rest, ":") else {
        return None;
    };
    Some((id, rest))
}

/// The moment and the serial number in `S.M:N)`, and the text behind.
#[tactic(auto, unfolding(crate::specs::Lines::id_at))]
fn id_at(text: &str) -> Option<(AuditId, &str)>
    ensures { option_map (λ read. (read.0, read.1.now)) result ≡ id_at text.now }
{
    let Some((seconds, rest)) = number_at(text, 1, 12, b'.') else {
        return None;
    };
    let Some((millis, rest)) = number_at(rest, 3, 3, b':') else {
        return None;
    };
    let Some((serial, rest)) = number_at(rest, 1, 20, b')') else {
        return None;
    };
    let id = AuditId {
        seconds,
        millis,
        serial,
    };
    Some((id, rest))
}

/// The text of the fields, which stands behind a blank.
fn fields_part(text: &str) -> Option<&str>
    ensures { option_map (λ rest. rest.now) result ≡ fields_part text.now }
{
    match text.as_bytes() {
        [] => Some(text),
        [first, ..] if is_blank(*first) => Some(behind_first(text)),
        _ => None,
    }
}
