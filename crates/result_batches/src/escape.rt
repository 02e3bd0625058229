//! Texts inside JSON strings.

ghost use Rattle.std.specs.Prelude.{◌≡◌, ◌++◌, flat_map, OnOk};
ghost use Rattle.result_batches.specs.Json.{escaped, quoted};

use control_escapes::push_byte;
use osq_value::{Bytes, NoMemory};

/// Adds one byte of a string as JSON (RFC 8259, section 7) writes it.
fn push_escaped(line: &mut Bytes, byte: u8) -> Result<(), NoMemory>
    ensures { OnOk result (line.new ≡ line.old ++ escaped byte) }
{
    match byte {
        b'"' => line.extend(b"\\\""),
        b'\\' => line.extend(b"\\\\"),
        _ => push_byte(line, byte),
    }
}

/// The bytes that stand for themselves in front of a text, and what stands behind them.
fn plain_front(text: &[u8]) -> (&[u8], &[u8])
    ensures whole { text.now ≡ result.0.now ++ result.1.now }
    ensures plain { flat_map escaped result.0.now ≡ result.0.now }
{
    for at in 0..text.len() {
        if matches!(text[at], b'"' | b'\\' | 0..=31) {
            return text.split_at(at);
        }
    }
    text.split_at(text.len())
}

/// Adds the inside of a JSON string, run by run. At want of memory a front part of it may stand in the line.
pub fn push_inside(line: &mut Bytes, text: &[u8]) -> Result<(), NoMemory>
    ensures { OnOk result (line.new ≡ line.old ++ flat_map escaped text.now) }
{
    let (plain, mut rest) = plain_front(text);
    line.extend(plain)?;
    while let Some((byte, behind)) = rest.split_first() {
        push_escaped(line, *byte)?;
        let (plain, other) = plain_front(behind);
        line.extend(plain)?;
        rest = other;
    }
    Ok(())
}

/// Adds a text as a JSON string. At want of memory a front part of it may stand in the line.
pub fn push_quoted(line: &mut Bytes, text: &[u8]) -> Result<(), NoMemory>
    ensures { OnOk result (line.new ≡ line.old ++ quoted text.now) }
{
    line.extend(b"\"")?;
    push_inside(line, text)?;
    line.extend(b"\"")?;
    Ok(())
}
