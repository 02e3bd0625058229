//! Texts inside a line that none of their bytes ends or forges: a control character is written as JSON escapes it (RFC 8259, section 7).
#![tactic(auto)]

ghost use Rattle.std.specs.Prelude.{◌≡◌, ◌<◌, ◌++◌, OnOk};
ghost use Rattle.control_escapes.specs.Escapes.{escaped_control, escaped_controls, hex_digit};

use osq_value::{Bytes, NoMemory};

/// The hexadecimal digit of a number below 16, in lower case.
fn digit(number: u8) -> u8
    requires { number < 16 }
    ensures { result ≡ hex_digit number }
{
    if number < 10 {
        b'0' + number
    } else {
        b'a' - 10 + number
    }
}

/// Adds one byte to a line: one below 32 as its escape in JSON, and every other as it is. At want of memory the line is as it was.
pub fn push_byte(line: &mut Bytes, byte: u8) -> Result<(), NoMemory>
    ensures { OnOk result (line.new ≡ line.old ++ escaped_control byte) }
{
    match byte {
        8 => line.extend(b"\\b"),
        b'\t' => line.extend(b"\\t"),
        b'\n' => line.extend(b"\\n"),
        12 => line.extend(b"\\f"),
        b'\r' => line.extend(b"\\r"),
        0..=31 => line.extend(&[b'\\', b'u', b'0', b'0', digit(byte / 16), digit(byte % 16)]),
        _ => line.extend(&[byte]),
    }
}

/// Adds a text to a line, each of its bytes below 32 as its escape in JSON. At want of memory a front part of it may stand in the line.
///
/// ```
/// let mut line = Bytes::new(alloc);
/// push_text(&mut line, b"/var/log/a\nb")?;
/// line.as_slice()    // b"/var/log/a\\nb", on one line
/// ```
pub fn push_text(line: &mut Bytes, text: &[u8]) -> Result<(), NoMemory>
    ensures { OnOk result (line.new ≡ line.old ++ escaped_controls text.now) }
{
    for byte in text {
        push_byte(line, *byte)?;
    }
    Ok(())
}
