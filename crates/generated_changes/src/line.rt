//! The lines, one by one.

ghost use Rattle.std.specs.Prelude.{◌≡◌, ◌++◌, ◌<◌, OnOk};
ghost use Rattle.std.specs.Fmt.{decimal};
ghost use Rattle.generated_changes.specs.Generated.{action_of, action_part, file_of, line_of, number_behind, path_part, time_part};

use itoa::Buffer;
use osq_value::{Bytes, NoMemory};

/// The number behind this one.
///
/// ```
/// number_behind(1)    // 7806831264735756412
/// ```
pub fn number_behind(number: u64) -> u64
    ensures { result ≡ number_behind number }
{
    number
        .wrapping_mul(6364136223846793005)
        .wrapping_add(1442695040888963407)
}

/// The name of the file that a number names, below 100.
#[tactic(auto, unfolding(crate::specs::Generated::file_of))]
fn file_of(number: u64) -> u64
    ensures { result ≡ file_of number }
{
    (number >> 33) % 100
}

/// What a number says was done to its file.
#[tactic(auto, unfolding(crate::specs::Generated::action_of, crate::specs::Generated::action_named))]
fn action_of(number: u64) -> &'static str
    ensures { result.now ≡ action_of number }
{
    match (number >> 20) % 3 {
        0 => "CREATED",
        1 => "UPDATED",
        _ => "DELETED",
    }
}

/// Adds a decimal number.
fn push_number(line: &mut Bytes, number: u64) -> Result<(), NoMemory>
    ensures { OnOk result (line.new ≡ line.old ++ decimal number) }
{
    let mut buffer = Buffer::new();
    line.extend(buffer.format(number).as_bytes())
}

/// Adds the front of a number's line: which file was changed.
fn push_path(lines: &mut Bytes, number: u64) -> Result<(), NoMemory>
    ensures { OnOk result (lines.new ≡ lines.old ++ path_part number) }
{
    lines.extend(b"{\"path\":\"/etc/f")?;
    push_number(lines, file_of(number))?;
    Ok(())
}

/// Adds what was done.
fn push_action(lines: &mut Bytes, number: u64) -> Result<(), NoMemory>
    ensures { OnOk result (lines.new ≡ lines.old ++ action_part number) }
{
    lines.extend(b"\",\"action\":\"")?;
    lines.extend(action_of(number).as_bytes())?;
    Ok(())
}

/// Adds the end of a line: when it was done.
fn push_time(lines: &mut Bytes, time: u64) -> Result<(), NoMemory>
    ensures { OnOk result (lines.new ≡ lines.old ++ time_part time) }
{
    lines.extend(b"\",\"time\":")?;
    push_number(lines, time)?;
    lines.extend(b"}\n")
}

/// Adds the change line of a number, at this moment. At want of memory a front part of it may stand there.
///
/// ```
/// push_line(&mut lines, number_behind(1), 1)?;
/// lines.as_slice()    // b"{\"path\":\"/etc/f74\",\"action\":\"DELETED\",\"time\":1}\n"
/// ```
pub fn push_line(lines: &mut Bytes, number: u64, time: u64) -> Result<(), NoMemory>
    ensures { OnOk result (lines.new ≡ lines.old ++ line_of number time) }
{
    push_path(lines, number)?;
    push_action(lines, number)?;
    push_time(lines, time)
}
