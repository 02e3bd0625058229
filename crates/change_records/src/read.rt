ghost use Rattle.std.specs.Prelude.{◌≡◌};
ghost use Rattle.change_records.specs.Changes.{action_of, change_of, change_with, numbers_of, path_of};
ghost use Rattle.change_records.specs.Members.{held};
ghost use Rattle.change_records.specs.Reads.{Reads, ReadsLine};
ghost use Rattle.change_records.specs.Tokens.{ReadsTokens};

use crate::change::Change;
use crate::error::JsonLineError;
use crate::field::{number_in, value_in};
use crate::members::Members;
use crate::token::Shallow;
use json::{Reader, Scratch};
use osq_value::{Str, Value};
use simdutf8::compat::from_utf8;
use std::alloc::Global;

/// Reads a change line: one JSON object. `path` begins with `/`, and `action` has 1 to 64 bytes. `inode`, `uid`, `gid`, `size`, `mtime` and
/// `time` are whole numbers within 64 bits, or texts that spell them, or null or missing; `mode` is a text, null or missing. Every other
/// key is ignored. BadLine exactly where the text isn't in this form.
///
/// JSON is that of RFC 8259, and of equal keys the last counts.
///
/// ```
/// let change = read_change(alloc, &mut scratch, b"{\"path\":\"/etc/a\",\"action\":\"CREATED\",\"time\":1}")?;
/// change.path.as_str()      // "/etc/a"
/// change.time               // Value::Int(1)
/// change.mode               // Value::Null: the line has no such key
/// read_change(alloc, &mut scratch, b"{\"path\":\"etc\",\"action\":\"CREATED\"}")   // Err(JsonLineError::BadLine)
/// ```
pub fn read_change(
    alloc: Global,
    scratch: &mut Scratch,
    text: &[u8],
) -> Result<Change, JsonLineError>
    ensures { ReadsLine change_of text.now result }
{
    let Ok(text) = from_utf8(text) else {
        return Err(JsonLineError::BadLine);
    };
    let mut reader = Reader::new(text, scratch)?;
    change(alloc, &mut reader)
}

fn change(alloc: Global, reader: &mut Reader<'_>) -> Result<Change, JsonLineError>
    ensures { ReadsTokens change_of reader.old result }
{
    let mut members = Members::none();
    let Ok(()) = members.read_line(reader) else {
        return Err(JsonLineError::BadLine);
    };
    change_with(alloc, members)
}

#[tactic(auto, unfolding(crate::specs::Changes::change_with))]
fn change_with(alloc: Global, members: Members<'_>) -> Result<Change, JsonLineError>
    ensures { Reads (change_with (held members.entry.path) (held members.entry.action) (held members.entry.inode) (held members.entry.uid)
        (held members.entry.gid) (held members.entry.size) (held members.entry.mtime) (held members.entry.mode) (held members.entry.time)) result }
{
    let path = path(alloc, members.path)?;
    let action = action(alloc, members.action)?;
    let numbers = numbers(members)?;
    let mode = value_in(alloc, members.mode)?;
    let time = number_in(members.time)?;
    Ok(Change {
        path,
        action,
        numbers,
        mode,
        time,
    })
}

fn path(alloc: Global, member: Option<Shallow<'_>>) -> Result<Str, JsonLineError>
    ensures { Reads (path_of (held member.entry)) result }
{
    let Some(Shallow::Text(path)) = member else {
        return Err(JsonLineError::BadLine);
    };
    if path.as_bytes().first() == Some(&b'/') {
        Ok(Str::of(alloc, path)?)
    } else {
        Err(JsonLineError::BadLine)
    }
}

fn action(alloc: Global, member: Option<Shallow<'_>>) -> Result<Str, JsonLineError>
    ensures { Reads (action_of (held member.entry)) result }
{
    let Some(Shallow::Text(action)) = member else {
        return Err(JsonLineError::BadLine);
    };
    if 1 <= action.len() && action.len() <= 64 {
        Ok(Str::of(alloc, action)?)
    } else {
        Err(JsonLineError::BadLine)
    }
}

fn numbers(members: Members<'_>) -> Result<[Value; 5], JsonLineError>
    ensures { Reads (numbers_of (held members.entry.inode) (held members.entry.uid) (held members.entry.gid) (held members.entry.size) (held members.entry.mtime)) result }
{
    let inode = number_in(members.inode)?;
    let uid = number_in(members.uid)?;
    let gid = number_in(members.gid)?;
    let size = number_in(members.size)?;
    let mtime = number_in(members.mtime)?;
    Ok([inode, uid, gid, size, mtime])
}
