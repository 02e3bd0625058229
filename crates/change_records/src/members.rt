//! The members of a line's object that a change has.

ghost use Rattle.std.specs.Prelude.{◌≡◌, ◌<◌, codes, length, Some, None, OnOk, OnErr};
ghost use Rattle.json.specs.Json.{members, value};
ghost use Rattle.serde_json.specs.Data.{Members as Object, no_members, object};
ghost use Rattle.serde_json.specs.Read.{converted, of_members};
ghost use Rattle.change_records.specs.Members.{AreOf, found_with, held};
ghost use Rattle.change_records.specs.Tokens.{data_of, shallow_view};

use crate::token::{MOST_DEPTH, Shallow, read};
use json::{Invalid, Reader, Token};

/// The members of a line that a change has, found in one walk over the line's tokens.
#[derive(Clone, Copy)]
pub struct Members<'a> {
    pub path: Option<Shallow<'a>>,
    pub action: Option<Shallow<'a>>,
    pub inode: Option<Shallow<'a>>,
    pub uid: Option<Shallow<'a>>,
    pub gid: Option<Shallow<'a>>,
    pub size: Option<Shallow<'a>>,
    pub mtime: Option<Shallow<'a>>,
    pub mode: Option<Shallow<'a>>,
    pub time: Option<Shallow<'a>>,
}

impl<'a> Members<'a> {
    /// Reads a line that is an object.
    pub fn read_line(&mut self, reader: &mut Reader<'a>) -> Result<(), Invalid>
        requires none { AreOf no_members self.old }
        ensures ok { OnOk result ((line : Object) × (data_of reader.old ≡ Some (object line)) × AreOf line self.new) }
        ensures err { OnErr result ((line : Object) → data_of reader.old ≡ Some (object line) → ⊥) }
    {
        let Some(token) = reader.next() else {
            return Err(Invalid);
        };
        let Token::BeginObject = token else {
            return Err(Invalid);
        };
        self.read_members(reader, MOST_DEPTH - 1)?;
        match reader.next() {
            None => Ok(()),
            Some(_) => Err(Invalid),
        }
    }

    /// Reads the members of an object and its closing brace. Of equal keys the last counts.
    fn read_members(&mut self, reader: &mut Reader<'a>, depth: usize) -> Result<(), Invalid>
        requires none { AreOf no_members self.old }
        ensures ok { OnOk result ((all : Object) × (converted (λ given. of_members given no_members) (members (value depth) (length reader.old) reader.old) ≡ Some (all, reader.new)) × AreOf all self.new) }
        ensures err { OnErr result (converted (λ given. of_members given no_members) (members (value depth) (length reader.old) reader.old) ≡ None) }
    {
        while let Some(name) = reader.next_key()? {
            let value = read(reader, depth)?;
            *self = self.with(name, value);
        }
        Ok(())
    }

    /// No members yet.
    pub fn none() -> Members<'a>
        ensures path { held result.path ≡ None }
        ensures action { held result.action ≡ None }
        ensures inode { held result.inode ≡ None }
        ensures uid { held result.uid ≡ None }
        ensures gid { held result.gid ≡ None }
        ensures size { held result.size ≡ None }
        ensures mtime { held result.mtime ≡ None }
        ensures mode { held result.mode ≡ None }
        ensures time { held result.time ≡ None }
    {
        Members {
            path: None,
            action: None,
            inode: None,
            uid: None,
            gid: None,
            size: None,
            mtime: None,
            mode: None,
            time: None,
        }
    }

    /// One more member of the object, behind those that were walked over.
    #[inline(always)]
    fn with(self, name: &str, value: Shallow<'a>) -> Members<'a>
        ensures path { held result.path ≡ found_with (codes "path") (held self.entry.path) name.now (shallow_view value.entry) }
        ensures action { held result.action ≡ found_with (codes "action") (held self.entry.action) name.now (shallow_view value.entry) }
        ensures inode { held result.inode ≡ found_with (codes "inode") (held self.entry.inode) name.now (shallow_view value.entry) }
        ensures uid { held result.uid ≡ found_with (codes "uid") (held self.entry.uid) name.now (shallow_view value.entry) }
        ensures gid { held result.gid ≡ found_with (codes "gid") (held self.entry.gid) name.now (shallow_view value.entry) }
        ensures size { held result.size ≡ found_with (codes "size") (held self.entry.size) name.now (shallow_view value.entry) }
        ensures mtime { held result.mtime ≡ found_with (codes "mtime") (held self.entry.mtime) name.now (shallow_view value.entry) }
        ensures mode { held result.mode ≡ found_with (codes "mode") (held self.entry.mode) name.now (shallow_view value.entry) }
        ensures time { held result.time ≡ found_with (codes "time") (held self.entry.time) name.now (shallow_view value.entry) }
    {
        Members {
            path: last("path", self.path, name, value),
            action: last("action", self.action, name, value),
            inode: last("inode", self.inode, name, value),
            uid: last("uid", self.uid, name, value),
            gid: last("gid", self.gid, name, value),
            size: last("size", self.size, name, value),
            mtime: last("mtime", self.mtime, name, value),
            mode: last("mode", self.mode, name, value),
            time: last("time", self.time, name, value),
        }
    }
}

/// What is found of a key, where one more member follows. A name of another length isn't compared.
#[inline(always)]
fn last<'a>(
    key: &str,
    found: Option<Shallow<'a>>,
    name: &str,
    value: Shallow<'a>,
) -> Option<Shallow<'a>>
    ensures { held result ≡ found_with key.now (held found.entry) name.now (shallow_view value.entry) }
{
    if key.len() == name.len() && key == name {
        Some(value)
    } else {
        found
    }
}
