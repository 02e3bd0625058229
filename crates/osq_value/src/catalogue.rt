//! The tables of the catalogue: names, kinds and columns.
ghost use Rattle.std.specs.Prelude.{◌≡◌, ℕ, map, slice_get, IfSome, Some};
ghost use Rattle.std.specs.Option.{option_map};
ghost use Rattle.osq_value.specs.Catalogue.{columns_of, heading_at, id_of};
ghost use Rattle.osq_value.specs.Described.{column, heading, id};

use crate::value::TableId;
use std::fmt;

/// What a column holds where a value of the other kind is written into it or compared with it.
#[derive(Clone, Copy, PartialEq, Eq)]
pub enum Affinity {
    /// Whole numbers: a text that spells one is that number.
    Integer,
    /// Texts: a whole number is its decimal text.
    Text,
}

/// A column of a table.
#[derive(Clone, Copy)]
pub struct ColumnDesc {
    /// Its name, in small letters.
    pub name: &'static str,
    /// How SQLite's rules of affinity turn values that it is compared with.
    pub affinity: Affinity,
}

/// Where the rows of a table come from: events, recorded rows, or what the program knows itself.
#[derive(Clone, Copy, PartialEq, Eq)]
pub enum TableKind {
    /// Events that readings add.
    Evented,
    /// Rows that a reading sets whole.
    Recorded,
    /// Rows that the program knows itself.
    Computed,
}

/// A table of the catalogue. Its width is the number of its columns.
#[derive(Clone, Copy)]
pub struct TableDesc {
    /// Its place in the catalogue, from 0.
    pub id: TableId,
    /// The name that osquery gives it, in small letters.
    pub name: &'static str,
    /// Where its rows come from.
    pub kind: TableKind,
    /// The number of columns.
    pub width: u32,
}

/// The table of that name, without regard to ASCII case; none exactly where there is no such table.
///
/// ```
/// table_of("Users")         // Some of the table `users`: id TableId::USERS, six columns
/// table_of("user")          // None
/// ```
pub fn table_of(name: &str) -> Option<TableDesc>
    ensures id { option_map id result ≡ id_of name.now }
    ensures heading { IfSome result (λ found. Some (heading found) ≡ heading_at found.id.0) }
{
    for place in 0..15u8 {
        if let Some(found) = table_desc(TableId(place)) {
            if found.name.eq_ignore_ascii_case(name) {
                return Some(found);
            }
        }
    }
    None
}

/// The table of that number; none exactly where there is no such table.
#[tactic(auto, unfolding(crate::specs::Catalogue::tables, crate::specs::Catalogue::heading_at))]
pub fn table_desc(table: TableId) -> Option<TableDesc>
    ensures heading { option_map heading result ≡ heading_at table.0 }
    ensures id { IfSome result (λ found. found.id ≡ table) }
{
    let found = |name, kind, width| {
        Some(TableDesc {
            id: table,
            name,
            kind,
            width,
        })
    };
    match table.0 {
        0 => found("process_events", TableKind::Evented, 12),
        1 => found("socket_events", TableKind::Evented, 13),
        2 => found("file_events", TableKind::Evented, 10),
        3 => found("users", TableKind::Recorded, 6),
        4 => found("groups", TableKind::Recorded, 2),
        5 => found("user_groups", TableKind::Recorded, 2),
        6 => found("processes", TableKind::Recorded, 10),
        7 => found("listening_ports", TableKind::Recorded, 5),
        8 => found("system_info", TableKind::Recorded, 4),
        9 => found("os_version", TableKind::Recorded, 5),
        10 => found("deb_packages", TableKind::Recorded, 5),
        11 => found("logged_in_users", TableKind::Recorded, 6),
        12 => found("time", TableKind::Computed, 1),
        13 => found("osquery_schedule", TableKind::Computed, 5),
        14 => found("osquery_events", TableKind::Computed, 2),
        _ => None,
    }
}

/// The table's name; its number where the catalogue has no such table.
impl fmt::Display for TableId {
    fn fmt<W: fmt::Write>(&self, f: &mut fmt::Formatter<W>) -> fmt::Result {
        match table_desc(*self) {
            Some(table) => f.write_str(table.name),
            None => write!(f, "table {}", self.0),
        }
    }
}

/// The column at that place, from 0, of a table; none exactly where there is no such table or column.
pub fn column_of(table: TableId, at: u32) -> Option<ColumnDesc>
    ensures { option_map column result ≡ slice_get (columns_of table.0) at }
{
    columns(table).get(at as usize).copied()
}

/// The columns of a list, each with its name and its affinity.
macro_rules! columns {
    ($($name:literal: $affinity:ident),*) => {
        &[$(ColumnDesc { name: $name, affinity: Affinity::$affinity }),*]
    };
}

/// The columns of a table, in order; none where there is no such table.
#[tactic(auto, unfolding(crate::specs::Catalogue::tables, crate::specs::Catalogue::columns_of))]
pub fn columns(table: TableId) -> &'static [ColumnDesc]
    ensures { map column result.now ≡ columns_of table.0 }
{
    match table.0 {
        0 =>
            columns!("pid": Integer, "path": Text, "mode": Text, "cmdline": Text, "cwd": Text, "auid": Integer, "uid": Integer, "euid": Integer, "gid": Integer, "egid": Integer, "parent": Integer, "time": Integer),
        1 =>
            columns!("action": Text, "pid": Integer, "path": Text, "fd": Text, "auid": Integer, "status": Text, "family": Integer, "local_address": Text, "remote_address": Text, "local_port": Integer, "remote_port": Integer, "socket": Text, "time": Integer),
        2 =>
            columns!("target_path": Text, "category": Text, "action": Text, "inode": Integer, "uid": Integer, "gid": Integer, "mode": Text, "size": Integer, "mtime": Integer, "time": Integer),
        3 =>
            columns!("uid": Integer, "gid": Integer, "username": Text, "description": Text, "directory": Text, "shell": Text),
        4 => columns!("gid": Integer, "groupname": Text),
        5 => columns!("uid": Integer, "gid": Integer),
        6 =>
            columns!("pid": Integer, "name": Text, "path": Text, "cmdline": Text, "state": Text, "cwd": Text, "uid": Integer, "gid": Integer, "parent": Integer, "start_time": Integer),
        7 =>
            columns!("pid": Integer, "port": Integer, "protocol": Integer, "family": Integer, "address": Text),
        8 =>
            columns!("hostname": Text, "uuid": Text, "cpu_brand": Text, "physical_memory": Integer),
        9 =>
            columns!("name": Text, "version": Text, "major": Integer, "minor": Integer, "platform": Text),
        10 =>
            columns!("name": Text, "version": Text, "source": Text, "size": Integer, "arch": Text),
        11 =>
            columns!("type": Text, "user": Text, "tty": Text, "host": Text, "time": Integer, "pid": Integer),
        12 => columns!("unix_time": Integer),
        13 =>
            columns!("name": Text, "query": Text, "interval": Integer, "executions": Integer, "last_executed": Integer),
        14 => columns!("name": Text, "events": Integer),
        _ => &[],
    }
}
