//! The records of a source, and what each gives.

use audit_records::AuditGroup;
use change_records::Change;
use osq_value::{Event, RowList, Sequence, TableId};

/// What a callback is given: a group of audit lines, or a change of a file.
#[derive(Drop)]
pub enum Record {
    /// Audit lines with one id.
    Group(AuditGroup),
    /// A change of a file.
    Change(Change),
}

/// A record of a source before a callback is asked about it: what the callback is given, how many lines of the record were skipped, and the
/// source's offset, in bytes, behind the record's last line.
#[derive(Drop)]
pub struct Raw {
    /// What a callback is given, none for a skipped line by itself.
    pub item: Option<Record>,
    /// How many lines of the record were skipped.
    pub skipped: u64,
    /// The offset behind the record, in bytes.
    pub end: u64,
}

/// Records before a callback is asked about them, in their order.
pub type RecordList = Sequence<Raw>;

/// What one record of a source gives.
#[derive(Drop)]
pub enum Gain {
    /// An event or none, and how many lines of the record were skipped.
    Event { event: Option<Event>, skipped: u64 },
    /// A whole recorded table.
    Table { table: TableId, rows: RowList },
}

/// What one record gave. `end` is the source's offset, in bytes, behind the record's last line.
#[derive(Drop)]
pub struct ReadRecord {
    /// What the record gave.
    pub gain: Gain,
    /// The offset behind the record, in bytes.
    pub end: u64,
}

/// What records gave, in their order.
pub type ReadRecordList = Sequence<ReadRecord>;

/// What is found of a source.
#[derive(Drop)]
pub enum Found {
    /// A record of an audit log or of changes, before a callback is asked about it.
    Record(Raw),
    /// A line of a source of tables, which no callback is asked about.
    Table(ReadRecord),
}

/// What became of the lines that were read.
#[derive(Drop)]
pub enum Next {
    /// A record is whole.
    Whole(Found),
    /// A line was taken in.
    More,
    /// No line is left.
    Nothing,
}
