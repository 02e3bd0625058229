//! The lines of an audit log.

use osq_value::{Copied, NoMemory, Sequence, Str};
use std::alloc::Global;

/// What the lines of one audit event share: the moment, in whole seconds and milliseconds since 1970, and the kernel's serial number.
#[derive(Clone, Copy, PartialEq, Eq)]
pub struct AuditId {
    /// Whole seconds since 1970 UTC, below 10^12.
    pub seconds: u64,
    /// Milliseconds of that second, from 0 to 999.
    pub millis: u64,
    /// The kernel's serial number of the event.
    pub serial: u64,
}

/// A `key=value` of a line. `text` is the value, without its quotes where it was quoted.
#[derive(Drop)]
pub struct Field {
    /// The text before the first `=`, of at least one byte.
    pub key: Str,
    /// The value stood between `"` or `'`, so it is never read as hexadecimal digits or as `(null)`.
    pub quoted: bool,
    /// The value as it stands in the line, without its quotes; it may be empty.
    pub text: Str,
}

impl Copied for Field {
    fn copy(&self, alloc: Global) -> Result<Self, NoMemory> {
        Ok(Field {
            key: self.key.copy(alloc)?,
            quoted: self.quoted,
            text: self.text.copy(alloc)?,
        })
    }
}

/// Fields, in the order of their line. Two may have one key.
pub type FieldList = Sequence<Field>;

/// A line of the log. `kind` is its type, as `SYSCALL`, and its fields stand in the line's order.
#[derive(Drop)]
pub struct AuditLine {
    /// The moment and the serial number that the lines of one event share.
    pub id: AuditId,
    /// The type: one capital letter, digit or `_`, or more.
    pub kind: Str,
    /// The fields; words without `=` are not among them.
    pub fields: FieldList,
}

impl Copied for AuditLine {
    fn copy(&self, alloc: Global) -> Result<Self, NoMemory> {
        Ok(AuditLine {
            id: self.id,
            kind: self.kind.copy(alloc)?,
            fields: self.fields.copy(alloc)?,
        })
    }
}
