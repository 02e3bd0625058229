//! The sources of a session.

use crate::memory::NoMemory;
use crate::sequence::{Copied, Sequence};
use crate::text::Str;
use std::alloc::Global;

/// What the lines of a source are.
#[derive(Clone, Copy)]
pub enum SourceKind {
    /// Lines of an audit log, as auditd writes them.
    Audit,
    /// Changes of files, one JSON object a line.
    Changes,
    /// Recorded tables, one JSON object a line.
    Tables,
}

/// A source of a session.
#[derive(Drop)]
pub struct SourceName {
    /// What its lines are.
    pub kind: SourceKind,
    /// The name under which its offset is kept: the path of its file.
    pub name: Str,
}

impl Copied for SourceName {
    fn copy(&self, alloc: Global) -> Result<Self, NoMemory> {
        Ok(SourceName {
            kind: self.kind,
            name: self.name.copy(alloc)?,
        })
    }
}

/// Sources, in the order in which a round reads them.
pub type SourceNameList = Sequence<SourceName>;
