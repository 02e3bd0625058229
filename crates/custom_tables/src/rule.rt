//! Which rows a custom table gains.

use osq_value::{Copied, NoMemory, Sequence, Str, TextList};
use std::alloc::Global;

/// What a row of a custom table is made of: the first line of one type in a group of audit lines.
#[derive(Drop)]
pub struct Rule {
    /// The name of the table.
    pub name: Str,
    /// The type of the line, as `USER_LOGIN`.
    pub line: Str,
    /// The keys of the line whose values are the first columns. Behind them comes the column `time`.
    pub keys: TextList,
}

impl Copied for Rule {
    fn copy(&self, alloc: Global) -> Result<Self, NoMemory> {
        Ok(Rule {
            name: self.name.copy(alloc)?,
            line: self.line.copy(alloc)?,
            keys: self.keys.copy(alloc)?,
        })
    }
}

/// Rules in the order of their tables.
pub type RuleList = Sequence<Rule>;
