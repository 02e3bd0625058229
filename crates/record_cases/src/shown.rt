//! Records before a callback is asked about them, as text.

use audit_records::AuditLine;
use osq_value::NoMemory;
use publisher_core::record::{Raw, Record};
use publisher_core::watching::Watcher;
use std::alloc::Global;

/// Adds the types of lines.
fn push_types(text: &mut String, lines: &[AuditLine]) -> Result<(), NoMemory> {
    for line in lines {
        write!(text, " {}", line.kind.as_str())?;
    }
    Ok(())
}

/// Adds the types of the lines of a group in brackets, or the path of a change in parentheses.
fn push_item(text: &mut String, item: &Record) -> Result<(), NoMemory> {
    match item {
        Record::Group(group) => {
            text.push_str("[")?;
            push_types(text, group.as_slice())?;
            Ok(text.push_str(" ]")?)
        }
        Record::Change(change) => Ok(write!(text, "({})", change.path.as_str())?),
    }
}

/// Adds the offset behind a record, how many of its lines were skipped, and what it is, or a dash.
pub(crate) fn push_raw(text: &mut String, raw: &Raw) -> Result<(), NoMemory> {
    write!(text, " {}+{}", raw.end, raw.skipped)?;
    match &raw.item {
        Some(item) => push_item(text, item),
        None => Ok(text.push_str("-")?),
    }
}

/// A watcher that writes down what it sees.
#[derive(Drop)]
pub(crate) struct Shown {
    pub(crate) text: String,
}

impl Watcher for Shown {
    ghost saw = { λ _ _. Unit {0} };

    fn see(&mut self, _alloc: Global, item: &Record) -> Result<(), NoMemory> {
        push_item(&mut self.text, item)
    }
}
