//! The row of a record by a rule.

ghost use Rattle.std.specs.Prelude.{◌≡◌, ◌∷◌, ◌++◌, [], map, find, option_copied, IfOk};
ghost use Rattle.audit_records.specs.FieldValues.{has_kind as has_kind_of, time_of as second_of, value_text};
ghost use Rattle.custom_tables.specs.Rows.{row_of_group as group_row, row_of_line as line_row, row_of_record};

use crate::rule::Rule;
use audit_records::value::{has_kind, text_value, time_of};
use audit_records::{AuditGroup, AuditLine};
use osq_value::{NoMemory, Row};
use publisher_core::record::Record;
use std::alloc::Global;

/// The row that a record gives by the rule: of a group, the values of the keys in its first line of the rule's type, and the line's second.
/// A key that the line lacks is Null. A group without such a line gives none, and so does a change of a file.
pub fn row_by(alloc: Global, rule: &Rule, item: &Record) -> Result<Option<Row>, NoMemory>
    ensures { IfOk result (λ row. row ≡ row_of_record rule.now item.now) }
{
    match item {
        Record::Group(group) => row_of_group(alloc, rule, group),
        Record::Change(_) => Ok(None),
    }
}

/// The row of a group.
fn row_of_group(alloc: Global, rule: &Rule, group: &AuditGroup) -> Result<Option<Row>, NoMemory>
    ensures { IfOk result (λ row. row ≡ group_row rule.now group.now) }
{
    match first_of_kind(group.as_slice(), rule.line.as_str()) {
        None => Ok(None),
        Some(line) => Ok(Some(row_of_line(alloc, rule, line)?)),
    }
}

/// The first line of that type.
fn first_of_kind<'a>(lines: &'a [AuditLine], kind: &str) -> Option<&'a AuditLine>
    ensures { option_copied result ≡ find (has_kind_of kind.now) lines.now }
{
    lines.iter().find(|line| has_kind(line, kind))
}

/// The row of a line. What copies of the row share is made once, here.
fn row_of_line(alloc: Global, rule: &Rule, line: &AuditLine) -> Result<Row, NoMemory>
    ensures { IfOk result (λ row. row ≡ line_row rule.now line.now) }
{
    let keys = rule.keys.as_slice();
    let mut row = Row::with_capacity(alloc, keys.len().saturating_add(1))?;
    for key in keys {
        row.push(text_value(alloc, line, key.as_str())?)?;
    }
    row.push(time_of(line))?;
    row.shared(alloc)
}
