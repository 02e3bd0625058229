//! The fields of a group's EXECVE lines, by their keys.

ghost use Rattle.std.specs.Prelude.{◌≡◌, ℕ, List, IfOk, OnOk, option_copied};
ghost use Rattle.std.specs.Option.{option_or};
ghost use Rattle.audit_records.specs.Arguments.{execve_field, field_in, is_execve};
ghost use Rattle.audit_records.specs.FieldValues.{field_of};
ghost use Rattle.audit_records.specs.Indexes.{indexed, with_key};

use crate::line::{AuditLine, Field};
use crate::value::{field_of, has_kind};
use osq_value::NoMemory;
use std::alloc::Global;
use std::collections::BTreeMap;

/// The EXECVE lines of a group, with the first field of each key.
#[derive(Drop)]
pub struct ExecveFields<'a> {
    lines: &'a [AuditLine],
    first: BTreeMap<&'a str, &'a Field>,
    ghost is_first: { (key : List ℕ) → indexed first key ≡ execve_field key lines.now },
}

impl<'a> ExecveFields<'a> {
    /// Takes a walk over the fields of the EXECVE lines.
    pub fn of(alloc: Global, lines: &'a [AuditLine]) -> Result<ExecveFields<'a>, NoMemory>
        ensures { IfOk result (λ fields. fields.lines.now ≡ lines.now) }
    {
        let first = first_fields(alloc, lines)?;
        Ok(ExecveFields { lines, first })
    }

    /// The first field with this key.
    pub fn get(&self, key: &str) -> Option<&'a Field>
        ensures { option_copied result ≡ execve_field key.now self.now.lines.now }
    {
        self.first.get(key).copied()
    }
}

fn first_fields<'a>(
    alloc: Global,
    lines: &'a [AuditLine],
) -> Result<BTreeMap<&'a str, &'a Field>, NoMemory>
    ensures { IfOk result (λ index. (key : List ℕ) → indexed index key ≡ execve_field key lines.now) }
{
    let mut index = BTreeMap::new(alloc);
    for line in lines {
        add_line(&mut index, line)?;
    }
    Ok(index)
}

fn add_line<'a>(
    index: &mut BTreeMap<&'a str, &'a Field>,
    line: &'a AuditLine,
) -> Result<(), NoMemory>
    ensures { OnOk result ((key : List ℕ) → indexed index.new key ≡ option_or (indexed index.old key) (field_in key line.now)) }
{
    if is_execve(line) {
        add_fields(index, line)
    } else {
        Ok(())
    }
}

/// Adds the fields of a line, each where its key is not there yet.
fn add_fields<'a>(
    index: &mut BTreeMap<&'a str, &'a Field>,
    line: &'a AuditLine,
) -> Result<(), NoMemory>
    ensures { OnOk result ((key : List ℕ) → indexed index.new key ≡ option_or (indexed index.old key) (field_of key line.now)) }
{
    for field in line.fields.as_slice() {
        add_field(index, field)?;
    }
    Ok(())
}

/// Adds a field where its key is not there yet.
fn add_field<'a>(index: &mut BTreeMap<&'a str, &'a Field>, field: &'a Field) -> Result<(), NoMemory>
    ensures { OnOk result ((key : List ℕ) → indexed index.new key ≡ option_or (indexed index.old key) (with_key key field.now)) }
{
    let key = field.key.as_str();
    if !index.contains_key(key) {
        index.insert(key, field)?;
    }
    Ok(())
}

/// The first field with this key in the EXECVE lines, without an index.
pub fn execve_field<'a>(lines: &'a [AuditLine], key: &str) -> Option<&'a Field>
    ensures { option_copied result ≡ execve_field key.now lines.now }
{
    for line in lines {
        if let Some(field) = field_in(line, key) {
            return Some(field);
        }
    }
    None
}

fn field_in<'a>(line: &'a AuditLine, key: &str) -> Option<&'a Field>
    ensures { option_copied result ≡ field_in key.now line.now }
{
    if is_execve(line) {
        field_of(line, key)
    } else {
        None
    }
}

/// The line has the type EXECVE.
pub fn is_execve(line: &AuditLine) -> bool
    ensures { result ≡ is_execve line.now }
{
    has_kind(line, "EXECVE")
}
