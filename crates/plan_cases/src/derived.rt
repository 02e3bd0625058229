//! The derived table that texts may mean beside the catalogue's.
ghost use Rattle.std.specs.Prelude.{◌≤◌, IfOk, length};

use crate::sql::{
    Derived, DerivedList, Query, SourceColumn, SourceColumnList, TextError, query_with,
};
use osq_value::{Affinity, NoMemory, Str};
use std::alloc::Global;

/// The columns of `parts`: of whole numbers, of texts, and of values that are compared as they are.
const COLUMNS: [(&str, Option<Affinity>); 3] = [
    ("number", Some(Affinity::Integer)),
    ("name", Some(Affinity::Text)),
    ("value", None),
];

fn columns(alloc: Global) -> Result<SourceColumnList, NoMemory> {
    let mut columns = SourceColumnList::new(alloc);
    for (name, affinity) in COLUMNS {
        columns.push(SourceColumn {
            name: Str::of(alloc, name)?,
            affinity,
            hidden: false,
        })?;
    }
    Ok(columns)
}

/// The list of the one derived table.
fn derived(alloc: Global) -> Result<DerivedList, NoMemory>
    ensures { IfOk result (λ made. length made ≤ 100) }
{
    let mut derived = DerivedList::new(alloc);
    derived.push(Derived {
        name: Str::of(alloc, "parts")?,
        columns: columns(alloc)?,
    })?;
    Ok(derived)
}

/// The query of a text whose FROM may mean `parts` too.
pub(crate) fn query_of(alloc: Global, text: &str) -> Result<Query, TextError> {
    match derived(alloc) {
        Err(_) => Err(TextError::NoMemory),
        Ok(derived) => query_with(alloc, text, derived.as_slice()),
    }
}
