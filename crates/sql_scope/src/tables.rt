//! The FROM tables of a select.

ghost use Rattle.std.specs.Prelude.{◌≡◌, ◌≤◌, ◌+◌, length, map, IfOk, OnOk, option_map};
ghost use Rattle.osq_value.specs.Catalogue.{columns_of};
ghost use Rattle.sql_tree.specs.Select.{ref_of};
ghost use Rattle.sql_scope.specs.Spelling.{name_text as text_of_name};
ghost use Rattle.sql_query.specs.Resolved.{source_column};
ghost use Rattle.sql_query.specs.Tables.{FIRST_DERIVED as FIRST_NUMBER, columns_at};
ghost use Rattle.sql_scope.specs.Scope.{derived_from, table_meant as meant_by, table_number as number_of_table, known_as as name_known, seen_at as seen_there, scope_of as scope_seen, IsNarrow, AreNarrow};

use crate::scope::{Seen, SeenList};
use crate::spelling::{is_named, name_text};
use osq_value::catalogue::columns;
use osq_value::{Copied, NoMemory, Sequence, Str, TableId, TextList, table_of};
use sql_query::derived::{Derived, FIRST_DERIVED, derived_at};
use sql_query::query::{SourceColumn, SourceColumnList};
use sql_tree::select::TableRef;
use sql_tree::tree::Name;
use std::alloc::Global;

/// The number of the first derived table of that name.
fn derived_named(derived: &[Derived], name: &str) -> Option<TableId>
    requires { length derived.now ≤ 100 }
    ensures { option_map (λ (table : TableId). table.0) result ≡ derived_from name.now FIRST_NUMBER derived.now }
{
    let mut number = FIRST_DERIVED;
    for known in derived {
        if is_named(known.name.as_str(), name) {
            return Some(TableId(number));
        }
        number += 1;
    }
    None
}

/// The number of the table that a name of FROM means: of the first derived one of that name, or else of the catalogue's.
#[tactic(auto, unfolding(crate::specs::Scope::table_meant))]
pub fn table_meant(derived: &[Derived], name: &str) -> Option<TableId>
    requires { length derived.now ≤ 100 }
    ensures { option_map (λ (table : TableId). table.0) result ≡ meant_by derived.now name.now }
{
    match derived_named(derived, name) {
        Some(table) => Some(table),
        None => match table_of(name) {
            Some(found) => Some(found.id),
            None => None,
        },
    }
}

/// The number of the table that a name of FROM means; one that no table has, where it means none.
#[tactic(auto, unfolding(crate::specs::Scope::table_number))]
pub fn table_number(derived: &[Derived], name: &str) -> TableId
    requires { length derived.now ≤ 100 }
    ensures { result.0 ≡ number_of_table derived.now name.now }
{
    match table_meant(derived, name) {
        Some(table) => table,
        None => TableId::NONE,
    }
}

/// The columns of a table of the catalogue, which are copied.
fn columns_of_catalogue(alloc: Global, table: TableId) -> Result<SourceColumnList, NoMemory>
    ensures { IfOk result (λ seen. seen ≡ map source_column (columns_of table.0)) }
{
    let mut seen = Sequence::new(alloc);
    for column in columns(table) {
        seen.push(SourceColumn {
            name: Str::of(alloc, column.name)?,
            affinity: Some(column.affinity),
            hidden: false,
        })?;
    }
    Ok(seen)
}

/// The columns of a table, which are copied.
#[tactic(auto, unfolding(sql_query::specs::Tables::columns_at))]
pub fn columns_seen(
    alloc: Global,
    derived: &[Derived],
    table: TableId,
) -> Result<SourceColumnList, NoMemory>
    ensures { IfOk result (λ seen. seen ≡ columns_at derived.now table.0) }
{
    match derived_at(derived, table) {
        Some(found) => found.columns.copy(alloc),
        None => columns_of_catalogue(alloc, table),
    }
}

/// The texts of names.
fn name_texts(alloc: Global, text: &str, names: &[Name]) -> Result<TextList, NoMemory>
    ensures { IfOk result (λ made. made ≡ map (text_of_name text.now) names.now) }
{
    let mut texts = Sequence::new(alloc);
    for name in names {
        texts.push(name_text(alloc, text, *name)?)?;
    }
    Ok(texts)
}

/// What a table is known by: its alias, or else its name.
#[tactic(auto, unfolding(crate::specs::Scope::known_as))]
fn known_as(alloc: Global, text: &str, table: &TableRef) -> Result<Str, NoMemory>
    ensures { IfOk result (λ known. known ≡ name_known text.now (ref_of table.now)) }
{
    match table.alias {
        Some(alias) => name_text(alloc, text, alias),
        None => name_text(alloc, text, table.table),
    }
}

/// A table by its number and the place of its first column.
fn seen_at(
    alloc: Global,
    derived: &[Derived],
    text: &str,
    source: u32,
    at: u32,
    table: &TableRef,
) -> Result<Seen, NoMemory>
    requires { length derived.now ≤ 100 }
    ensures { IfOk result (λ seen. seen ≡ seen_there derived.now text.now source at (ref_of table.now)) }
{
    let name = name_text(alloc, text, table.table)?;
    let number = table_number(derived, name.as_str());
    Ok(Seen {
        source,
        at,
        table: number,
        known: known_as(alloc, text, table)?,
        columns: columns_seen(alloc, derived, number)?,
        joined: name_texts(alloc, text, table.using.as_slice())?,
    })
}

/// The place behind the columns of a table. Where a number of 32 bits can't tell it, memory can't hold the rows.
fn place_behind(seen: &Seen) -> Result<u32, NoMemory>
    ensures place { IfOk result (λ at. at ≡ seen.now.at + length seen.now.columns) }
    ensures narrow { OnOk result (IsNarrow seen.now) }
{
    let Ok(width) = u32::try_from(seen.columns.len()) else {
        return Err(NoMemory);
    };
    match seen.at.checked_add(width) {
        Some(at) => Ok(at),
        None => Err(NoMemory),
    }
}

/// The tables of FROM, in their order.
#[tactic(auto, unfolding(crate::specs::Scope::scope_of))]
pub fn scope_of(
    alloc: Global,
    derived: &[Derived],
    text: &str,
    tables: &[TableRef],
) -> Result<SeenList, NoMemory>
    requires few { length tables.now ≤ 16 }
    requires numbered { length derived.now ≤ 100 }
    ensures scope { IfOk result (λ scope. scope ≡ scope_seen derived.now text.now (map ref_of tables.now)) }
    ensures narrow { IfOk result (λ scope. AreNarrow scope) }
    ensures tables { IfOk result (λ scope. length scope ≡ length tables.now) }
{
    let mut scope = Sequence::new(alloc);
    let mut source = 0u32;
    let mut at = 0u32;
    for table in tables {
        let seen = seen_at(alloc, derived, text, source, at, table)?;
        source += 1;
        at = place_behind(&seen)?;
        scope.push(seen)?;
    }
    Ok(scope)
}
