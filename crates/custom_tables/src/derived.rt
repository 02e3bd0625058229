//! The tables that a question over custom tables may name.

ghost use Rattle.std.specs.Prelude.{◌≡◌, ◌++◌, map, IfOk, OnOk};
ghost use Rattle.custom_tables.specs.Derived.{catalogue_from, rule_columns as columns_of_rule, table_of_catalogue as catalogue_there, tables_of as tables_there};
ghost use Rattle.custom_tables.specs.Hidden.{with_hidden as hidden_behind};

use crate::asked::Asked;
use crate::hidden::with_hidden;
use crate::rule::Rule;
use osq_value::{Affinity, Copied, NoMemory, Sequence, Str, TableId, table_desc};
use sql_query::derived::{Derived, DerivedList};
use sql_query::query::{SourceColumn, SourceColumnList};
use sql_scope::tables::columns_seen;
use std::alloc::Global;

/// How many tables the catalogue has.
pub(crate) const CATALOGUE: u8 = 15;

/// The columns of a rule's table: its keys as texts, and then `time`.
pub(crate) fn rule_columns(alloc: Global, rule: &Rule) -> Result<SourceColumnList, NoMemory>
    ensures { IfOk result (λ columns. columns ≡ columns_of_rule rule.now) }
{
    let mut columns = Sequence::new(alloc);
    for key in rule.keys.as_slice() {
        columns.push(SourceColumn {
            name: key.copy(alloc)?,
            affinity: Some(Affinity::Text),
            hidden: false,
        })?;
    }
    columns.push(SourceColumn {
        name: Str::of(alloc, "time")?,
        affinity: Some(Affinity::Integer),
        hidden: false,
    })?;
    Ok(columns)
}

/// The table of a rule, with its hidden columns.
fn table_of_rule(alloc: Global, rule: &Rule, asked: &[Asked]) -> Result<Derived, NoMemory>
    ensures { IfOk result (λ table. table ≡ hidden_behind asked.now (record { name = rule.now.name; columns = columns_of_rule rule.now })) }
{
    let columns = rule_columns(alloc, rule)?;
    with_hidden(alloc, rule.name.copy(alloc)?, columns, asked)
}

/// The name of a table of the catalogue.
fn catalogue_name(table: TableId) -> &'static str
    ensures { result.now ≡ (catalogue_there table.0).name }
{
    match table_desc(table) {
        Some(found) => found.name,
        None => "",
    }
}

/// A table of the catalogue, with its hidden columns.
fn table_of_catalogue(alloc: Global, table: TableId, asked: &[Asked]) -> Result<Derived, NoMemory>
    ensures { IfOk result (λ made. made ≡ hidden_behind asked.now (catalogue_there table.0)) }
{
    let columns = columns_seen(alloc, &[], table)?;
    let name = Str::of(alloc, catalogue_name(table))?;
    with_hidden(alloc, name, columns, asked)
}

/// Adds the tables of the catalogue, in the order of their numbers.
#[tactic(auto, using(crate::proofs::CatalogueLaws::next_table))]
fn push_catalogue(alloc: Global, tables: &mut DerivedList, asked: &[Asked]) -> Result<(), NoMemory>
    ensures { OnOk result (tables.new ≡ tables.old ++ map (hidden_behind asked.now) (catalogue_from 15 0)) }
{
    for place in 0..CATALOGUE {
        tables.push(table_of_catalogue(alloc, TableId(place), asked)?)?;
    }
    Ok(())
}

/// The tables of these rules, and then those of the catalogue, each with a hidden column for every call of one of its columns.
pub fn tables_of(alloc: Global, rules: &[Rule], asked: &[Asked]) -> Result<DerivedList, NoMemory>
    ensures { IfOk result (λ tables. tables ≡ tables_there rules.now asked.now) }
{
    let mut tables = Sequence::new(alloc);
    for rule in rules {
        tables.push(table_of_rule(alloc, rule, asked)?)?;
    }
    push_catalogue(alloc, &mut tables, asked)?;
    Ok(tables)
}
