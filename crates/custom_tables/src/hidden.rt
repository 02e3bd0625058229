//! The hidden columns of tables: one for each call.

ghost use Rattle.std.specs.Prelude.{◌≡◌, IfOk};
ghost use Rattle.custom_tables.specs.Hidden.{column_place as place_of_column, hidden_at, hidden_from, with_hidden as hidden_behind};

use crate::asked::Asked;
use crate::reading::call_name;
use osq_value::{NoMemory, Sequence, Str};
use sql_query::derived::Derived;
use sql_query::query::{SourceColumn, SourceColumnList};
use sql_scope::spelling::is_named;
use std::alloc::Global;

/// The place of the first column of that name.
pub fn column_place(columns: &[SourceColumn], name: &str) -> Option<usize>
    ensures { result ≡ place_of_column columns.now name.now }
{
    columns
        .iter()
        .position(|column| is_named(column.name.as_str(), name))
}

/// The hidden column of the call of that number.
fn hidden_column(alloc: Global, number: u64) -> Result<SourceColumn, NoMemory>
    ensures { IfOk result (λ column. column ≡ hidden_at number) }
{
    Ok(SourceColumn {
        name: call_name(alloc, number)?,
        affinity: None,
        hidden: true,
    })
}

/// A hidden column for each call whose column is one of these, by the calls' numbers.
fn hidden_columns(
    alloc: Global,
    columns: &[SourceColumn],
    asked: &[Asked],
) -> Result<SourceColumnList, NoMemory>
    ensures { IfOk result (λ made. made ≡ hidden_from columns.now 1 asked.now) }
{
    let mut made = Sequence::new(alloc);
    let mut number = 1u64;
    for call in asked {
        if column_place(columns, call.column.as_str()).is_some() {
            made.push(hidden_column(alloc, number)?)?;
        }
        number += 1;
    }
    Ok(made)
}

/// The derived table of this name and these columns, with its hidden columns behind them.
pub fn with_hidden(
    alloc: Global,
    name: Str,
    columns: SourceColumnList,
    asked: &[Asked],
) -> Result<Derived, NoMemory>
    ensures { IfOk result (λ table. table ≡ hidden_behind asked.now (record { name = name; columns = columns })) }
{
    let hidden = hidden_columns(alloc, columns.as_slice(), asked)?;
    let mut columns = columns;
    columns.append(hidden)?;
    Ok(Derived { name, columns })
}
