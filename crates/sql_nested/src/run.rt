//! The rows of a text with parts.

ghost use Rattle.std.specs.Prelude.{◌≡◌, IfOk, OnOk, [], map};
ghost use Rattle.sql_query.specs.Resolved.{query_of};
ghost use Rattle.sql_meaning.specs.Meaning.{meaning_of};
ghost use Rattle.sql_nested.specs.Extending.{extended, next_id, with_part_rows, with_view_rows};
ghost use Rattle.sql_nested.specs.Meanings.{chain_rows, nested_meaning, text_rows};
ghost use Rattle.sql_nested.specs.Trees.{chain_names, chain_of, text_of, views_of};

use crate::query::{NestedQuery, NestedText, QueryList};
use crate::view::Extended;
use osq_value::{NoMemory, RowList, Tables, TextList};
use sql_planner::{plan_of, run_plan};
use sql_query::answers;
use sql_query::query::Query;
use std::alloc::Global;

/// The names of the columns of the result: those of the text's first SELECT.
pub fn nested_names(alloc: Global, query: &NestedQuery) -> Result<TextList, NoMemory>
    ensures { IfOk result (λ names. names ≡ chain_names (text_of query.now.text).chain) }
{
    match query.text.chain.as_slice() {
        [] => Ok(TextList::new(alloc)),
        [first, ..] => answers::names_of(alloc, first),
    }
}

/// The rows of a text over a view, by its meaning. Each part and each view is evaluated once, before the chains that name it, and its
/// rows are gone when this answers.
///
/// ```
/// let query = nested_of(alloc, "SELECT n FROM (SELECT 1 AS n UNION ALL SELECT 2) s", &views)?;
/// let rows = run_nested(alloc, &query, &view)?;
/// rows.len()                // 2: the rows of the two values `Value::Int(1)` and `Value::Int(2)`
/// ```
pub fn run_nested<V: Tables>(
    alloc: Global,
    query: &NestedQuery,
    view: &V,
) -> Result<RowList, NoMemory>
    ensures { IfOk result (λ rows. rows ≡ nested_meaning (views_of query.now) (text_of query.now.text) (V.rows_of view.now)) }
{
    let mut made = views_rows(alloc, query.views.as_slice(), view)?;
    text_rows(alloc, &query.text, &mut made, view)
}

/// The rows of each view.
fn views_rows<V: Tables>(
    alloc: Global,
    views: &[NestedText],
    view: &V,
) -> Result<Vec<RowList>, NoMemory>
    ensures { IfOk result (λ made. made.items ≡ with_view_rows (V.rows_of view.now) [] (map text_of views.now)) }
{
    let mut made = Vec::new(alloc);
    for text in views {
        let rows = text_rows(alloc, text, &mut made, view)?;
        made.push(rows)?;
    }
    Ok(made)
}

/// The rows of a text over the view and these tables. Its parts are gone when it answers.
fn text_rows<V: Tables>(
    alloc: Global,
    text: &NestedText,
    made: &mut Vec<RowList>,
    view: &V,
) -> Result<RowList, NoMemory>
    ensures rows { IfOk result (λ rows. rows ≡ text_rows (extended (V.rows_of view.now) made.old.items) (next_id made.old.items) (text_of text.now)) }
    ensures kept { OnOk result (made.new.items ≡ made.old.items) }
{
    let count = made.len();
    push_parts(alloc, text.parts.as_slice(), made, view)?;
    let rows = chain_beside(alloc, text.chain.as_slice(), made.as_slice(), view)?;
    made.truncate(count);
    Ok(rows)
}

/// Adds the rows of each part.
fn push_parts<V: Tables>(
    alloc: Global,
    parts: &[QueryList],
    made: &mut Vec<RowList>,
    view: &V,
) -> Result<(), NoMemory>
    ensures { OnOk result (made.new.items ≡ with_part_rows (V.rows_of view.now) made.old.items (map chain_of parts.now)) }
{
    for part in parts {
        let rows = chain_beside(alloc, part.as_slice(), made.as_slice(), view)?;
        made.push(rows)?;
    }
    Ok(())
}

/// The rows of a chain over the view and these tables.
fn chain_beside<V: Tables>(
    alloc: Global,
    chain: &[Query],
    made: &[RowList],
    view: &V,
) -> Result<RowList, NoMemory>
    ensures { IfOk result (λ rows. rows ≡ chain_rows (extended (V.rows_of view.now) made.now) (chain_of chain.now)) }
{
    chain_rows(alloc, chain, &Extended { view, made })
}

/// The rows of a chain: those of its SELECTs, joined in order.
fn chain_rows<V: Tables>(alloc: Global, chain: &[Query], view: &V) -> Result<RowList, NoMemory>
    ensures { IfOk result (λ rows. rows ≡ chain_rows (V.rows_of view.now) (chain_of chain.now)) }
{
    let mut rows = RowList::new(alloc);
    for query in chain {
        rows.append(query_rows(alloc, query, view)?)?;
    }
    Ok(rows)
}

/// The rows of one SELECT.
fn query_rows<V: Tables>(alloc: Global, query: &Query, view: &V) -> Result<RowList, NoMemory>
    ensures { IfOk result (λ rows. rows ≡ meaning_of (query_of query.now) (V.rows_of view.now)) }
{
    let plan = plan_of(alloc, query)?;
    run_plan(alloc, &plan, view)
}
