//! What a query says of its tables and of its result.

ghost use Rattle.std.specs.Prelude.{◌≡◌, map, length, IfOk};
ghost use Rattle.osq_value.specs.Catalogue.{heading_at};
ghost use Rattle.sql_query.specs.Answers.{is_evented_kind as is_evented, is_evented_heading, is_evented_query, is_among, result_names};
ghost use Rattle.sql_query.specs.Resolved.{query_of};

use crate::query::Query;
use osq_value::{Copied, NoMemory, Sequence, TableId, TableKind, TextList, table_desc};
use std::alloc::Global;

fn is_evented_kind(kind: TableKind) -> bool
    ensures { result ≡ is_evented kind }
{
    match kind {
        TableKind::Evented => true,
        TableKind::Recorded => false,
        TableKind::Computed => false,
    }
}

fn is_evented_table(table: TableId) -> bool
    ensures { result ≡ is_evented_heading (heading_at table.0) }
{
    match table_desc(table) {
        None => false,
        Some(found) => is_evented_kind(found.kind),
    }
}

/// Whether some FROM table is evented.
pub fn is_evented(query: &Query) -> bool
    ensures { result ≡ is_evented_query (query_of query.now) }
{
    for source in query.sources.as_slice() {
        if is_evented_table(source.table) {
            return true;
        }
    }
    false
}

/// Whether some FROM table has that number.
pub fn names_table(query: &Query, table: TableId) -> bool
    ensures { result ≡ is_among table.0 (query_of query.now).sources }
{
    for source in query.sources.as_slice() {
        if source.table.0 == table.0 {
            return true;
        }
    }
    false
}

/// The names of the columns of the result, in their order.
pub fn names_of(alloc: Global, query: &Query) -> Result<TextList, NoMemory>
    ensures names { IfOk result (λ names. names ≡ result_names (query_of query.now)) }
    ensures count { IfOk result (λ names. length names ≡ length query.now.items) }
{
    let mut names = Sequence::new(alloc);
    for item in query.items.as_slice() {
        names.push(item.name.copy(alloc)?)?;
    }
    Ok(names)
}
