//! Views whose rows are as wide as their tables.
ghost use Rattle.std.specs.Prelude.{◌≡◌, IfSome, length, map, true};
ghost use Rattle.sql_query.specs.Resolved.{source_of};
ghost use Rattle.sql_planner.specs.Pushing.{AreRows, AreWide};

use osq_value::{Row, TableId, Tables};
use sql_query::query::QuerySource;

/// Whether each row of each of these tables has as many values as the table has columns.
pub(crate) fn are_wide<V: Tables>(sources: &[QuerySource], view: &V) -> bool
    ensures { result ≡ true → AreWide (V.rows_of view.now) (map source_of sources.now) }
{
    for source in sources {
        if !is_wide(source.table, source.columns.len(), view) {
            return false;
        }
    }
    true
}

/// Whether each row of a table has so many values.
fn is_wide<V: Tables>(table: TableId, width: usize, view: &V) -> bool
    ensures { result ≡ true → AreRows width (V.rows_of view.now table.0) }
{
    for at in 0..view.count(table) {
        if !has_width(view.row(table, at), width) {
            return false;
        }
    }
    true
}

/// Whether a row, where there is one, has so many values.
fn has_width(row: Option<&Row>, width: usize) -> bool
    ensures { result ≡ true → IfSome row.entry (λ row. length row.now ≡ width) }
{
    match row {
        Some(row) => row.len() == width,
        None => true,
    }
}
