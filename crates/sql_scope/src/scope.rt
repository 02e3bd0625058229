//! The FROM tables as names see them.

ghost use Rattle.std.specs.Prelude.{◌≡◌, nat_lt};
ghost use Rattle.sql_scope.specs.Scope.{has_own as has_its_own, is_known as is_known_in, is_listed as is_listed_in, known_place as place_known, owners, place_in as place_within, plain_place as place_plain, IsNarrow, AreNarrow};

use crate::spelling::is_named;
use osq_value::{Sequence, Str, TableId, TextList};
use sql_query::place::Place;
use sql_query::query::{SourceColumn, SourceColumnList};

/// A FROM table as names see it.
#[derive(Drop)]
pub struct Seen {
    /// Its number among the FROM tables, from 0.
    pub source: u32,
    /// The place of its first column in a row of the product.
    pub at: u32,
    /// The table's number.
    pub table: TableId,
    /// What the table is known by: its alias, or else its name.
    pub known: Str,
    /// The columns of the table, in the table's order.
    pub columns: SourceColumnList,
    /// The columns that its USING lists.
    pub joined: TextList,
}

/// FROM tables in their order.
pub type SeenList = Sequence<Seen>;

/// The column of that name in a table.
#[tactic(auto, unfolding(crate::specs::Scope::place_in))]
pub fn place_in(name: &str, seen: &Seen) -> Option<Place>
    requires { IsNarrow seen.now }
    ensures { result ≡ place_within name.now seen.now }
{
    let mut number = 0u32;
    for column in seen.columns.as_slice() {
        if is_named(column.name.as_str(), name) {
            return Some(Place {
                source: seen.source,
                column: number,
                at: seen.at + number,
                affinity: column.affinity,
            });
        }
        number += 1;
    }
    None
}

/// The column of that name in the first table that has it.
pub fn plain_place(name: &str, scope: &[Seen]) -> Option<Place>
    requires { AreNarrow scope.now }
    ensures { result ≡ place_plain name.now scope.now }
{
    for seen in scope {
        if let Some(place) = place_in(name, seen) {
            return Some(place);
        }
    }
    None
}

/// The column of that name in the first table that has it, of those that are known by a name.
pub fn known_place(table: &str, name: &str, scope: &[Seen]) -> Option<Place>
    requires { AreNarrow scope.now }
    ensures { result ≡ place_known table.now name.now scope.now }
{
    for seen in scope {
        if is_named(seen.known.as_str(), table) {
            if let Some(place) = place_in(name, seen) {
                return Some(place);
            }
        }
    }
    None
}

/// Whether some table is known by a name.
pub fn is_known(table: &str, scope: &[Seen]) -> bool
    ensures { result ≡ is_known_in table.now scope.now }
{
    for seen in scope {
        if is_named(seen.known.as_str(), table) {
            return true;
        }
    }
    false
}

/// Whether a name is one of a list.
pub fn is_listed(name: &str, names: &[Str]) -> bool
    ensures { result ≡ is_listed_in name.now names.now }
{
    for listed in names {
        if is_named(listed.as_str(), name) {
            return true;
        }
    }
    false
}

/// Whether a table has the column, and its USING does not join it to that of an earlier table.
fn has_own(name: &str, seen: &Seen) -> bool
    requires { IsNarrow seen.now }
    ensures { result ≡ has_its_own name.now seen.now }
{
    place_in(name, seen).is_some() && !is_listed(name, seen.joined.as_slice())
}

/// Whether more than one table has a column of that name of its own.
pub fn has_two_owners(name: &str, scope: &[Seen]) -> bool
    requires { AreNarrow scope.now }
    ensures { result ≡ nat_lt 1 (owners name.now scope.now) }
{
    let mut has_one = false;
    for seen in scope {
        if has_own(name, seen) {
            if has_one {
                return true;
            }
            has_one = true;
        }
    }
    false
}
