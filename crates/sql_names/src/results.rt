//! The columns of the result, and what numbers stand for.

ghost use Rattle.std.specs.Prelude.{◌≡◌, ◌++◌, ◌+◌, ◌<◌, ◌^◌, List, ◌∷◌, map, IfOk, OnOk};
ghost use Rattle.sql_tree.specs.View.{tree_of};
ghost use Rattle.sql_tree.specs.Select.{one, item_of};
ghost use Rattle.sql_names.specs.Least.{least, lesser as lesser_of};
ghost use Rattle.sql_names.specs.Results.{columns_from, all_columns, known_columns, column_name as name_of_column, column_place as place_of_column, tree_place, own_name as name_by, item_name as name_of_item, first_aggregate as aggregate_in, aggregate_place as place_of_aggregate, results_of_item, results as results_among, numbered as numbered_in, index_in as index_among};
ghost use Rattle.sql_scope.specs.Scope.{IsNarrow, AreNarrow};
ghost use Rattle.sql_scope.specs.Shown.{shown_of, names_of};

use osq_value::{Copied, NoMemory, Str};
use sql_query::place::Place;
use sql_query::query::SourceColumn;
use sql_query::tree::Expr;
use sql_scope::expression::resolve_node;
use sql_scope::mention::{Clause, Mention, Mentioned, whole_mentions};
use sql_scope::naming::{Names, Shown};
use sql_scope::scope::{Seen, is_listed, known_place, plain_place};
use sql_scope::spelling::{is_named, name_text, span_text};
use sql_tree::select::Item;
use sql_tree::span::Span;
use sql_tree::tree::{Name, Node};
use std::alloc::Global;

/// An expression that is a number literal.
#[derive(Clone, Copy)]
pub struct Numbered {
    /// The byte place of the number in the text, from 0.
    pub place: usize,
    /// The number.
    pub value: i64,
}

/// Adds a column of a table, or passes over it.
fn push_column(
    alloc: Global,
    shown: &mut Vec<Shown>,
    hides: bool,
    seen: &Seen,
    number: u32,
    column: &SourceColumn,
) -> Result<(), NoMemory>
    requires { seen.now.at + number < 2 ^ 32 }
    ensures { OnOk result ((rest : List SourceColumn) → map shown_of shown.new.items ++ columns_from hides seen.now (number + 1) rest ≡ map shown_of shown.old.items ++ columns_from hides seen.now number (column.now ∷ rest)) }
{
    if column.hidden || hides && is_listed(column.name.as_str(), seen.joined.as_slice()) {
        return Ok(());
    }
    shown.push(Shown {
        name: column.name.copy(alloc)?,
        expr: Expr::Column {
            source: seen.source,
            column: number,
            at: seen.at + number,
            affinity: column.affinity,
        },
        is_alias: false,
        aggregate: None,
    })?;
    Ok(())
}

/// Adds the columns of a table that aren't hidden, or those of them that its USING does not list.
fn push_columns(
    alloc: Global,
    shown: &mut Vec<Shown>,
    hides: bool,
    seen: &Seen,
) -> Result<(), NoMemory>
    requires { IsNarrow seen.now }
    ensures { OnOk result (map shown_of shown.new.items ≡ map shown_of shown.old.items ++ columns_from hides seen.now 0 seen.now.columns) }
{
    let mut number = 0u32;
    for column in seen.columns.as_slice() {
        push_column(alloc, shown, hides, seen, number, column)?;
        number += 1;
    }
    Ok(())
}

/// Adds what `*` stands for.
pub(crate) fn push_all(
    alloc: Global,
    shown: &mut Vec<Shown>,
    scope: &[Seen],
) -> Result<(), NoMemory>
    requires { AreNarrow scope.now }
    ensures { OnOk result (map shown_of shown.new.items ≡ map shown_of shown.old.items ++ all_columns scope.now) }
{
    for seen in scope {
        push_columns(alloc, shown, true, seen)?;
    }
    Ok(())
}

/// Adds the columns of a table that is known by a name, and none of another.
fn push_if_known(
    alloc: Global,
    shown: &mut Vec<Shown>,
    table: &str,
    seen: &Seen,
) -> Result<(), NoMemory>
    requires { IsNarrow seen.now }
    ensures { OnOk result ((rest : List Seen) → map shown_of shown.new.items ++ known_columns table.now rest ≡ map shown_of shown.old.items ++ known_columns table.now (seen.now ∷ rest)) }
{
    if is_named(seen.known.as_str(), table) {
        push_columns(alloc, shown, false, seen)
    } else {
        Ok(())
    }
}

/// Adds what `x.*` stands for.
pub(crate) fn push_known(
    alloc: Global,
    shown: &mut Vec<Shown>,
    table: &str,
    scope: &[Seen],
) -> Result<(), NoMemory>
    requires { AreNarrow scope.now }
    ensures { OnOk result (map shown_of shown.new.items ≡ map shown_of shown.old.items ++ known_columns table.now scope.now) }
{
    for seen in scope {
        push_if_known(alloc, shown, table, seen)?;
    }
    Ok(())
}

/// The catalogue's name of a column.
fn column_name(alloc: Global, scope: &[Seen], place: Place) -> Result<Str, NoMemory>
    ensures { IfOk result (λ name. name ≡ name_of_column scope.now place) }
{
    let Some(seen) = scope.get(place.source as usize) else {
        return Ok(Str::empty());
    };
    match seen.columns.get(place.column as usize) {
        Some(column) => column.name.copy(alloc),
        None => Ok(Str::empty()),
    }
}

/// The column that a name with a table or without is.
fn column_place(
    alloc: Global,
    names: &Names,
    table: Option<Name>,
    column: Name,
) -> Result<Option<Place>, NoMemory>
    requires { AreNarrow names.now.scope.now }
    ensures { IfOk result (λ place. place ≡ place_of_column (names_of names.now) table column) }
{
    let name = name_text(alloc, names.text, column)?;
    match table {
        None => Ok(plain_place(name.as_str(), names.scope)),
        Some(table) => {
            let table = name_text(alloc, names.text, table)?;
            Ok(known_place(table.as_str(), name.as_str(), names.scope))
        }
    }
}

/// The column that a whole expression is.
fn node_place(alloc: Global, names: &Names, node: &Node) -> Result<Option<Place>, NoMemory>
    requires { AreNarrow names.now.scope.now }
    ensures { IfOk result (λ place. place ≡ tree_place (names_of names.now) (tree_of node.now)) }
{
    match node {
        Node::Column { table, column } => column_place(alloc, names, *table, *column),
        Node::Number { .. } => Ok(None),
        Node::Text { .. } => Ok(None),
        Node::Null => Ok(None),
        Node::Chain { .. } => Ok(None),
        Node::Negation { .. } => Ok(None),
        Node::Minus { .. } => Ok(None),
        Node::Plus { .. } => Ok(None),
        Node::Cast { .. } => Ok(None),
        Node::Call { .. } => Ok(None),
        Node::Folded { argument, .. } => match argument {
            None => Ok(None),
            Some(_) => Ok(None),
        },
    }
}

/// The name of an item that has no alias.
fn own_name(alloc: Global, names: &Names, span: Span, place: Option<Place>) -> Result<Str, NoMemory>
    ensures { IfOk result (λ name. name ≡ name_by (names_of names.now) span place) }
{
    match place {
        None => span_text(alloc, names.text, span),
        Some(place) => column_name(alloc, names.scope, place),
    }
}

/// An item's name: its alias; for a column the catalogue's name; else its text.
fn item_name(
    alloc: Global,
    names: &Names,
    node: &Node,
    span: Span,
    alias: Option<Name>,
) -> Result<Str, NoMemory>
    requires { AreNarrow names.now.scope.now }
    ensures { IfOk result (λ name. name ≡ name_of_item (names_of names.now) (tree_of node.now) span alias) }
{
    match alias {
        Some(alias) => name_text(alloc, names.text, alias),
        None => {
            let place = node_place(alloc, names, node)?;
            own_name(alloc, names, span, place)
        }
    }
}

/// The lesser of two places.
pub(crate) fn lesser(place: Option<usize>, other: Option<usize>) -> Option<usize>
    ensures { result ≡ lesser_of place other }
{
    match place {
        None => other,
        Some(place) => match other {
            None => Some(place),
            Some(other) => Some(if place <= other { place } else { other }),
        },
    }
}

/// Where an aggregate stands.
fn aggregate_place(what: Mentioned) -> Option<usize>
    ensures { result ≡ place_of_aggregate what }
{
    match what {
        Mentioned::Column { .. } => None,
        Mentioned::Aggregate { place, .. } => Some(place),
    }
}

/// Where the first of the aggregates stands.
fn least_aggregate(found: &[Mention]) -> Option<usize>
    ensures { result ≡ least (map (λ (m : Mention). place_of_aggregate m.what) found.now) }
{
    let mut place = None;
    for mention in found {
        place = lesser(place, aggregate_place(mention.what));
    }
    place
}

/// Where the first aggregate of an expression stands.
fn first_aggregate(alloc: Global, node: &Node) -> Result<Option<usize>, NoMemory>
    ensures { IfOk result (λ place. place ≡ aggregate_in (tree_of node.now)) }
{
    let found = whole_mentions(alloc, Clause::Item, node)?;
    Ok(least_aggregate(&found))
}

/// Adds the column of an item that is an expression.
fn push_one(
    alloc: Global,
    shown: &mut Vec<Shown>,
    names: &Names,
    node: &Node,
    span: Span,
    alias: Option<Name>,
) -> Result<(), NoMemory>
    requires { AreNarrow names.now.scope.now }
    ensures { OnOk result (map shown_of shown.new.items ≡ map shown_of shown.old.items ++ results_of_item (names_of names.now) (one (tree_of node.now) span alias)) }
{
    shown.push(Shown {
        name: item_name(alloc, names, node, span, alias)?,
        expr: resolve_node(alloc, names, node)?,
        is_alias: alias.is_some(),
        aggregate: first_aggregate(alloc, node)?,
    })?;
    Ok(())
}

/// Adds the columns of an item.
fn push_item(
    alloc: Global,
    shown: &mut Vec<Shown>,
    names: &Names,
    item: &Item,
) -> Result<(), NoMemory>
    requires { AreNarrow names.now.scope.now }
    ensures { OnOk result (map shown_of shown.new.items ≡ map shown_of shown.old.items ++ results_of_item (names_of names.now) (item_of item.now)) }
{
    match item {
        Item::All { .. } => push_all(alloc, shown, names.scope),
        Item::AllOf { table } => {
            let table = name_text(alloc, names.text, *table)?;
            push_known(alloc, shown, table.as_str(), names.scope)
        }
        Item::One { node, span, alias } => push_one(alloc, shown, names, node, *span, *alias),
    }
}

/// The columns of the result.
pub(crate) fn results_of(
    alloc: Global,
    names: &Names,
    items: &[Item],
) -> Result<Vec<Shown>, NoMemory>
    requires { AreNarrow names.now.scope.now }
    ensures { IfOk result (λ shown. map shown_of shown.items ≡ results_among (names_of names.now) (map item_of items.now)) }
{
    let mut shown = Vec::new(alloc);
    for item in items {
        push_item(alloc, &mut shown, names, item)?;
    }
    Ok(shown)
}

/// The number literal that an expression is.
pub(crate) fn number_term(node: &Node) -> Option<Numbered>
    ensures { result ≡ numbered_in (tree_of node.now) }
{
    match node {
        Node::Number { place, value } => Some(Numbered {
            place: *place,
            value: *value,
        }),
        Node::Text { .. } => None,
        Node::Null => None,
        Node::Column { .. } => None,
        Node::Chain { .. } => None,
        Node::Negation { .. } => None,
        Node::Minus { .. } => None,
        Node::Plus { .. } => None,
        Node::Cast { .. } => None,
        Node::Call { .. } => None,
        Node::Folded { argument, .. } => match argument {
            None => None,
            Some(_) => None,
        },
    }
}

/// The place from 0 of the result column with that number from 1.
pub(crate) fn index_in(count: usize, number: i64) -> Option<usize>
    ensures { result ≡ index_among count number }
{
    if number < 1 {
        return None;
    }
    let number = number as usize;
    if number <= count {
        Some(number - 1)
    } else {
        None
    }
}
