//! What a name stands for.

ghost use Rattle.std.specs.Prelude.{◌≡◌, map, IfOk};
ghost use Rattle.sql_query.specs.Exprs.{at_place};
ghost use Rattle.sql_scope.specs.Naming.{alias_from, meaning_by as meaning_from, meaning_of as meaning_among, meant as meant_by, named as named_by, shown_expr as expr_shown, word as word_of};
ghost use Rattle.sql_scope.specs.Scope.{AreNarrow};
ghost use Rattle.sql_scope.specs.Shown.{shown_of, names_of};
ghost use Rattle.sql_query.specs.View.{expr_of};

use crate::scope::{Seen, known_place, plain_place};
use crate::spelling::{is_named, name_text};
use osq_value::{NoMemory, Str, Value};
use sql_query::copy::copy_expr;
use sql_query::derived::Derived;
use sql_query::place::Place;
use sql_query::tree::Expr;
use sql_tree::tree::Name;
use std::alloc::Global;

/// What a name without a table may stand for, and what it is first.
#[derive(Clone, Copy)]
pub enum Rule {
    /// A column.
    Columns,
    /// The alias of an item, and then a column.
    AliasFirst,
    /// A column, and then the alias of an item.
    ColumnFirst,
}

/// What a name without a table stands for.
#[derive(Clone, Copy)]
pub enum Meaning {
    Column { place: Place },
    /// The column of the result with that number, from 0.
    Alias { number: usize },
    /// Nothing else: the word itself, as a text. Only a quoted name may be that.
    Word,
}

/// A column of the result.
#[derive(Drop)]
pub struct Shown {
    /// The column's name.
    pub name: Str,
    /// What gives the column's values.
    pub expr: Expr,
    /// Whether the text gives it that name.
    pub is_alias: bool,
    /// Where its first aggregate stands.
    pub aggregate: Option<usize>,
}

/// What names may stand for where an expression stands.
#[derive(Clone, Copy)]
pub struct Names<'a> {
    /// The derived tables, which a name of FROM means before one of the catalogue.
    pub derived: &'a [Derived],
    /// The text of the query, in which names are byte places.
    pub text: &'a str,
    /// The tables that are seen from there.
    pub scope: &'a [Seen],
    /// The columns of the result.
    pub shown: &'a [Shown],
    /// Which of them a name without a table stands for.
    pub rule: Rule,
}

/// The first column of the result with that alias.
fn alias_at(name: &str, shown: &[Shown]) -> Option<usize>
    ensures { result ≡ alias_from name.now 0 (map shown_of shown.now) }
{
    let mut number = 0usize;
    for column in shown {
        if column.is_alias && is_named(column.name.as_str(), name) {
            return Some(number);
        }
        number += 1;
    }
    None
}

/// What a name stands for, by the column and the alias that have it.
fn meaning_by(rule: Rule, place: Option<Place>, alias: Option<usize>) -> Meaning
    ensures { result ≡ meaning_from rule place alias }
{
    match rule {
        Rule::Columns => match place {
            Some(place) => Meaning::Column { place },
            None => Meaning::Word,
        },
        Rule::AliasFirst => match alias {
            Some(number) => Meaning::Alias { number },
            None => match place {
                Some(place) => Meaning::Column { place },
                None => Meaning::Word,
            },
        },
        Rule::ColumnFirst => match place {
            Some(place) => Meaning::Column { place },
            None => match alias {
                Some(number) => Meaning::Alias { number },
                None => Meaning::Word,
            },
        },
    }
}

/// What a name without a table stands for.
#[tactic(auto, unfolding(crate::specs::Naming::meaning_of))]
pub fn meaning_of(names: &Names, name: &str) -> Meaning
    requires { AreNarrow names.now.scope.now }
    ensures { result ≡ meaning_among (names_of names.now) name.now }
{
    let place = plain_place(name, names.scope);
    let alias = alias_at(name, names.shown);
    meaning_by(names.rule, place, alias)
}

/// A word as a text.
pub fn word(name: Str) -> Expr
    ensures { expr_of result ≡ word_of name }
{
    Expr::Literal {
        value: Value::Text(name),
    }
}

/// The expression of a column.
pub fn column_at(place: Place) -> Expr
    ensures { expr_of result ≡ at_place place }
{
    Expr::Column {
        source: place.source,
        column: place.column,
        at: place.at,
        affinity: place.affinity,
    }
}

/// A copy of the expression of a column of the result.
fn shown_expr(alloc: Global, shown: &[Shown], number: usize, name: Str) -> Result<Expr, NoMemory>
    ensures { IfOk result (λ e. expr_of e ≡ expr_shown (map shown_of shown.now) number name) }
{
    match shown.get(number) {
        Some(column) => copy_expr(alloc, &column.expr),
        None => Ok(word(name)),
    }
}

/// The expression of what a name without a table stands for.
fn meant(alloc: Global, names: &Names, name: Str, meaning: Meaning) -> Result<Expr, NoMemory>
    ensures { IfOk result (λ e. expr_of e ≡ meant_by (names_of names.now) name meaning) }
{
    match meaning {
        Meaning::Column { place } => Ok(column_at(place)),
        Meaning::Alias { number } => shown_expr(alloc, names.shown, number, name),
        Meaning::Word => Ok(word(name)),
    }
}

/// The expression of a column, with its table or without.
#[tactic(auto, unfolding(crate::specs::Naming::named))]
pub(crate) fn named(
    alloc: Global,
    names: &Names,
    table: Option<Name>,
    column: Name,
) -> Result<Expr, NoMemory>
    requires { AreNarrow names.now.scope.now }
    ensures { IfOk result (λ e. expr_of e ≡ named_by (names_of names.now) table column) }
{
    let name = name_text(alloc, names.text, column)?;
    match table {
        Some(table) => {
            let table = name_text(alloc, names.text, table)?;
            match known_place(table.as_str(), name.as_str(), names.scope) {
                Some(place) => Ok(column_at(place)),
                None => Ok(word(name)),
            }
        }
        None => {
            let meaning = meaning_of(names, name.as_str());
            meant(alloc, names, name, meaning)
        }
    }
}
