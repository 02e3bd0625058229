//! Aggregates where none may stand.

ghost use Rattle.std.specs.Prelude.{◌≡◌, None, map, option_map, length, IfOk};
ghost use Rattle.sql_tree.specs.View.{tree_of};
ghost use Rattle.sql_tree.specs.Select.{having_of, select_of};
ghost use Rattle.sql_scope.specs.declared.mention.Mentioned.TheVariants.{Column as mentioned_column};
ghost use Rattle.sql_names.specs.Kinds.{forbids as is_forbidden_in, aggregate_at as aggregate_shown, aggregate_meant as meant_aggregate, mentioned_aggregate as aggregate_mentioned, mentioned_wrong as wrong_mention, key_wrong as wrong_key, is_aggregate as is_an_aggregate, has_aggregate as has_an_aggregate, is_grouped as grouped_by, having_wrong as wrong_having, bad_aggregate as least_aggregate};
ghost use Rattle.sql_names.specs.Least.{least};
ghost use Rattle.sql_scope.specs.Scope.{AreNarrow};
ghost use Rattle.sql_scope.specs.Shown.{shown_of, names_of};

use crate::faults::names_in;
use crate::results::{index_in, lesser, number_term};
use osq_value::NoMemory;
use sql_scope::mention::{Clause, Mention, Mentioned};
use sql_scope::naming::{Meaning, Names, Shown, meaning_of};
use sql_scope::spelling::name_text;
use sql_tree::select::{Having, Select};
use sql_tree::tree::{Name, Node};
use std::alloc::Global;

/// Whether no aggregate may stand in a clause.
pub(crate) fn forbids(clause: Clause) -> bool
    ensures { result ≡ is_forbidden_in clause }
{
    match clause {
        Clause::Item => false,
        Clause::On { .. } => true,
        Clause::Where => true,
        Clause::Key => true,
        Clause::Having => false,
        Clause::Term => false,
    }
}

/// The first aggregate in a column of the result.
fn aggregate_at(shown: &[Shown], number: usize) -> Option<usize>
    ensures { result ≡ aggregate_shown (map shown_of shown.now) number }
{
    match shown.get(number) {
        None => None,
        Some(column) => column.aggregate,
    }
}

/// The first aggregate of the item that an alias stands for.
fn aggregate_meant(shown: &[Shown], meaning: Meaning) -> Option<usize>
    ensures { result ≡ meant_aggregate (map shown_of shown.now) meaning }
{
    match meaning {
        Meaning::Column { .. } => None,
        Meaning::Alias { number } => aggregate_at(shown, number),
        Meaning::Word => None,
    }
}

fn plain_aggregate(alloc: Global, names: &Names, column: Name) -> Result<Option<usize>, NoMemory>
    requires { AreNarrow names.now.scope.now }
    ensures { IfOk result (λ place. place ≡ aggregate_mentioned (names_of names.now) (mentioned_column None column)) }
{
    let name = name_text(alloc, names.text, column)?;
    let meaning = meaning_of(names, name.as_str());
    Ok(aggregate_meant(names.shown, meaning))
}

/// The aggregate that is mentioned, or the first of the item that an alias stands for.
fn mentioned_aggregate(
    alloc: Global,
    names: &Names,
    what: Mentioned,
) -> Result<Option<usize>, NoMemory>
    requires { AreNarrow names.now.scope.now }
    ensures { IfOk result (λ place. place ≡ aggregate_mentioned (names_of names.now) what) }
{
    match what {
        Mentioned::Column { table, column } => match table {
            None => plain_aggregate(alloc, names, column),
            Some(_) => Ok(None),
        },
        Mentioned::Aggregate { place, .. } => Ok(Some(place)),
    }
}

fn mentioned_wrong(
    alloc: Global,
    names: &Names,
    mention: &Mention,
) -> Result<Option<usize>, NoMemory>
    requires { AreNarrow names.now.scope.now }
    ensures { IfOk result (λ place. place ≡ wrong_mention (names_of names.now) mention.now) }
{
    if forbids(mention.clause) || mention.is_inside {
        let there = names_in(names, mention.clause);
        mentioned_aggregate(alloc, &there, mention.what)
    } else {
        Ok(None)
    }
}

fn mentions_wrong(
    alloc: Global,
    names: &Names,
    found: &[Mention],
) -> Result<Option<usize>, NoMemory>
    requires { AreNarrow names.now.scope.now }
    ensures { IfOk result (λ place. place ≡ least (map (wrong_mention (names_of names.now)) found.now)) }
{
    let mut place = None;
    for mention in found {
        place = lesser(place, mentioned_wrong(alloc, names, mention)?);
    }
    Ok(place)
}

/// The first aggregate of the item that a number of GROUP BY stands for.
fn key_wrong(shown: &[Shown], key: &Node) -> Option<usize>
    ensures { result ≡ wrong_key (map shown_of shown.now) (tree_of key.now) }
{
    match number_term(key) {
        None => None,
        Some(number) => match index_in(shown.len(), number.value) {
            None => None,
            Some(index) => aggregate_at(shown, index),
        },
    }
}

fn keys_wrong(shown: &[Shown], keys: &[Node]) -> Option<usize>
    ensures { result ≡ least (map (wrong_key (map shown_of shown.now)) (map tree_of keys.now)) }
{
    let mut place = None;
    for key in keys {
        place = lesser(place, key_wrong(shown, key));
    }
    place
}

fn is_aggregate(what: Mentioned) -> bool
    ensures { result ≡ is_an_aggregate what }
{
    match what {
        Mentioned::Column { .. } => false,
        Mentioned::Aggregate { .. } => true,
    }
}

/// Whether an aggregate stands where one may.
fn has_aggregate(found: &[Mention]) -> bool
    ensures { result ≡ has_an_aggregate found.now }
{
    for mention in found {
        if is_aggregate(mention.what) && !forbids(mention.clause) {
            return true;
        }
    }
    false
}

/// Whether GROUP BY or an aggregate is there.
pub(crate) fn is_grouped(keys: &[Node], found: &[Mention]) -> bool
    ensures { result ≡ grouped_by (map tree_of keys.now) found.now }
{
    !keys.is_empty() || has_aggregate(found)
}

fn having_wrong(is_grouped: bool, having: &Option<Having>) -> Option<usize>
    ensures { result ≡ wrong_having is_grouped (option_map having_of having.now) }
{
    match having {
        None => None,
        Some(having) => { if is_grouped { None } else { Some(having.place) } }
    }
}

/// BadAggregate.
pub(crate) fn bad_aggregate(
    alloc: Global,
    names: &Names,
    select: &Select,
    found: &[Mention],
) -> Result<Option<usize>, NoMemory>
    requires { AreNarrow names.now.scope.now }
    ensures { IfOk result (λ place. place ≡ least_aggregate (names_of names.now) (select_of select.now) found.now) }
{
    let keys = select.keys.as_slice();
    let of_having = having_wrong(is_grouped(keys, found), &select.having);
    let of_keys = keys_wrong(names.shown, keys);
    let of_mentions = mentions_wrong(alloc, names, found)?;
    Ok(lesser(of_having, lesser(of_keys, of_mentions)))
}
