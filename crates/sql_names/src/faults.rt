//! The faults of a select's names, by kind.

ghost use Rattle.std.specs.Prelude.{◌≡◌, ◌≤◌, ◌&&◌, Some, None, map, take, option_map, length, IfOk, IfNone, is_some};
ghost use Rattle.sql_tree.specs.View.{tree_of};
ghost use Rattle.sql_tree.specs.Select.{item_of, ref_of, having_of, term_of, select_of};
ghost use Rattle.sql_scope.specs.declared.mention.Mention.{Mention as MentionValue};
ghost use Rattle.sql_names.specs.Kinds.{place_if as place_only_if, place_of as place_of_name, seen_from as seen_by, rule_of as rule_in, names_in as names_for, too_many_tables as tables_too_many, table_missing as missing_table, unknown_table as table_unknown, item_unknown as unknown_item, mentioned_unknown as unknown_mention, no_table as least_table, using_missing as missing_using, usings_missing as missing_usings, number_missing as missing_number, term_missing as missing_term, mentioned_missing as missing_mention, item_missing as missing_item, place_at as place_of_number, known_at, is_word as is_a_word, is_column as is_a_column, no_column as least_column, tables_repeated as repeated_tables, mentioned_twice as twice_mentioned, ambiguous as least_ambiguous, forbids as is_forbidden_in, aggregate_at as aggregate_shown, aggregate_meant as meant_aggregate, mentioned_aggregate as aggregate_mentioned, mentioned_wrong as wrong_mention, key_wrong as wrong_key, is_aggregate as is_an_aggregate, has_aggregate as has_an_aggregate, is_grouped as grouped_by, having_wrong as wrong_having, bad_aggregate as least_aggregate};
ghost use Rattle.sql_names.specs.Least.{least};
ghost use Rattle.sql_scope.specs.Scope.{AreNarrow, is_known as is_known_in, plain_place as plain_place_in};
ghost use Rattle.sql_scope.specs.declared.mention.Mentioned.TheVariants.{Column as mentioned_column};
ghost use Rattle.sql_scope.specs.Shown.{shown_of, names_of};

use crate::results::{index_in, lesser, number_term};
use osq_value::NoMemory;
use sql_query::derived::Derived;
use sql_query::place::Place;
use sql_scope::mention::{Clause, Mention, Mentioned};
use sql_scope::naming::{Meaning, Names, Rule, Shown, meaning_of};
use sql_scope::scope::{Seen, has_two_owners, is_known, known_place, place_in, plain_place};
use sql_scope::spelling::name_text;
use sql_scope::tables::table_meant;
use sql_tree::select::{Having, Item, Select, TableRef, Term};
use sql_tree::tree::{Name, Node};
use std::alloc::Global;

pub(crate) fn place_if(is_fault: bool, place: usize) -> Option<usize>
    ensures { result ≡ place_only_if is_fault place }
{
    if is_fault { Some(place) } else { None }
}

/// The tables that an expression of a clause sees.
fn seen_from<'a>(clause: Clause, scope: &'a [Seen]) -> &'a [Seen]
    requires { AreNarrow scope.now }
    ensures seen { result.now ≡ seen_by clause scope.now }
    ensures narrow { AreNarrow result.now }
{
    match clause {
        Clause::Item => scope,
        Clause::On { reach } => {
            let reach = reach.min(scope.len());
            &scope[..reach]
        }
        Clause::Where => scope,
        Clause::Key => scope,
        Clause::Having => scope,
        Clause::Term => scope,
    }
}

/// How an expression of a clause takes a plain name.
fn rule_of(clause: Clause) -> Rule
    ensures { result ≡ rule_in clause }
{
    match clause {
        Clause::Item => Rule::Columns,
        Clause::On { .. } => Rule::Columns,
        Clause::Where => Rule::Columns,
        Clause::Key => Rule::ColumnFirst,
        Clause::Having => Rule::ColumnFirst,
        Clause::Term => Rule::AliasFirst,
    }
}

/// These names as an expression of a clause takes them.
pub(crate) fn names_in<'a>(names: &Names<'a>, clause: Clause) -> Names<'a>
    requires { AreNarrow names.now.scope.now }
    ensures names { names_of result ≡ names_for (names_of names.now) clause }
    ensures narrow { AreNarrow result.scope.now }
{
    Names {
        derived: names.derived,
        text: names.text,
        scope: seen_from(clause, names.scope),
        shown: names.shown,
        rule: rule_of(clause),
    }
}

/// TooManyTables.
pub(crate) fn too_many_tables(sources: &[TableRef]) -> Option<usize>
    ensures place { result ≡ tables_too_many (map ref_of sources.now) }
    ensures few { IfNone result (length sources.now ≤ 16) }
{
    match sources.get(16) {
        Some(source) => Some(source.table.span.start),
        None => None,
    }
}

fn table_missing(
    alloc: Global,
    derived: &[Derived],
    text: &str,
    source: &TableRef,
) -> Result<Option<usize>, NoMemory>
    requires { length derived.now ≤ 100 }
    ensures { IfOk result (λ place. place ≡ missing_table derived.now text.now (ref_of source.now)) }
{
    let name = name_text(alloc, text, source.table)?;
    let is_missing = table_meant(derived, name.as_str()).is_none();
    Ok(place_if(is_missing, source.table.span.start))
}

fn unknown_table(alloc: Global, names: &Names, table: Name) -> Result<Option<usize>, NoMemory>
    ensures { IfOk result (λ place. place ≡ table_unknown (names_of names.now) table) }
{
    let name = name_text(alloc, names.text, table)?;
    let is_unknown = !is_known(name.as_str(), names.scope);
    Ok(place_if(is_unknown, table.span.start))
}

fn item_unknown(alloc: Global, names: &Names, item: &Item) -> Result<Option<usize>, NoMemory>
    ensures { IfOk result (λ place. place ≡ unknown_item (names_of names.now) (item_of item.now)) }
{
    match item {
        Item::All { .. } => Ok(None),
        Item::AllOf { table } => unknown_table(alloc, names, *table),
        Item::One { .. } => Ok(None),
    }
}

fn mentioned_unknown(
    alloc: Global,
    names: &Names,
    what: Mentioned,
) -> Result<Option<usize>, NoMemory>
    ensures { IfOk result (λ place. place ≡ unknown_mention (names_of names.now) what) }
{
    match what {
        Mentioned::Column { table, .. } => match table {
            None => Ok(None),
            Some(table) => unknown_table(alloc, names, table),
        },
        Mentioned::Aggregate { .. } => Ok(None),
    }
}

fn tables_missing(
    alloc: Global,
    derived: &[Derived],
    text: &str,
    sources: &[TableRef],
) -> Result<Option<usize>, NoMemory>
    requires { length derived.now ≤ 100 }
    ensures { IfOk result (λ place. place ≡ least (map (missing_table derived.now text.now) (map ref_of sources.now))) }
{
    let mut place = None;
    for source in sources {
        place = lesser(place, table_missing(alloc, derived, text, source)?);
    }
    Ok(place)
}

fn items_unknown(alloc: Global, names: &Names, items: &[Item]) -> Result<Option<usize>, NoMemory>
    ensures { IfOk result (λ place. place ≡ least (map (unknown_item (names_of names.now)) (map item_of items.now))) }
{
    let mut place = None;
    for item in items {
        place = lesser(place, item_unknown(alloc, names, item)?);
    }
    Ok(place)
}

fn mentions_unknown(
    alloc: Global,
    names: &Names,
    found: &[Mention],
) -> Result<Option<usize>, NoMemory>
    ensures { IfOk result (λ place. place ≡ least (map (λ (m : MentionValue). unknown_mention (names_of names.now) m.what) found.now)) }
{
    let mut place = None;
    for mention in found {
        place = lesser(place, mentioned_unknown(alloc, names, mention.what)?);
    }
    Ok(place)
}

/// NoTable.
pub(crate) fn no_table(
    alloc: Global,
    names: &Names,
    select: &Select,
    found: &[Mention],
) -> Result<Option<usize>, NoMemory>
    requires { length names.now.derived.now ≤ 100 }
    ensures { IfOk result (λ place. place ≡ least_table (names_of names.now) (select_of select.now) found.now) }
{
    let of_sources = tables_missing(alloc, names.derived, names.text, select.sources.as_slice())?;
    let of_items = items_unknown(alloc, names, select.items.as_slice())?;
    let of_mentions = mentions_unknown(alloc, names, found)?;
    Ok(lesser(of_sources, lesser(of_items, of_mentions)))
}

fn item_missing(scope: &[Seen], item: &Item) -> Option<usize>
    ensures { result ≡ missing_item scope.now (item_of item.now) }
{
    match item {
        Item::All { place } => place_if(scope.is_empty(), *place),
        Item::AllOf { .. } => None,
        Item::One { .. } => None,
    }
}

fn items_missing(scope: &[Seen], items: &[Item]) -> Option<usize>
    ensures { result ≡ least (map (missing_item scope.now) (map item_of items.now)) }
{
    let mut place = None;
    for item in items {
        place = lesser(place, item_missing(scope, item));
    }
    place
}

/// The column of that name in the table of that number.
pub(crate) fn place_at(number: usize, name: &str, scope: &[Seen]) -> Option<Place>
    requires { AreNarrow scope.now }
    ensures { result ≡ place_of_number number name.now scope.now }
{
    match scope.get(number) {
        None => None,
        Some(seen) => place_in(name, seen),
    }
}

/// The column of that name in the first table before that of a number.
pub(crate) fn place_before(number: usize, name: &str, scope: &[Seen]) -> Option<Place>
    requires { AreNarrow scope.now }
    ensures { result ≡ plain_place_in name.now (take number scope.now) }
{
    let before = seen_from(Clause::On { reach: number }, scope);
    plain_place(name, before)
}

/// Whether a table, and a table before it, has the column.
fn joins(number: usize, name: &str, scope: &[Seen]) -> bool
    requires { AreNarrow scope.now }
    ensures { result ≡ (is_some (plain_place_in name.now (take number scope.now)) && is_some (place_of_number number name.now scope.now)) }
{
    place_before(number, name, scope).is_some() && place_at(number, name, scope).is_some()
}

fn using_missing(
    alloc: Global,
    names: &Names,
    number: usize,
    name: Name,
) -> Result<Option<usize>, NoMemory>
    requires { AreNarrow names.now.scope.now }
    ensures { IfOk result (λ place. place ≡ missing_using (names_of names.now) number name) }
{
    let text = name_text(alloc, names.text, name)?;
    let is_missing = !joins(number, text.as_str(), names.scope);
    Ok(place_if(is_missing, name.span.start))
}

fn source_missing(
    alloc: Global,
    names: &Names,
    number: usize,
    source: &TableRef,
) -> Result<Option<usize>, NoMemory>
    requires { AreNarrow names.now.scope.now }
    ensures { IfOk result (λ place. place ≡ least (map (missing_using (names_of names.now) number) source.now.using)) }
{
    let mut place = None;
    for name in source.using.as_slice() {
        place = lesser(place, using_missing(alloc, names, number, *name)?);
    }
    Ok(place)
}

fn usings_missing(
    alloc: Global,
    names: &Names,
    sources: &[TableRef],
) -> Result<Option<usize>, NoMemory>
    requires { AreNarrow names.now.scope.now }
    ensures { IfOk result (λ place. place ≡ missing_usings (names_of names.now) 0 (map ref_of sources.now)) }
{
    let mut place = None;
    let mut number = 0usize;
    for source in sources {
        place = lesser(place, source_missing(alloc, names, number, source)?);
        number += 1;
    }
    Ok(place)
}

fn number_missing(count: usize, node: &Node) -> Option<usize>
    ensures { result ≡ missing_number count (tree_of node.now) }
{
    match number_term(node) {
        None => None,
        Some(number) => place_if(index_in(count, number.value).is_none(), number.place),
    }
}

fn keys_missing(count: usize, keys: &[Node]) -> Option<usize>
    ensures { result ≡ least (map (missing_number count) (map tree_of keys.now)) }
{
    let mut place = None;
    for key in keys {
        place = lesser(place, number_missing(count, key));
    }
    place
}

fn terms_missing(count: usize, terms: &[Term]) -> Option<usize>
    ensures { result ≡ least (map (missing_term count) (map term_of terms.now)) }
{
    let mut place = None;
    for term in terms {
        place = lesser(place, number_missing(count, &term.node));
    }
    place
}

/// Whether a plain name stands for nothing but itself.
pub(crate) fn is_word(meaning: Meaning) -> bool
    ensures { result ≡ is_a_word meaning }
{
    match meaning {
        Meaning::Column { .. } => false,
        Meaning::Alias { .. } => false,
        Meaning::Word => true,
    }
}

fn plain_missing(alloc: Global, names: &Names, column: Name) -> Result<Option<usize>, NoMemory>
    requires { AreNarrow names.now.scope.now }
    ensures { IfOk result (λ place. place ≡ missing_mention (names_of names.now) (mentioned_column None column)) }
{
    let name = name_text(alloc, names.text, column)?;
    let is_missing = !column.is_quoted && is_word(meaning_of(names, name.as_str()));
    Ok(place_if(is_missing, column.span.start))
}

fn known_missing(
    alloc: Global,
    names: &Names,
    table: Name,
    column: Name,
) -> Result<Option<usize>, NoMemory>
    requires { AreNarrow names.now.scope.now }
    ensures { IfOk result (λ place. place ≡ missing_mention (names_of names.now) (mentioned_column (Some table) column)) }
{
    let name = name_text(alloc, names.text, column)?;
    let known = name_text(alloc, names.text, table)?;
    let is_missing = known_place(known.as_str(), name.as_str(), names.scope).is_none();
    Ok(place_if(is_missing, table.span.start))
}

fn mentioned_missing(
    alloc: Global,
    names: &Names,
    what: Mentioned,
) -> Result<Option<usize>, NoMemory>
    requires { AreNarrow names.now.scope.now }
    ensures { IfOk result (λ place. place ≡ missing_mention (names_of names.now) what) }
{
    match what {
        Mentioned::Column { table, column } => match table {
            None => plain_missing(alloc, names, column),
            Some(table) => known_missing(alloc, names, table, column),
        },
        Mentioned::Aggregate { .. } => Ok(None),
    }
}

fn mentions_missing(
    alloc: Global,
    names: &Names,
    found: &[Mention],
) -> Result<Option<usize>, NoMemory>
    requires { AreNarrow names.now.scope.now }
    ensures { IfOk result (λ place. place ≡ least (map (λ (m : MentionValue). missing_mention (names_for (names_of names.now) m.clause) m.what) found.now)) }
{
    let mut place = None;
    for mention in found {
        let there = names_in(names, mention.clause);
        place = lesser(place, mentioned_missing(alloc, &there, mention.what)?);
    }
    Ok(place)
}

/// The number of the columns of the result.
fn shown_count(names: &Names) -> usize
    ensures { result ≡ length (map shown_of names.now.shown.now) }
{
    names.shown.len()
}

/// NoColumn.
pub(crate) fn no_column(
    alloc: Global,
    names: &Names,
    select: &Select,
    found: &[Mention],
) -> Result<Option<usize>, NoMemory>
    requires { AreNarrow names.now.scope.now }
    ensures { IfOk result (λ place. place ≡ least_column (names_of names.now) (select_of select.now) found.now) }
{
    let count = shown_count(names);
    let of_items = items_missing(names.scope, select.items.as_slice());
    let of_usings = usings_missing(alloc, names, select.sources.as_slice())?;
    let of_keys = keys_missing(count, select.keys.as_slice());
    let of_terms = terms_missing(count, select.terms.as_slice());
    let of_mentions = mentions_missing(alloc, names, found)?;
    let of_names = lesser(of_keys, lesser(of_terms, of_mentions));
    Ok(lesser(of_items, lesser(of_usings, of_names)))
}

/// The tables that are known as an earlier one is.
fn tables_repeated(scope: &[Seen], sources: &[TableRef]) -> Option<usize>
    requires { length sources.now ≤ length scope.now }
    ensures { result ≡ repeated_tables scope.now 0 (map ref_of sources.now) }
{
    let mut place = None;
    let mut number = 0usize;
    for source in sources {
        let is_repeated = is_repeated(scope, number);
        place = lesser(place, place_if(is_repeated, source.table.span.start));
        number += 1;
    }
    place
}

/// Whether the table of that number is known as an earlier one is.
fn is_repeated(scope: &[Seen], number: usize) -> bool
    requires { number ≤ length scope.now }
    ensures { result ≡ is_known_in (known_at number scope.now) (take number scope.now) }
{
    let before = &scope[..number];
    match scope.get(number) {
        None => is_known("", before),
        Some(seen) => is_known(seen.known.as_str(), before),
    }
}

fn is_column(meaning: Meaning) -> bool
    ensures { result ≡ is_a_column meaning }
{
    match meaning {
        Meaning::Column { .. } => true,
        Meaning::Alias { .. } => false,
        Meaning::Word => false,
    }
}

fn plain_twice(alloc: Global, names: &Names, column: Name) -> Result<Option<usize>, NoMemory>
    requires { AreNarrow names.now.scope.now }
    ensures { IfOk result (λ place. place ≡ twice_mentioned (names_of names.now) (mentioned_column None column)) }
{
    let name = name_text(alloc, names.text, column)?;
    let is_twice = is_column(meaning_of(names, name.as_str()))
        && has_two_owners(name.as_str(), names.scope);
    Ok(place_if(is_twice, column.span.start))
}

fn mentioned_twice(alloc: Global, names: &Names, what: Mentioned) -> Result<Option<usize>, NoMemory>
    requires { AreNarrow names.now.scope.now }
    ensures { IfOk result (λ place. place ≡ twice_mentioned (names_of names.now) what) }
{
    match what {
        Mentioned::Column { table, column } => match table {
            None => plain_twice(alloc, names, column),
            Some(_) => Ok(None),
        },
        Mentioned::Aggregate { .. } => Ok(None),
    }
}

fn mentions_twice(
    alloc: Global,
    names: &Names,
    found: &[Mention],
) -> Result<Option<usize>, NoMemory>
    requires { AreNarrow names.now.scope.now }
    ensures { IfOk result (λ place. place ≡ least (map (λ (m : MentionValue). twice_mentioned (names_for (names_of names.now) m.clause) m.what) found.now)) }
{
    let mut place = None;
    for mention in found {
        let there = names_in(names, mention.clause);
        place = lesser(place, mentioned_twice(alloc, &there, mention.what)?);
    }
    Ok(place)
}

/// Ambiguous.
pub(crate) fn ambiguous(
    alloc: Global,
    names: &Names,
    select: &Select,
    found: &[Mention],
) -> Result<Option<usize>, NoMemory>
    requires narrow { AreNarrow names.now.scope.now }
    requires tables { length names.now.scope.now ≡ length select.now.sources }
    ensures { IfOk result (λ place. place ≡ least_ambiguous (names_of names.now) (select_of select.now) found.now) }
{
    let of_sources = tables_repeated(names.scope, select.sources.as_slice());
    let of_mentions = mentions_twice(alloc, names, found)?;
    Ok(lesser(of_sources, of_mentions))
}
