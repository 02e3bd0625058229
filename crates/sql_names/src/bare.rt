//! Columns outside every aggregate and every expression of GROUP BY, beside MIN or MAX.

ghost use Rattle.std.specs.Prelude.{◌≡◌, Some, map, option_map, IfOk};
ghost use Rattle.sql_tree.specs.View.{tree_of, step_of, steps_of, trees_of};
ghost use Rattle.sql_tree.specs.Select.{item_of, having_of, term_of, select_of};
ghost use Rattle.sql_names.specs.Bare.{is_key as is_a_key, unless as only_unless, bare_meaning as meaning_bare, bare_column as column_bare, bare, bare_step as step_bare, bare_steps as steps_bare, bare_trees as trees_bare, are_keys as are_all_keys, item_bare as bare_item, having_bare as bare_having, term_bare as bare_term, is_extreme_fold as is_extreme_of, is_extreme as is_an_extreme, has_extreme as has_an_extreme, bare_in as least_bare_in, bare_column_of as least_bare};
ghost use Rattle.sql_names.specs.Kinds.{names_in as names_for};
ghost use Rattle.sql_names.specs.Least.{least};
ghost use Rattle.sql_scope.specs.Naming.{expr_of as expr_among};
ghost use Rattle.sql_scope.specs.Scope.{AreNarrow};
ghost use Rattle.sql_scope.specs.Shown.{shown_of, names_of};
ghost use Rattle.sql_query.specs.View.{expr_of};

use crate::aggregates::forbids;
use crate::faults::names_in;
use crate::results::{lesser, push_all, push_known};
use osq_value::NoMemory;
use sql_query::query::ExprList;
use sql_query::same::is_one_expr;
use sql_query::tree::Expr;
use sql_scope::expression::resolve_node;
use sql_scope::mention::{Clause, Mention, Mentioned};
use sql_scope::naming::{Meaning, Names, Shown, meaning_of};
use sql_scope::spelling::name_text;
use sql_tree::functions::Fold;
use sql_tree::select::{Having, Item, Select, Term};
use sql_tree::tree::{Name, Node, Step};
use std::alloc::Global;

/// Whether an expression is one of GROUP BY.
fn is_key(keys: &[Expr], expr: &Expr) -> bool
    ensures { result ≡ is_a_key (map expr_of keys.now) (expr_of expr.now) }
{
    for key in keys {
        if is_one_expr(key, expr) {
            return true;
        }
    }
    false
}

/// Whether an expression, with its names for what they stand for, is one of GROUP BY.
fn is_key_node(alloc: Global, names: &Names, keys: &ExprList, node: &Node) -> Result<bool, NoMemory>
    requires { AreNarrow names.now.scope.now }
    ensures { IfOk result (λ is. is ≡ is_a_key (map expr_of keys.now) (expr_among (names_of names.now) (tree_of node.now))) }
{
    if keys.len() == 0 {
        return Ok(false);
    }
    let expr = resolve_node(alloc, names, node)?;
    Ok(is_key(keys.as_slice(), &expr))
}

fn bare_meaning(meaning: Meaning, place: usize) -> Option<usize>
    ensures { result ≡ meaning_bare meaning place }
{
    match meaning {
        Meaning::Column { .. } => Some(place),
        Meaning::Alias { .. } => None,
        Meaning::Word => None,
    }
}

/// The place of a name that is a column.
fn bare_column(
    alloc: Global,
    names: &Names,
    table: Option<Name>,
    column: Name,
) -> Result<Option<usize>, NoMemory>
    requires { AreNarrow names.now.scope.now }
    ensures { IfOk result (λ place. place ≡ column_bare (names_of names.now) table column) }
{
    match table {
        Some(table) => Ok(Some(table.span.start)),
        None => {
            let name = name_text(alloc, names.text, column)?;
            let meaning = meaning_of(names, name.as_str());
            Ok(bare_meaning(meaning, column.span.start))
        }
    }
}

/// The least place of such a column in an expression.
#[cycle(bare)]
fn bare_node(
    alloc: Global,
    names: &Names,
    keys: &ExprList,
    node: &Node,
) -> Result<Option<usize>, NoMemory>
    requires { AreNarrow names.now.scope.now }
    ensures { IfOk result (λ place. place ≡ bare (names_of names.now) (map expr_of keys.now) (tree_of node.now)) }
{
    if is_key_node(alloc, names, keys, node)? {
        return Ok(None);
    }
    match node {
        Node::Number { .. } => Ok(None),
        Node::Text { .. } => Ok(None),
        Node::Null => Ok(None),
        Node::Column { table, column } => bare_column(alloc, names, *table, *column),
        Node::Chain { first, steps } => {
            let of_first = bare_node(alloc, names, keys, first)?;
            let of_steps = bare_steps(alloc, names, keys, steps)?;
            Ok(lesser(of_first, of_steps))
        }
        Node::Negation { inner } => bare_node(alloc, names, keys, inner),
        Node::Minus { inner } => bare_node(alloc, names, keys, inner),
        Node::Plus { inner } => bare_node(alloc, names, keys, inner),
        Node::Cast { inner, .. } => bare_node(alloc, names, keys, inner),
        Node::Call { arguments, .. } => bare_nodes(alloc, names, keys, arguments),
        Node::Folded { argument, .. } => match argument {
            None => Ok(None),
            Some(_) => Ok(None),
        },
    }
}

#[cycle(bare)]
fn bare_step(
    alloc: Global,
    names: &Names,
    keys: &ExprList,
    step: &Step,
) -> Result<Option<usize>, NoMemory>
    requires { AreNarrow names.now.scope.now }
    ensures { IfOk result (λ place. place ≡ step_bare (names_of names.now) (map expr_of keys.now) (step_of step.now)) }
{
    match step {
        Step::Binary { right, .. } => bare_node(alloc, names, keys, right),
        Step::In { items, .. } => bare_nodes(alloc, names, keys, items),
        Step::Between { low, high, .. } => {
            let of_low = bare_node(alloc, names, keys, low)?;
            let of_high = bare_node(alloc, names, keys, high)?;
            Ok(lesser(of_low, of_high))
        }
    }
}

#[cycle(bare)]
fn bare_steps(
    alloc: Global,
    names: &Names,
    keys: &ExprList,
    steps: &[Step],
) -> Result<Option<usize>, NoMemory>
    requires { AreNarrow names.now.scope.now }
    ensures { IfOk result (λ place. place ≡ steps_bare (names_of names.now) (map expr_of keys.now) (steps_of steps.now)) }
{
    let mut place = None;
    for step in steps {
        place = lesser(place, bare_step(alloc, names, keys, step)?);
    }
    Ok(place)
}

#[cycle(bare)]
fn bare_nodes(
    alloc: Global,
    names: &Names,
    keys: &ExprList,
    nodes: &[Node],
) -> Result<Option<usize>, NoMemory>
    requires { AreNarrow names.now.scope.now }
    ensures { IfOk result (λ place. place ≡ trees_bare (names_of names.now) (map expr_of keys.now) (trees_of nodes.now)) }
{
    let mut place = None;
    for node in nodes {
        place = lesser(place, bare_node(alloc, names, keys, node)?);
    }
    Ok(place)
}

/// Whether each column of the result is an expression of GROUP BY.
fn are_keys(keys: &ExprList, shown: &[Shown]) -> bool
    ensures { result ≡ are_all_keys (map expr_of keys.now) (map shown_of shown.now) }
{
    for column in shown {
        if !is_key(keys.as_slice(), &column.expr) {
            return false;
        }
    }
    true
}

fn unless(is_key: bool, place: usize) -> Option<usize>
    ensures { result ≡ only_unless is_key (Some place) }
{
    if is_key { None } else { Some(place) }
}

fn item_bare(
    alloc: Global,
    names: &Names,
    keys: &ExprList,
    item: &Item,
) -> Result<Option<usize>, NoMemory>
    requires { AreNarrow names.now.scope.now }
    ensures { IfOk result (λ place. place ≡ bare_item (names_of names.now) (map expr_of keys.now) (item_of item.now)) }
{
    match item {
        Item::All { place } => {
            let mut shown = Vec::new(alloc);
            push_all(alloc, &mut shown, names.scope)?;
            Ok(unless(are_keys(keys, &shown), *place))
        }
        Item::AllOf { table } => {
            let name = name_text(alloc, names.text, *table)?;
            let mut shown = Vec::new(alloc);
            push_known(alloc, &mut shown, name.as_str(), names.scope)?;
            Ok(unless(are_keys(keys, &shown), table.span.start))
        }
        Item::One { node, .. } => bare_node(alloc, names, keys, node),
    }
}

fn items_bare(
    alloc: Global,
    names: &Names,
    keys: &ExprList,
    items: &[Item],
) -> Result<Option<usize>, NoMemory>
    requires { AreNarrow names.now.scope.now }
    ensures { IfOk result (λ place. place ≡ least (map (bare_item (names_of names.now) (map expr_of keys.now)) (map item_of items.now))) }
{
    let mut place = None;
    for item in items {
        place = lesser(place, item_bare(alloc, names, keys, item)?);
    }
    Ok(place)
}

fn having_bare(
    alloc: Global,
    names: &Names,
    keys: &ExprList,
    having: &Option<Having>,
) -> Result<Option<usize>, NoMemory>
    requires { AreNarrow names.now.scope.now }
    ensures { IfOk result (λ place. place ≡ bare_having (names_of names.now) (map expr_of keys.now) (option_map having_of having.now)) }
{
    match having {
        None => Ok(None),
        Some(having) => bare_node(alloc, names, keys, &having.node),
    }
}

fn terms_bare(
    alloc: Global,
    names: &Names,
    keys: &ExprList,
    terms: &[Term],
) -> Result<Option<usize>, NoMemory>
    requires { AreNarrow names.now.scope.now }
    ensures { IfOk result (λ place. place ≡ least (map (bare_term (names_of names.now) (map expr_of keys.now)) (map term_of terms.now))) }
{
    let mut place = None;
    for term in terms {
        place = lesser(place, bare_node(alloc, names, keys, &term.node)?);
    }
    Ok(place)
}

fn is_extreme_fold(fold: Fold) -> bool
    ensures { result ≡ is_extreme_of fold }
{
    match fold {
        Fold::Count => false,
        Fold::Sum => false,
        Fold::Min => true,
        Fold::Max => true,
    }
}

/// Whether MIN or MAX is mentioned.
fn is_extreme(what: Mentioned) -> bool
    ensures { result ≡ is_an_extreme what }
{
    match what {
        Mentioned::Column { .. } => false,
        Mentioned::Aggregate { fold, .. } => is_extreme_fold(fold),
    }
}

/// Whether MIN or MAX stands where an aggregate may.
fn has_extreme(found: &[Mention]) -> bool
    ensures { result ≡ has_an_extreme found.now }
{
    for mention in found {
        if is_extreme(mention.what) && !forbids(mention.clause) {
            return true;
        }
    }
    false
}

fn bare_in(
    alloc: Global,
    names: &Names,
    keys: &ExprList,
    select: &Select,
) -> Result<Option<usize>, NoMemory>
    requires { AreNarrow names.now.scope.now }
    ensures { IfOk result (λ place. place ≡ least_bare_in (names_of names.now) (map expr_of keys.now) (select_of select.now)) }
{
    let of_item = names_in(names, Clause::Item);
    let of_items = items_bare(alloc, &of_item, keys, select.items.as_slice())?;
    let in_having = names_in(names, Clause::Having);
    let of_having = having_bare(alloc, &in_having, keys, &select.having)?;
    let of_term = names_in(names, Clause::Term);
    let of_terms = terms_bare(alloc, &of_term, keys, select.terms.as_slice())?;
    Ok(lesser(of_items, lesser(of_having, of_terms)))
}

/// BareColumn, by the expressions of GROUP BY.
pub(crate) fn bare_column_of(
    alloc: Global,
    names: &Names,
    keys: &ExprList,
    select: &Select,
    found: &[Mention],
) -> Result<Option<usize>, NoMemory>
    requires { AreNarrow names.now.scope.now }
    ensures { IfOk result (λ place. place ≡ least_bare (names_of names.now) (map expr_of keys.now) (select_of select.now) found.now) }
{
    if has_extreme(found) {
        bare_in(alloc, names, keys, select)
    } else {
        Ok(None)
    }
}
