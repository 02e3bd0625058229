//! The query that a select stands for.

ghost use Rattle.std.specs.Prelude.{◌≡◌, ◌≤◌, ◌++◌, ◌+◌, ◌<◌, ◌^◌, [], ◌∷◌, map, take, length, option_map, IfOk, OnOk};
ghost use Rattle.osq_value.specs.Catalogue.{table_name as name_of_table};
ghost use Rattle.sql_tree.specs.View.{tree_of};
ghost use Rattle.sql_tree.specs.Select.{ref_of, having_of, term_of, select_of};
ghost use Rattle.sql_tree.specs.declared.tree.Operator.TheVariants.{Equal as EqualSign};
ghost use Rattle.sql_query.specs.Tables.{name_at};
ghost use Rattle.sql_query.specs.Exprs.{chain as chain_tree, then as then_step, no_steps as no_expr_steps, binary as binary_step};
ghost use Rattle.sql_scope.specs.declared.mention.Clause.TheVariants.{Where as WhereClause};
ghost use Rattle.sql_names.specs.Kinds.{names_in as names_for};
ghost use Rattle.sql_scope.specs.Naming.{place_or_word as placed_or_word};
ghost use Rattle.sql_names.specs.Results.{numbered_expr as expr_numbered, term_expr as expr_of_term, condition as condition_by};
ghost use Rattle.sql_names.specs.Making.{equality as equality_of, joined_name as equality_named, source_alias as alias_of_source, join_exprs, source_tree, source_trees, result_tree, orders, key_exprs, having_tree, query_tree};
ghost use Rattle.sql_query.specs.Resolved.{result_of, order_of, source_of, query_of};
ghost use Rattle.sql_names.specs.Resolve.{whole_names};
ghost use Rattle.sql_scope.specs.Scope.{AreNarrow};
ghost use Rattle.sql_scope.specs.Shown.{shown_of, names_of};
ghost use Rattle.sql_query.specs.View.{expr_of};

use crate::aggregates::is_grouped;
use crate::conditions::{condition, whole_condition};
use crate::faults::{names_in, place_at, place_before};
use crate::results::{index_in, number_term};
use osq_value::{Copied, NoMemory, Sequence, Str, TableId, Value, table_desc};
use sql_query::copy::copy_expr;
use sql_query::derived::{Derived, derived_at};
use sql_query::place::Place;
use sql_query::query::{
    Condition, ExprList, Order, OrderList, Query, QueryItem, QueryItemList, QuerySource,
    QuerySourceList,
};
use sql_query::tree::{Expr, ExprStep};
use sql_scope::expression::resolve_node;
use sql_scope::mention::{Clause, Mention};
use sql_scope::naming::{Names, Rule, Shown, column_at, word};
use sql_scope::spelling::name_text;
use sql_scope::tables::{columns_seen, table_number};
use sql_tree::select::{Having, Select, TableRef, Term};
use sql_tree::tree::{Name, Node, Operator};
use std::alloc::Global;

/// A column, or the word itself as a text.
fn place_or_word(place: Option<Place>, name: Str) -> Expr
    ensures { expr_of result ≡ placed_or_word place name }
{
    match place {
        None => word(name),
        Some(place) => column_at(place),
    }
}

/// Two expressions as one equality.
fn equals(alloc: Global, left: Expr, right: Expr) -> Result<Expr, NoMemory>
    ensures { IfOk result (λ e. expr_of e ≡ chain_tree (expr_of left) (then_step no_expr_steps (binary_step EqualSign (expr_of right)))) }
{
    let mut steps = Vec::new(alloc);
    steps.push(ExprStep::Binary {
        op: Operator::Equal,
        right,
    })?;
    Ok(Expr::Chain {
        first: Box::new(alloc, left)?,
        steps,
    })
}

/// What a name of USING stands for.
fn equality(alloc: Global, names: &Names, number: usize, name: Name) -> Result<Expr, NoMemory>
    requires { AreNarrow names.now.scope.now }
    ensures { IfOk result (λ e. expr_of e ≡ equality_named (names_of names.now) number name) }
{
    let text = name_text(alloc, names.text, name)?;
    let before = place_before(number, text.as_str(), names.scope);
    let there = place_at(number, text.as_str(), names.scope);
    let left = place_or_word(before, name_text(alloc, names.text, name)?);
    let right = place_or_word(there, text);
    equals(alloc, left, right)
}

/// Adds the equalities of USING.
fn push_equalities(
    alloc: Global,
    parts: &mut Vec<Expr>,
    names: &Names,
    number: usize,
    joined: &[Name],
) -> Result<(), NoMemory>
    requires { AreNarrow names.now.scope.now }
    ensures { OnOk result (map expr_of parts.new.items ≡ map expr_of parts.old.items ++ map (equality_named (names_of names.now) number) joined.now) }
{
    for name in joined {
        parts.push(equality(alloc, names, number, *name)?)?;
    }
    Ok(())
}

/// The catalogue's name of a table.
fn name_in_catalogue(alloc: Global, table: TableId) -> Result<Str, NoMemory>
    ensures { IfOk result (λ name. name ≡ name_of_table table.0) }
{
    match table_desc(table) {
        Some(found) => Str::of(alloc, found.name),
        None => Ok(Str::empty()),
    }
}

/// A table's own name.
#[tactic(auto, unfolding(sql_query::specs::Tables::name_at))]
fn table_name(alloc: Global, derived: &[Derived], table: TableId) -> Result<Str, NoMemory>
    ensures { IfOk result (λ name. name ≡ name_at derived.now table.0) }
{
    match derived_at(derived, table) {
        Some(found) => found.name.copy(alloc),
        None => name_in_catalogue(alloc, table),
    }
}

/// The alias of a FROM table, or its own name.
fn source_alias(
    alloc: Global,
    derived: &[Derived],
    text: &str,
    table: TableId,
    alias: Option<Name>,
) -> Result<Str, NoMemory>
    ensures { IfOk result (λ made. made ≡ alias_of_source text.now (name_at derived.now table.0) alias) }
{
    match alias {
        None => table_name(alloc, derived, table),
        Some(alias) => name_text(alloc, text, alias),
    }
}

/// The conditions of a join.
fn join_condition(
    alloc: Global,
    names: &Names,
    number: usize,
    source: &TableRef,
) -> Result<Vec<Expr>, NoMemory>
    requires narrow { AreNarrow names.now.scope.now }
    requires few { number + 1 < 2 ^ 64 }
    ensures { IfOk result (λ parts. map expr_of parts.items ≡ join_exprs (names_of names.now) number (ref_of source.now)) }
{
    let there = names_in(names, Clause::On { reach: number + 1 });
    let mut parts = condition(alloc, &there, &source.on)?;
    push_equalities(alloc, &mut parts, names, number, source.using.as_slice())?;
    Ok(parts)
}

/// A FROM table.
fn source(
    alloc: Global,
    names: &Names,
    number: usize,
    source: &TableRef,
) -> Result<QuerySource, NoMemory>
    requires narrow { AreNarrow names.now.scope.now }
    requires few { number + 1 < 2 ^ 64 }
    requires numbered { length names.now.derived.now ≤ 100 }
    ensures { IfOk result (λ made. source_of made ≡ source_tree (names_of names.now) number (ref_of source.now)) }
{
    let name = name_text(alloc, names.text, source.table)?;
    let table = table_number(names.derived, name.as_str());
    let on = join_condition(alloc, names, number, source)?;
    Ok(QuerySource {
        table,
        name: table_name(alloc, names.derived, table)?,
        alias: source_alias(alloc, names.derived, names.text, table, source.alias)?,
        columns: columns_seen(alloc, names.derived, table)?,
        is_outer: source.is_outer,
        on: Condition::of(on),
    })
}

/// The FROM tables.
fn sources(alloc: Global, names: &Names, tables: &[TableRef]) -> Result<QuerySourceList, NoMemory>
    requires narrow { AreNarrow names.now.scope.now }
    requires numbered { length names.now.derived.now ≤ 100 }
    ensures { IfOk result (λ made. map source_of made ≡ source_trees (names_of names.now) 0 (map ref_of tables.now)) }
{
    let mut made = Sequence::new(alloc);
    let mut number = 0usize;
    for table in tables {
        made.push(source(alloc, names, number, table)?)?;
        number += 1;
    }
    Ok(made)
}

/// A copy of the expression of the result column with that number from 1, or the number itself.
fn numbered_expr(alloc: Global, shown: &[Shown], number: i64) -> Result<Expr, NoMemory>
    ensures { IfOk result (λ e. expr_of e ≡ expr_numbered (map shown_of shown.now) number) }
{
    let itself = Expr::Literal {
        value: Value::Int(number),
    };
    match index_in(shown.len(), number) {
        None => Ok(itself),
        Some(index) => match shown.get(index) {
            None => Ok(itself),
            Some(column) => copy_expr(alloc, &column.expr),
        },
    }
}

/// An expression of GROUP BY or ORDER BY.
fn term_expr(alloc: Global, names: &Names, node: &Node) -> Result<Expr, NoMemory>
    requires { AreNarrow names.now.scope.now }
    ensures { IfOk result (λ e. expr_of e ≡ expr_of_term (names_of names.now) (tree_of node.now)) }
{
    match number_term(node) {
        None => resolve_node(alloc, names, node),
        Some(number) => numbered_expr(alloc, names.shown, number.value),
    }
}

/// The expressions of GROUP BY.
pub(crate) fn keys_of(alloc: Global, names: &Names, keys: &[Node]) -> Result<ExprList, NoMemory>
    requires { AreNarrow names.now.scope.now }
    ensures { IfOk result (λ made. map expr_of made ≡ key_exprs (names_of names.now) (map tree_of keys.now)) }
{
    let there = names_in(names, Clause::Key);
    let mut made = Sequence::new(alloc);
    for key in keys {
        made.push(term_expr(alloc, &there, key)?)?;
    }
    Ok(made)
}

/// The terms of ORDER BY.
fn terms_of(alloc: Global, names: &Names, terms: &[Term]) -> Result<OrderList, NoMemory>
    requires { AreNarrow names.now.scope.now }
    ensures { IfOk result (λ made. map order_of made ≡ orders (names_of names.now) (map term_of terms.now)) }
{
    let there = names_in(names, Clause::Term);
    let mut made = Sequence::new(alloc);
    for term in terms {
        made.push(Order {
            expr: term_expr(alloc, &there, &term.node)?,
            is_descending: term.is_descending,
        })?;
    }
    Ok(made)
}

/// The condition of HAVING.
fn having_parts(
    alloc: Global,
    names: &Names,
    having: &Option<Having>,
) -> Result<Vec<Expr>, NoMemory>
    requires { AreNarrow names.now.scope.now }
    ensures { IfOk result (λ parts. map expr_of parts.items ≡ condition_by (names_of names.now) (having_tree (option_map having_of having.now))) }
{
    match having {
        None => Ok(Vec::new(alloc)),
        Some(having) => whole_condition(alloc, names, &having.node),
    }
}

/// The condition of WHERE.
fn where_parts(alloc: Global, names: &Names, filter: &Option<Node>) -> Result<Vec<Expr>, NoMemory>
    requires { AreNarrow names.now.scope.now }
    ensures { IfOk result (λ parts. map expr_of parts.items ≡ condition_by (names_for (names_of names.now) WhereClause) (option_map tree_of filter.now)) }
{
    let there = names_in(names, Clause::Where);
    condition(alloc, &there, filter)
}

/// The columns of the result, of which the names and the expressions are kept.
fn items_of(alloc: Global, shown: Vec<Shown>) -> Result<QueryItemList, NoMemory>
    ensures { IfOk result (λ items. map result_of items ≡ map result_tree (map shown_of shown.items)) }
{
    let mut items = Sequence::new(alloc);
    for column in shown {
        items.push(QueryItem {
            name: column.name,
            expr: column.expr,
        })?;
    }
    Ok(items)
}

/// The query of a select with these mentions, by what its tables name, the columns of its result
/// and the expressions of its GROUP BY.
pub(crate) fn query_of_select(
    alloc: Global,
    tables: &Names,
    shown: Vec<Shown>,
    keys: ExprList,
    select: &Select,
    found: &[Mention],
) -> Result<Query, NoMemory>
    requires narrow { AreNarrow tables.now.scope.now }
    requires numbered { length tables.now.derived.now ≤ 100 }
    requires keys { map expr_of keys ≡ key_exprs (whole_names tables.now.derived.now tables.now.text.now tables.now.scope.now (map shown_of shown.items)) (map tree_of select.now.keys) }
    ensures { IfOk result (λ q. query_of q ≡ query_tree (whole_names tables.now.derived.now tables.now.text.now tables.now.scope.now (map shown_of shown.items)) (select_of select.now) found.now) }
{
    let names = Names {
        derived: tables.derived,
        text: tables.text,
        scope: tables.scope,
        shown: shown.as_slice(),
        rule: Rule::Columns,
    };
    let made = sources(alloc, &names, select.sources.as_slice())?;
    let filter = where_parts(alloc, &names, &select.filter)?;
    let in_having = names_in(&names, Clause::Having);
    let having = having_parts(alloc, &in_having, &select.having)?;
    let terms = terms_of(alloc, &names, select.terms.as_slice())?;
    let is_grouped = is_grouped(select.keys.as_slice(), found);
    Ok(Query {
        sources: made,
        filter: Condition::of(filter),
        is_grouped,
        keys,
        having: Condition::of(having),
        items: items_of(alloc, shown)?,
        is_distinct: select.is_distinct,
        terms,
        limit: select.limit,
        skip: select.skip,
    })
}
