//! Expressions with each name for what it stands for.

ghost use Rattle.std.specs.Prelude.{◌≡◌, IfOk, option_map};
ghost use Rattle.sql_tree.specs.View.{tree_of, step_of, steps_of, trees_of};
ghost use Rattle.sql_scope.specs.Naming.{expr_of as expr_among, expr_step_of, expr_steps_of, exprs_of as exprs_among, affinity_of as affinity_by};
ghost use Rattle.sql_scope.specs.Scope.{AreNarrow};
ghost use Rattle.sql_scope.specs.Shown.{names_of};
ghost use Rattle.sql_query.specs.View.{expr_of, step_of as expr_step, steps_of as expr_steps, exprs_of, aggregate_by};

use crate::naming::{Names, named};
use crate::spelling::literal_text;
use osq_value::{Affinity, NoMemory, Value};
use sql_query::exprs;
use sql_query::tree::{Aggregate, Expr, ExprStep};
use sql_tree::functions::Fold;
use sql_tree::tree::{Node, Step};
use std::alloc::Global;

fn affinity_of(is_text: bool) -> Affinity
    ensures { result ≡ affinity_by is_text }
{
    if is_text {
        Affinity::Text
    } else {
        Affinity::Integer
    }
}

/// An aggregate over an argument, or over none.
fn folded(
    alloc: Global,
    fold: Fold,
    is_distinct: bool,
    argument: Option<Expr>,
) -> Result<Expr, NoMemory>
    ensures { IfOk result (λ e. expr_of e ≡ aggregate_by fold is_distinct (option_map expr_of argument)) }
{
    Ok(Expr::Folded {
        aggregate: Box::new(
            alloc,
            Aggregate {
                fold,
                is_distinct,
                argument,
            },
        )?,
    })
}

/// An expression with each of its names for what it stands for.
#[cycle(resolve)]
pub fn resolve_node(alloc: Global, names: &Names, node: &Node) -> Result<Expr, NoMemory>
    requires { AreNarrow names.now.scope.now }
    ensures { IfOk result (λ e. expr_of e ≡ expr_among (names_of names.now) (tree_of node.now)) }
{
    match node {
        Node::Number { value, .. } => Ok(Expr::Literal {
            value: Value::Int(*value),
        }),
        Node::Text { span } => Ok(Expr::Literal {
            value: Value::Text(literal_text(alloc, names.text, *span)?),
        }),
        Node::Null => Ok(Expr::Literal { value: Value::Null }),
        Node::Column { table, column } => named(alloc, names, *table, *column),
        Node::Chain { first, steps } => {
            let first = resolve_node(alloc, names, first)?;
            exprs::chain(alloc, first, resolve_steps(alloc, names, steps)?)
        }
        Node::Negation { inner } => exprs::negation(alloc, resolve_node(alloc, names, inner)?),
        Node::Minus { inner } => exprs::minus(alloc, resolve_node(alloc, names, inner)?),
        Node::Plus { inner } => exprs::plus(alloc, resolve_node(alloc, names, inner)?),
        Node::Cast { inner, is_text } => {
            let inner = resolve_node(alloc, names, inner)?;
            exprs::cast(alloc, inner, affinity_of(*is_text))
        }
        Node::Call {
            function,
            arguments,
        } => Ok(Expr::Call {
            function: *function,
            arguments: resolve_nodes(alloc, names, arguments)?,
        }),
        Node::Folded {
            fold,
            is_distinct,
            argument,
            ..
        } => match argument {
            None => folded(alloc, *fold, *is_distinct, None),
            Some(argument) => {
                let argument = resolve_node(alloc, names, argument)?;
                folded(alloc, *fold, *is_distinct, Some(argument))
            }
        },
    }
}

#[cycle(resolve)]
fn resolve_step(alloc: Global, names: &Names, step: &Step) -> Result<ExprStep, NoMemory>
    requires { AreNarrow names.now.scope.now }
    ensures { IfOk result (λ s. expr_step s ≡ expr_step_of (names_of names.now) (step_of step.now)) }
{
    match step {
        Step::Binary { op, right } => Ok(ExprStep::Binary {
            op: *op,
            right: resolve_node(alloc, names, right)?,
        }),
        Step::In { is_negated, items } => Ok(ExprStep::In {
            is_negated: *is_negated,
            items: resolve_nodes(alloc, names, items)?,
        }),
        Step::Between {
            is_negated,
            low,
            high,
        } => Ok(ExprStep::Between {
            is_negated: *is_negated,
            low: resolve_node(alloc, names, low)?,
            high: resolve_node(alloc, names, high)?,
        }),
    }
}

#[cycle(resolve)]
fn resolve_steps(alloc: Global, names: &Names, steps: &[Step]) -> Result<Vec<ExprStep>, NoMemory>
    requires { AreNarrow names.now.scope.now }
    ensures { IfOk result (λ made. expr_steps made.items ≡ expr_steps_of (names_of names.now) (steps_of steps.now)) }
{
    let mut resolved = Vec::new(alloc);
    for step in steps {
        resolved.push(resolve_step(alloc, names, step)?)?;
    }
    Ok(resolved)
}

#[cycle(resolve)]
fn resolve_nodes(alloc: Global, names: &Names, nodes: &[Node]) -> Result<Vec<Expr>, NoMemory>
    requires { AreNarrow names.now.scope.now }
    ensures { IfOk result (λ made. exprs_of made.items ≡ exprs_among (names_of names.now) (trees_of nodes.now)) }
{
    let mut resolved = Vec::new(alloc);
    for node in nodes {
        resolved.push(resolve_node(alloc, names, node)?)?;
    }
    Ok(resolved)
}
