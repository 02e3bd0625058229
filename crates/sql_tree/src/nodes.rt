//! Nodes over the ones below them.

ghost use Rattle.std.specs.Prelude.{◌≡◌, IfOk};
ghost use Rattle.sql_tree.specs.Tree.{negation as negation_tree, minus as minus_tree, plus as plus_tree, cast as cast_tree, chain as chain_tree, folded as folded_tree};
ghost use Rattle.sql_tree.specs.View.{tree_of, steps_of};

use crate::functions::Fold;
use crate::tree::{Node, Step};
use std::alloc::{AllocError, Global};

/// NOT of an expression.
pub fn negation(alloc: Global, inner: Node) -> Result<Node, AllocError>
    ensures { IfOk result (λ n. tree_of n ≡ negation_tree (tree_of inner)) }
{
    Ok(Node::Negation {
        inner: Box::new(alloc, inner)?,
    })
}

/// An expression behind the sign `-`.
pub fn minus(alloc: Global, inner: Node) -> Result<Node, AllocError>
    ensures { IfOk result (λ n. tree_of n ≡ minus_tree (tree_of inner)) }
{
    Ok(Node::Minus {
        inner: Box::new(alloc, inner)?,
    })
}

/// An expression behind the sign `+`.
pub fn plus(alloc: Global, inner: Node) -> Result<Node, AllocError>
    ensures { IfOk result (λ n. tree_of n ≡ plus_tree (tree_of inner)) }
{
    Ok(Node::Plus {
        inner: Box::new(alloc, inner)?,
    })
}

/// CAST of an expression: AS TEXT, or else AS INTEGER.
pub fn cast(alloc: Global, inner: Node, is_text: bool) -> Result<Node, AllocError>
    ensures { IfOk result (λ n. tree_of n ≡ cast_tree (tree_of inner) is_text) }
{
    Ok(Node::Cast {
        inner: Box::new(alloc, inner)?,
        is_text,
    })
}

/// An operand with its steps, of which there may be none.
pub fn chain(alloc: Global, first: Node, steps: Vec<Step>) -> Result<Node, AllocError>
    ensures { IfOk result (λ n. tree_of n ≡ chain_tree (tree_of first) (steps_of steps.items)) }
{
    Ok(Node::Chain {
        first: Box::new(alloc, first)?,
        steps,
    })
}

/// An aggregate over an argument, its name at a place.
pub fn folded(
    alloc: Global,
    place: usize,
    fold: Fold,
    is_distinct: bool,
    argument: Node,
) -> Result<Node, AllocError>
    ensures { IfOk result (λ n. tree_of n ≡ folded_tree place fold is_distinct (tree_of argument)) }
{
    let argument = Box::new(alloc, argument)?;
    Ok(Node::Folded {
        place,
        fold,
        is_distinct,
        argument: Some(argument),
    })
}
