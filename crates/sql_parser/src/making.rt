//! Making a node over the ones below it.

ghost use Rattle.std.specs.Prelude.{◌≡◌, ◌++◌, [], ◌∷◌, IfOk, OnOk};
ghost use Rattle.sql_tree.specs.Tree.{chained, call as call_tree, folded as folded_tree, then, and_tree};
ghost use Rattle.sql_faults.specs.Calls.{only, folded_of};
ghost use Rattle.sql_tree.specs.View.{tree_of, step_of, steps_of, trees_of};

use sql_faults::arguments::Shape;
use sql_tree::functions::{Fold, Function};
use sql_tree::nodes;
use sql_tree::tree::{Node, Step};
use std::alloc::{AllocError, Global};

/// A chain of no operator is its operand.
pub(crate) fn chain(alloc: Global, first: Node, steps: Vec<Step>) -> Result<Node, AllocError>
    ensures { IfOk result (λ n. tree_of n ≡ chained (tree_of first) (steps_of steps.items)) }
{
    if steps.is_empty() {
        return Ok(first);
    }
    let node = nodes::chain(alloc, first, steps)?;
    Ok(node)
}

pub(crate) fn call(function: Function, arguments: Vec<Node>) -> Node
    ensures { tree_of result ≡ call_tree function (trees_of arguments.items) }
{
    Node::Call {
        function,
        arguments,
    }
}

/// The argument of an aggregate, which has one.
fn only_argument(mut arguments: Vec<Node>) -> Node
    ensures { tree_of result ≡ only (trees_of arguments.items) }
{
    match arguments.pop() {
        Some(argument) => argument,
        None => Node::Null,
    }
}

/// An aggregate over its one argument.
fn folded_over(
    alloc: Global,
    place: usize,
    fold: Fold,
    is_distinct: bool,
    arguments: Vec<Node>,
) -> Result<Node, AllocError>
    ensures { IfOk result (λ n. tree_of n ≡ folded_tree place fold is_distinct (only (trees_of arguments.items))) }
{
    nodes::folded(alloc, place, fold, is_distinct, only_argument(arguments))
}

/// An aggregate over such arguments, its name at a place.
pub(crate) fn folded(
    alloc: Global,
    place: usize,
    fold: Fold,
    shape: Shape,
    arguments: Vec<Node>,
) -> Result<Node, AllocError>
    ensures { IfOk result (λ n. tree_of n ≡ folded_of place fold shape (trees_of arguments.items)) }
{
    match shape {
        Shape::All => Ok(Node::Folded {
            place,
            fold,
            is_distinct: false,
            argument: None,
        }),
        Shape::Distinct(_) => folded_over(alloc, place, fold, true, arguments),
        Shape::Plain(_) => folded_over(alloc, place, fold, false, arguments),
    }
}

pub(crate) fn push_step(steps: &mut Vec<Step>, step: Step) -> Result<(), AllocError>
    ensures { OnOk result (steps_of steps.new.items ≡ then (steps_of steps.old.items) (step_of step)) }
{
    steps.push(step)?;
    Ok(())
}

pub(crate) fn push_node(nodes: &mut Vec<Node>, node: Node) -> Result<(), AllocError>
    ensures { OnOk result (trees_of nodes.new.items ≡ and_tree (trees_of nodes.old.items) (tree_of node)) }
{
    nodes.push(node)?;
    Ok(())
}
