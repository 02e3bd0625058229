//! Conditions by their conjuncts.

ghost use Rattle.std.specs.Prelude.{◌≡◌, ◌++◌, ◌&&◌, [], ◌∷◌, map, option_map, IfOk, OnOk};
ghost use Rattle.sql_tree.specs.View.{tree_of, step_of, steps_of};
ghost use Rattle.sql_scope.specs.Naming.{expr_of as expr_among};
ghost use Rattle.sql_names.specs.Results.{is_and as is_the_and, is_and_step as is_step_and, are_ands as are_steps_ands, right_of, rights_of, conjuncts, condition as condition_by};
ghost use Rattle.sql_scope.specs.Scope.{AreNarrow};
ghost use Rattle.sql_scope.specs.Shown.{names_of};
ghost use Rattle.sql_query.specs.View.{expr_of};

use osq_value::NoMemory;
use sql_query::tree::Expr;
use sql_scope::expression::resolve_node;
use sql_scope::naming::Names;
use sql_tree::tree::{Node, Operator, Step};
use std::alloc::Global;

fn is_and(op: Operator) -> bool
    ensures { result ≡ is_the_and op }
{
    match op {
        Operator::And => true,
        Operator::Or => false,
        Operator::Equal => false,
        Operator::NotEqual => false,
        Operator::Is => false,
        Operator::IsNot => false,
        Operator::Less => false,
        Operator::LessEqual => false,
        Operator::Greater => false,
        Operator::GreaterEqual => false,
        Operator::Like => false,
        Operator::NotLike => false,
        Operator::Add => false,
        Operator::Subtract => false,
        Operator::Multiply => false,
        Operator::Divide => false,
        Operator::Remainder => false,
        Operator::Concat => false,
    }
}

fn is_and_step(step: &Step) -> bool
    ensures { result ≡ is_step_and (step_of step.now) }
{
    match step {
        Step::Binary { op, .. } => is_and(*op),
        Step::In { .. } => false,
        Step::Between { .. } => false,
    }
}

fn is_and_also(is_and: bool, step: &Step) -> bool
    ensures { result ≡ (is_and && is_step_and (step_of step.now)) }
{
    is_and && is_and_step(step)
}

/// Whether every operator of a chain is AND.
fn are_ands(steps: &[Step]) -> bool
    ensures { result ≡ are_steps_ands (steps_of steps.now) }
{
    let mut are = true;
    for step in steps {
        are = is_and_also(are, step);
    }
    are
}

fn push_whole(
    alloc: Global,
    parts: &mut Vec<Expr>,
    names: &Names,
    node: &Node,
) -> Result<(), NoMemory>
    requires { AreNarrow names.now.scope.now }
    ensures { OnOk result (map expr_of parts.new.items ≡ map expr_of parts.old.items ++ expr_among (names_of names.now) (tree_of node.now) ∷ []) }
{
    parts.push(resolve_node(alloc, names, node)?)?;
    Ok(())
}

/// Adds the right side of an operator.
fn push_right(
    alloc: Global,
    parts: &mut Vec<Expr>,
    names: &Names,
    step: &Step,
) -> Result<(), NoMemory>
    requires { AreNarrow names.now.scope.now }
    ensures { OnOk result (map expr_of parts.new.items ≡ map expr_of parts.old.items ++ map (expr_among (names_of names.now)) (right_of (step_of step.now))) }
{
    match step {
        Step::Binary { right, .. } => push_whole(alloc, parts, names, right),
        Step::In { .. } => Ok(()),
        Step::Between { .. } => Ok(()),
    }
}

fn push_rights(
    alloc: Global,
    parts: &mut Vec<Expr>,
    names: &Names,
    steps: &[Step],
) -> Result<(), NoMemory>
    requires { AreNarrow names.now.scope.now }
    ensures { OnOk result (map expr_of parts.new.items ≡ map expr_of parts.old.items ++ map (expr_among (names_of names.now)) (rights_of (steps_of steps.now))) }
{
    for step in steps {
        push_right(alloc, parts, names, step)?;
    }
    Ok(())
}

/// Adds the parts of an expression's outermost chain of ANDs.
fn push_conjuncts(
    alloc: Global,
    parts: &mut Vec<Expr>,
    names: &Names,
    node: &Node,
) -> Result<(), NoMemory>
    requires { AreNarrow names.now.scope.now }
    ensures { OnOk result (map expr_of parts.new.items ≡ map expr_of parts.old.items ++ map (expr_among (names_of names.now)) (conjuncts (tree_of node.now))) }
{
    match node {
        Node::Chain { first, steps } => {
            if are_ands(steps) {
                push_whole(alloc, parts, names, first)?;
                push_rights(alloc, parts, names, steps)
            } else {
                push_whole(alloc, parts, names, node)
            }
        }
        Node::Number { .. } => push_whole(alloc, parts, names, node),
        Node::Text { .. } => push_whole(alloc, parts, names, node),
        Node::Null => push_whole(alloc, parts, names, node),
        Node::Column { .. } => push_whole(alloc, parts, names, node),
        Node::Negation { .. } => push_whole(alloc, parts, names, node),
        Node::Minus { .. } => push_whole(alloc, parts, names, node),
        Node::Plus { .. } => push_whole(alloc, parts, names, node),
        Node::Cast { .. } => push_whole(alloc, parts, names, node),
        Node::Call { .. } => push_whole(alloc, parts, names, node),
        Node::Folded { argument, .. } => match argument {
            None => push_whole(alloc, parts, names, node),
            Some(_) => push_whole(alloc, parts, names, node),
        },
    }
}

/// The parts of an expression's outermost chain of ANDs.
pub(crate) fn whole_condition(
    alloc: Global,
    names: &Names,
    node: &Node,
) -> Result<Vec<Expr>, NoMemory>
    requires { AreNarrow names.now.scope.now }
    ensures { IfOk result (λ parts. map expr_of parts.items ≡ map (expr_among (names_of names.now)) (conjuncts (tree_of node.now))) }
{
    let mut parts = Vec::new(alloc);
    push_conjuncts(alloc, &mut parts, names, node)?;
    Ok(parts)
}

/// A condition by its conjuncts; a missing one has none.
pub(crate) fn condition(
    alloc: Global,
    names: &Names,
    node: &Option<Node>,
) -> Result<Vec<Expr>, NoMemory>
    requires { AreNarrow names.now.scope.now }
    ensures { IfOk result (λ parts. map expr_of parts.items ≡ condition_by (names_of names.now) (option_map tree_of node.now)) }
{
    match node {
        None => Ok(Vec::new(alloc)),
        Some(node) => whole_condition(alloc, names, node),
    }
}
