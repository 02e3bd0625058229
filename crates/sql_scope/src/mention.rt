//! The columns and aggregates that a select mentions.

ghost use Rattle.std.specs.Prelude.{◌≡◌, ◌++◌, List, [], ◌∷◌, true, false, map, OnOk, IfOk, option_map};
ghost use Rattle.sql_tree.specs.View.{tree_of, step_of, steps_of, trees_of};
ghost use Rattle.sql_tree.specs.Select.{ItemTree, item_of, ref_of, having_of, term_of, select_of};
ghost use Rattle.sql_scope.specs.declared.mention.Mentioned.TheVariants.{Column as ColumnMentioned, Aggregate as AggregateMentioned};
ghost use Rattle.sql_scope.specs.Mentions.{mentions, mentions_of_step, mentions_of_steps, mentions_of_trees, mentions_of_option, mentions_of_items, mentions_of_sources, mentions_of_keys, mentions_of_having, mentions_of_terms, mentions_of_select};

use osq_value::NoMemory;
use sql_tree::functions::Fold;
use sql_tree::select::{Having, Item, Select, TableRef, Term};
use sql_tree::tree::{Name, Node, Step};
use std::alloc::Global;

/// Where in a select an expression stands.
#[derive(Clone, Copy)]
pub enum Clause {
    Item,
    /// In ON, from which so many of the FROM tables are seen.
    On { reach: usize },
    Where,
    Key,
    Having,
    Term,
}

/// What is mentioned.
#[derive(Clone, Copy)]
pub enum Mentioned {
    Column { table: Option<Name>, column: Name },
    Aggregate { place: usize, fold: Fold },
}

/// A column or an aggregate, where it stands.
#[derive(Clone, Copy)]
pub struct Mention {
    /// The clause that it stands in.
    pub clause: Clause,
    /// Whether it stands inside an aggregate.
    pub is_inside: bool,
    /// What is mentioned there.
    pub what: Mentioned,
}

/// What an expression stands in.
#[derive(Clone, Copy)]
struct Spot {
    clause: Clause,
    is_inside: bool,
}

impl Spot {
    /// Adds a mention that stands there.
    fn add(self, found: &mut Vec<Mention>, what: Mentioned) -> Result<(), NoMemory>
        ensures { OnOk result (found.new.items ≡ found.old.items ++ record { clause = self.clause; is_inside = self.is_inside; what = what } ∷ []) }
    {
        found.push(Mention {
            clause: self.clause,
            is_inside: self.is_inside,
            what,
        })?;
        Ok(())
    }

    fn add_column(
        self,
        found: &mut Vec<Mention>,
        table: Option<Name>,
        column: Name,
    ) -> Result<(), NoMemory>
        ensures { OnOk result (found.new.items ≡ found.old.items ++ record { clause = self.clause; is_inside = self.is_inside; what = ColumnMentioned table column } ∷ []) }
    {
        self.add(found, Mentioned::Column { table, column })
    }

    fn add_aggregate(
        self,
        found: &mut Vec<Mention>,
        place: usize,
        fold: Fold,
    ) -> Result<(), NoMemory>
        ensures { OnOk result (found.new.items ≡ found.old.items ++ record { clause = self.clause; is_inside = self.is_inside; what = AggregateMentioned place fold } ∷ []) }
    {
        self.add(found, Mentioned::Aggregate { place, fold })
    }

    /// The same inside an aggregate.
    fn inside(self) -> Spot
        ensures clause { result.clause ≡ self.clause }
        ensures inside { result.is_inside ≡ true }
    {
        Spot {
            clause: self.clause,
            is_inside: true,
        }
    }
}

/// Adds the mentions of an expression.
#[cycle(mention)]
fn add_node(found: &mut Vec<Mention>, spot: Spot, node: &Node) -> Result<(), NoMemory>
    ensures { OnOk result (found.new.items ≡ found.old.items ++ mentions spot.clause spot.is_inside (tree_of node.now)) }
{
    match node {
        Node::Number { .. } => Ok(()),
        Node::Text { .. } => Ok(()),
        Node::Null => Ok(()),
        Node::Column { table, column } => spot.add_column(found, *table, *column),
        Node::Chain { first, steps } => {
            add_node(found, spot, first)?;
            add_steps(found, spot, steps)
        }
        Node::Negation { inner } => add_node(found, spot, inner),
        Node::Minus { inner } => add_node(found, spot, inner),
        Node::Plus { inner } => add_node(found, spot, inner),
        Node::Cast { inner, .. } => add_node(found, spot, inner),
        Node::Call { arguments, .. } => add_nodes(found, spot, arguments),
        Node::Folded {
            place,
            fold,
            argument,
            ..
        } => {
            spot.add_aggregate(found, *place, *fold)?;
            match argument {
                None => Ok(()),
                Some(argument) => add_node(found, spot.inside(), argument),
            }
        }
    }
}

#[cycle(mention)]
fn add_step(found: &mut Vec<Mention>, spot: Spot, step: &Step) -> Result<(), NoMemory>
    ensures { OnOk result (found.new.items ≡ found.old.items ++ mentions_of_step spot.clause spot.is_inside (step_of step.now)) }
{
    match step {
        Step::Binary { right, .. } => add_node(found, spot, right),
        Step::In { items, .. } => add_nodes(found, spot, items),
        Step::Between { low, high, .. } => {
            add_node(found, spot, low)?;
            add_node(found, spot, high)
        }
    }
}

#[cycle(mention)]
fn add_steps(found: &mut Vec<Mention>, spot: Spot, steps: &[Step]) -> Result<(), NoMemory>
    ensures { OnOk result (found.new.items ≡ found.old.items ++ mentions_of_steps spot.clause spot.is_inside (steps_of steps.now)) }
{
    for step in steps {
        add_step(found, spot, step)?;
    }
    Ok(())
}

#[cycle(mention)]
fn add_nodes(found: &mut Vec<Mention>, spot: Spot, nodes: &[Node]) -> Result<(), NoMemory>
    ensures { OnOk result (found.new.items ≡ found.old.items ++ mentions_of_trees spot.clause spot.is_inside (trees_of nodes.now)) }
{
    for node in nodes {
        add_node(found, spot, node)?;
    }
    Ok(())
}

/// Adds the mentions of a whole expression of a clause.
fn add_whole(found: &mut Vec<Mention>, clause: Clause, node: &Node) -> Result<(), NoMemory>
    ensures { OnOk result (found.new.items ≡ found.old.items ++ mentions clause false (tree_of node.now)) }
{
    let spot = Spot {
        clause,
        is_inside: false,
    };
    add_node(found, spot, node)
}

/// The mentions of a whole expression of a clause.
pub fn whole_mentions(alloc: Global, clause: Clause, node: &Node) -> Result<Vec<Mention>, NoMemory>
    ensures { IfOk result (λ found. found.items ≡ mentions clause false (tree_of node.now)) }
{
    let mut found = Vec::new(alloc);
    add_whole(&mut found, clause, node)?;
    Ok(found)
}

fn add_optional(
    found: &mut Vec<Mention>,
    clause: Clause,
    node: &Option<Node>,
) -> Result<(), NoMemory>
    ensures { OnOk result (found.new.items ≡ found.old.items ++ mentions_of_option clause (option_map tree_of node.now)) }
{
    match node {
        None => Ok(()),
        Some(node) => add_whole(found, clause, node),
    }
}

fn add_item(found: &mut Vec<Mention>, item: &Item) -> Result<(), NoMemory>
    ensures { OnOk result ((rest : List ItemTree) → found.new.items ++ mentions_of_items rest ≡ found.old.items ++ mentions_of_items (item_of item.now ∷ rest)) }
{
    match item {
        Item::All { .. } => Ok(()),
        Item::AllOf { .. } => Ok(()),
        Item::One { node, .. } => add_whole(found, Clause::Item, node),
    }
}

fn add_items(found: &mut Vec<Mention>, items: &[Item]) -> Result<(), NoMemory>
    ensures { OnOk result (found.new.items ≡ found.old.items ++ mentions_of_items (map item_of items.now)) }
{
    for item in items {
        add_item(found, item)?;
    }
    Ok(())
}

fn add_sources(found: &mut Vec<Mention>, sources: &[TableRef]) -> Result<(), NoMemory>
    ensures { OnOk result (found.new.items ≡ found.old.items ++ mentions_of_sources 0 (map ref_of sources.now)) }
{
    let mut reach = 0usize;
    for source in sources {
        reach += 1;
        add_optional(found, Clause::On { reach }, &source.on)?;
    }
    Ok(())
}

fn add_keys(found: &mut Vec<Mention>, keys: &[Node]) -> Result<(), NoMemory>
    ensures { OnOk result (found.new.items ≡ found.old.items ++ mentions_of_keys (map tree_of keys.now)) }
{
    for key in keys {
        add_whole(found, Clause::Key, key)?;
    }
    Ok(())
}

fn add_having(found: &mut Vec<Mention>, having: &Option<Having>) -> Result<(), NoMemory>
    ensures { OnOk result (found.new.items ≡ found.old.items ++ mentions_of_having (option_map having_of having.now)) }
{
    match having {
        None => Ok(()),
        Some(having) => add_whole(found, Clause::Having, &having.node),
    }
}

fn add_terms(found: &mut Vec<Mention>, terms: &[Term]) -> Result<(), NoMemory>
    ensures { OnOk result (found.new.items ≡ found.old.items ++ mentions_of_terms (map term_of terms.now)) }
{
    for term in terms {
        add_whole(found, Clause::Term, &term.node)?;
    }
    Ok(())
}

/// The mentions of a select.
#[tactic(auto, unfolding(crate::specs::Mentions::mentions_of_select))]
pub fn mentions_of(alloc: Global, select: &Select) -> Result<Vec<Mention>, NoMemory>
    ensures { IfOk result (λ found. found.items ≡ mentions_of_select (select_of select.now)) }
{
    let mut found = Vec::new(alloc);
    add_items(&mut found, select.items.as_slice())?;
    add_sources(&mut found, select.sources.as_slice())?;
    add_optional(&mut found, Clause::Where, &select.filter)?;
    add_keys(&mut found, select.keys.as_slice())?;
    add_having(&mut found, &select.having)?;
    add_terms(&mut found, select.terms.as_slice())?;
    Ok(found)
}
