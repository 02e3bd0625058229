//! Copies of the parts of a select.

ghost use Rattle.std.specs.Prelude.{◌≡◌, IfOk, map, option_map};
ghost use Rattle.sql_tree.specs.View.{tree_of};
ghost use Rattle.sql_tree.specs.Select.{item_of, ref_of, having_of, term_of, select_of};

use crate::copy::{copy_node, copy_nodes};
use crate::list::Listed;
use crate::select::{
    Having, Item, ItemList, NameList, NodeList, Select, TableRef, TableRefList, Term, TermList,
};
use crate::tree::{Name, Node};
use std::alloc::{AllocError, Global};

/// A copy of a node that may be missing.
fn copy_optional(alloc: Global, node: &Option<Node>) -> Result<Option<Node>, AllocError>
    ensures { IfOk result (λ copy. option_map tree_of copy ≡ option_map tree_of node.now) }
{
    match node {
        None => Ok(None),
        Some(node) => Ok(Some(copy_node(alloc, node)?)),
    }
}

impl Item {
    /// A copy, whose tree is the same.
    pub fn copy(&self, alloc: Global) -> Result<Item, AllocError>
        ensures { IfOk result (λ copy. item_of copy ≡ item_of self.now) }
    {
        match self {
            Item::All { place } => Ok(Item::All { place: *place }),
            Item::AllOf { table } => Ok(Item::AllOf { table: *table }),
            Item::One { node, span, alias } => Ok(Item::One {
                node: copy_node(alloc, node)?,
                span: *span,
                alias: *alias,
            }),
        }
    }
}

impl TableRef {
    /// A copy, whose tree is the same.
    pub fn copy(&self, alloc: Global) -> Result<TableRef, AllocError>
        ensures { IfOk result (λ copy. ref_of copy ≡ ref_of self.now) }
    {
        Ok(TableRef {
            table: self.table,
            alias: self.alias,
            is_outer: self.is_outer,
            on: copy_optional(alloc, &self.on)?,
            using: self.using.copy(alloc)?,
        })
    }
}

impl Having {
    /// A copy, whose tree is the same.
    pub fn copy(&self, alloc: Global) -> Result<Having, AllocError>
        ensures { IfOk result (λ copy. having_of copy ≡ having_of self.now) }
    {
        Ok(Having {
            place: self.place,
            node: copy_node(alloc, &self.node)?,
        })
    }
}

impl Term {
    /// A copy, whose tree is the same.
    pub fn copy(&self, alloc: Global) -> Result<Term, AllocError>
        ensures { IfOk result (λ copy. term_of copy ≡ term_of self.now) }
    {
        Ok(Term {
            node: copy_node(alloc, &self.node)?,
            is_descending: self.is_descending,
        })
    }
}

impl Listed<Node> {
    /// A copy, whose trees are the same.
    pub fn copy(&self, alloc: Global) -> Result<NodeList, AllocError>
        ensures { IfOk result (λ copy. map tree_of copy ≡ map tree_of self.now) }
    {
        Ok(Listed::from_vec(copy_nodes(alloc, self.as_slice())?))
    }
}

impl Listed<Name> {
    /// A copy.
    pub fn copy(&self, alloc: Global) -> Result<NameList, AllocError>
        ensures { IfOk result (λ copy. copy ≡ self.now) }
    {
        Ok(Listed::from_vec(Vec::from_slice(alloc, self.as_slice())?))
    }
}

impl Listed<Item> {
    /// A copy, whose trees are the same.
    pub fn copy(&self, alloc: Global) -> Result<ItemList, AllocError>
        ensures { IfOk result (λ copy. map item_of copy ≡ map item_of self.now) }
    {
        let mut copies = Listed::new(alloc);
        for item in self.as_slice() {
            copies.push(item.copy(alloc)?)?;
        }
        Ok(copies)
    }
}

impl Listed<TableRef> {
    /// A copy, whose trees are the same.
    pub fn copy(&self, alloc: Global) -> Result<TableRefList, AllocError>
        ensures { IfOk result (λ copy. map ref_of copy ≡ map ref_of self.now) }
    {
        let mut copies = Listed::new(alloc);
        for source in self.as_slice() {
            copies.push(source.copy(alloc)?)?;
        }
        Ok(copies)
    }
}

impl Listed<Term> {
    /// A copy, whose trees are the same.
    pub fn copy(&self, alloc: Global) -> Result<TermList, AllocError>
        ensures { IfOk result (λ copy. map term_of copy ≡ map term_of self.now) }
    {
        let mut copies = Listed::new(alloc);
        for term in self.as_slice() {
            copies.push(term.copy(alloc)?)?;
        }
        Ok(copies)
    }
}

/// A copy of HAVING, which may be missing.
fn copy_having(alloc: Global, having: &Option<Having>) -> Result<Option<Having>, AllocError>
    ensures { IfOk result (λ copy. option_map having_of copy ≡ option_map having_of having.now) }
{
    match having {
        None => Ok(None),
        Some(having) => Ok(Some(having.copy(alloc)?)),
    }
}

impl Select {
    /// A copy, whose tree is the same.
    pub fn copy(&self, alloc: Global) -> Result<Select, AllocError>
        ensures { IfOk result (λ copy. select_of copy ≡ select_of self.now) }
    {
        Ok(Select {
            is_distinct: self.is_distinct,
            items: self.items.copy(alloc)?,
            sources: self.sources.copy(alloc)?,
            filter: copy_optional(alloc, &self.filter)?,
            keys: self.keys.copy(alloc)?,
            having: copy_having(alloc, &self.having)?,
            terms: self.terms.copy(alloc)?,
            limit: self.limit,
            skip: self.skip,
        })
    }
}
