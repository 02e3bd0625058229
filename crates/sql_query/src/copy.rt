//! Copies of resolved trees.

ghost use Rattle.std.specs.Prelude.{◌≡◌, IfOk, map};
ghost use Rattle.sql_query.specs.Resolved.{source_of, result_of, order_of, query_of};
ghost use Rattle.sql_query.specs.View.{expr_of, step_of, aggregate_of};

use crate::exprs;
use crate::query::{
    Condition, ExprList, Order, OrderList, Query, QueryItem, QueryItemList, QuerySource,
    QuerySourceList, SourceColumn,
};
use crate::tree::{Aggregate, Expr, ExprStep};
use osq_value::{Copied, NoMemory, Sequence};
use std::alloc::Global;

/// A copy, whose tree is the same.
#[cycle(copy)]
pub fn copy_expr(alloc: Global, expr: &Expr) -> Result<Expr, NoMemory>
    ensures { IfOk result (λ copy. expr_of copy ≡ expr_of expr.now) }
{
    match expr {
        Expr::Literal { value } => Ok(Expr::Literal {
            value: value.copy(alloc)?,
        }),
        Expr::Column {
            source,
            column,
            at,
            affinity,
        } => Ok(Expr::Column {
            source: *source,
            column: *column,
            at: *at,
            affinity: *affinity,
        }),
        Expr::Chain { first, steps } => {
            let first = copy_expr(alloc, first)?;
            exprs::chain(alloc, first, copy_steps(alloc, steps)?)
        }
        Expr::Negation { inner } => exprs::negation(alloc, copy_expr(alloc, inner)?),
        Expr::Minus { inner } => exprs::minus(alloc, copy_expr(alloc, inner)?),
        Expr::Plus { inner } => exprs::plus(alloc, copy_expr(alloc, inner)?),
        Expr::Cast { inner, affinity } => exprs::cast(alloc, copy_expr(alloc, inner)?, *affinity),
        Expr::Call {
            function,
            arguments,
        } => Ok(Expr::Call {
            function: *function,
            arguments: copy_exprs(alloc, arguments)?,
        }),
        Expr::Folded { aggregate } => Ok(Expr::Folded {
            aggregate: Box::new(alloc, copy_aggregate(alloc, aggregate)?)?,
        }),
    }
}

/// A copy, whose tree is the same.
#[cycle(copy)]
pub fn copy_aggregate(alloc: Global, aggregate: &Aggregate) -> Result<Aggregate, NoMemory>
    ensures { IfOk result (λ copy. aggregate_of copy ≡ aggregate_of aggregate.now) }
{
    let argument = match &aggregate.argument {
        None => None,
        Some(argument) => Some(copy_expr(alloc, argument)?),
    };
    Ok(Aggregate {
        fold: aggregate.fold,
        is_distinct: aggregate.is_distinct,
        argument,
    })
}

/// A copy, whose tree is the same.
#[cycle(copy)]
pub fn copy_step(alloc: Global, step: &ExprStep) -> Result<ExprStep, NoMemory>
    ensures { IfOk result (λ copy. step_of copy ≡ step_of step.now) }
{
    match step {
        ExprStep::Binary { op, right } => Ok(ExprStep::Binary {
            op: *op,
            right: copy_expr(alloc, right)?,
        }),
        ExprStep::In { is_negated, items } => Ok(ExprStep::In {
            is_negated: *is_negated,
            items: copy_exprs(alloc, items)?,
        }),
        ExprStep::Between {
            is_negated,
            low,
            high,
        } => Ok(ExprStep::Between {
            is_negated: *is_negated,
            low: copy_expr(alloc, low)?,
            high: copy_expr(alloc, high)?,
        }),
    }
}

#[cycle(copy)]
fn copy_exprs(alloc: Global, exprs: &[Expr]) -> Result<Vec<Expr>, NoMemory>
    ensures { IfOk result (λ copies. map expr_of copies.items ≡ map expr_of exprs.now) }
{
    let mut copies = Vec::new(alloc);
    for expr in exprs {
        copies.push(copy_expr(alloc, expr)?)?;
    }
    Ok(copies)
}

#[cycle(copy)]
fn copy_steps(alloc: Global, steps: &[ExprStep]) -> Result<Vec<ExprStep>, NoMemory>
    ensures { IfOk result (λ copies. map step_of copies.items ≡ map step_of steps.now) }
{
    let mut copies = Vec::new(alloc);
    for step in steps {
        copies.push(copy_step(alloc, step)?)?;
    }
    Ok(copies)
}

/// A copy of a list, whose trees are the same.
fn copy_list(alloc: Global, exprs: &ExprList) -> Result<ExprList, NoMemory>
    ensures { IfOk result (λ copy. map expr_of copy ≡ map expr_of exprs.now) }
{
    Ok(Sequence::from_vec(copy_exprs(alloc, exprs.as_slice())?))
}

impl Condition {
    /// A copy, whose trees are the same.
    pub fn copy(&self, alloc: Global) -> Result<Condition, NoMemory>
        ensures { IfOk result (λ copy. map expr_of copy.parts ≡ map expr_of self.now.parts) }
    {
        Ok(Condition {
            parts: copy_list(alloc, &self.parts)?,
        })
    }
}

impl Copied for SourceColumn {
    fn copy(&self, alloc: Global) -> Result<Self, NoMemory> {
        Ok(SourceColumn {
            name: self.name.copy(alloc)?,
            affinity: self.affinity,
            hidden: self.hidden,
        })
    }
}

impl QuerySource {
    /// A copy, whose tree is the same.
    pub fn copy(&self, alloc: Global) -> Result<QuerySource, NoMemory>
        ensures { IfOk result (λ copy. source_of copy ≡ source_of self.now) }
    {
        Ok(QuerySource {
            table: self.table,
            name: self.name.copy(alloc)?,
            alias: self.alias.copy(alloc)?,
            columns: self.columns.copy(alloc)?,
            is_outer: self.is_outer,
            on: self.on.copy(alloc)?,
        })
    }
}

impl QueryItem {
    /// A copy, whose tree is the same.
    pub fn copy(&self, alloc: Global) -> Result<QueryItem, NoMemory>
        ensures { IfOk result (λ copy. result_of copy ≡ result_of self.now) }
    {
        Ok(QueryItem {
            name: self.name.copy(alloc)?,
            expr: copy_expr(alloc, &self.expr)?,
        })
    }
}

impl Order {
    /// A copy, whose tree is the same.
    pub fn copy(&self, alloc: Global) -> Result<Order, NoMemory>
        ensures { IfOk result (λ copy. order_of copy ≡ order_of self.now) }
    {
        Ok(Order {
            expr: copy_expr(alloc, &self.expr)?,
            is_descending: self.is_descending,
        })
    }
}

fn copy_sources(alloc: Global, sources: &[QuerySource]) -> Result<QuerySourceList, NoMemory>
    ensures { IfOk result (λ copies. map source_of copies ≡ map source_of sources.now) }
{
    let mut copies = Sequence::new(alloc);
    for source in sources {
        copies.push(source.copy(alloc)?)?;
    }
    Ok(copies)
}

fn copy_items(alloc: Global, items: &[QueryItem]) -> Result<QueryItemList, NoMemory>
    ensures { IfOk result (λ copies. map result_of copies ≡ map result_of items.now) }
{
    let mut copies = Sequence::new(alloc);
    for item in items {
        copies.push(item.copy(alloc)?)?;
    }
    Ok(copies)
}

fn copy_orders(alloc: Global, orders: &[Order]) -> Result<OrderList, NoMemory>
    ensures { IfOk result (λ copies. map order_of copies ≡ map order_of orders.now) }
{
    let mut copies = Sequence::new(alloc);
    for order in orders {
        copies.push(order.copy(alloc)?)?;
    }
    Ok(copies)
}

impl Query {
    /// A copy, whose tree is the same.
    pub fn copy(&self, alloc: Global) -> Result<Query, NoMemory>
        ensures { IfOk result (λ copy. query_of copy ≡ query_of self.now) }
    {
        Ok(Query {
            sources: copy_sources(alloc, self.sources.as_slice())?,
            filter: self.filter.copy(alloc)?,
            is_grouped: self.is_grouped,
            keys: copy_list(alloc, &self.keys)?,
            having: self.having.copy(alloc)?,
            items: copy_items(alloc, self.items.as_slice())?,
            is_distinct: self.is_distinct,
            terms: copy_orders(alloc, self.terms.as_slice())?,
            limit: self.limit,
            skip: self.skip,
        })
    }
}
