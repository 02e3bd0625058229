//! Columns of the result of a query with groups that can be folded row by row.
ghost use Rattle.std.specs.Prelude.{◌≡◌, ◌++◌, ◌∷◌, [], IfOk, IfSome, List, length, map, true};
ghost use Rattle.osq_value.specs.declared.value.Value.{Value};
ghost use Rattle.sql_query.specs.Resolved.{order_of, query_of, result_of};
ghost use Rattle.sql_query.specs.View.{aggregate_of, expr_of};
ghost use Rattle.sql_meaning.specs.Expressions.{value_of};
ghost use Rattle.sql_meaning.specs.Folds.{counted_rows};
ghost use Rattle.sql_meaning.specs.Steps.{result_row, together};
ghost use Rattle.sql_groups.specs.Folding.{item_over};

use crate::alone::is_alone;
use crate::columns::place_of;
use osq_value::{NoMemory, Sequence};
use sql_query::query::Query;
use sql_query::tree::{Aggregate, Expr};
use sql_tree::functions::Fold;
use std::alloc::Global;

/// What a column of the result is of the rows of a group.
#[derive(Clone, Copy, Drop)]
pub(crate) enum GroupItem<'a> {
    /// The value at a place of the first row.
    First { place: u32 },
    /// What an expression without an aggregate is worth over the first row.
    Alone { expr: &'a Expr },
    /// The number of rows.
    Rows,
    /// An aggregate of the values at a place, without DISTINCT.
    Folded { fold: Fold, place: u32 },
}

/// Columns of the result, in order.
pub(crate) type GroupItemList<'a> = Sequence<GroupItem<'a>>;

/// The columns of the result and behind them what a row is sorted by, where each can be folded row by row.
pub(crate) fn group_items<'a>(
    alloc: Global,
    query: &'a Query,
) -> Result<Option<GroupItemList<'a>>, NoMemory>
    ensures { IfOk result (λ found. IfSome found (λ items. (rows : List (List Value)) → result_row (query_of query.entry.now) (together rows) ≡ map (λ item. item_over item rows) items)) }
{
    let mut items = GroupItemList::with_capacity(alloc, query.items.len())?;
    for item in query.items.as_slice() {
        if !push_item(&mut items, &item.expr)? {
            return Ok(None);
        }
    }
    for term in query.terms.as_slice() {
        if !push_item(&mut items, &term.expr)? {
            return Ok(None);
        }
    }
    Ok(Some(items))
}

/// Adds the column that an expression is, where it can be folded.
pub(crate) fn push_item<'a>(items: &mut GroupItemList<'a>, expr: &'a Expr) -> Result<bool, NoMemory>
    ensures { IfOk result (λ is_pushed. is_pushed ≡ true → (rows : List (List Value)) → map (λ item. item_over item rows) items.new ≡ map (λ item. item_over item rows) items.old ++ value_of (together rows) (expr_of expr.entry.now) ∷ []) }
{
    match item_of(expr) {
        None => Ok(false),
        Some(item) => {
            items.push(item)?;
            Ok(true)
        }
    }
}

fn item_of(expr: &Expr) -> Option<GroupItem>
    ensures { IfSome result (λ item. (rows : List (List Value)) → value_of (together rows) (expr_of expr.entry.now) ≡ item_over item rows) }
{
    match expr {
        Expr::Column { at, .. } => Some(GroupItem::First { place: *at }),
        Expr::Folded { aggregate } => folded_item(aggregate),
        _ => alone_item(expr),
    }
}

fn alone_item(expr: &Expr) -> Option<GroupItem>
    ensures { IfSome result (λ item. (rows : List (List Value)) → value_of (together rows) (expr_of expr.entry.now) ≡ item_over item rows) }
{
    if is_alone(expr) {
        Some(GroupItem::Alone { expr })
    } else {
        None
    }
}

fn folded_item(aggregate: &Aggregate) -> Option<GroupItem>
    ensures { IfSome result (λ item. (rows : List (List Value)) → value_of (together rows) (aggregate_of aggregate.entry.now) ≡ item_over item rows) }
{
    match &aggregate.argument {
        None => rows_item(aggregate.fold),
        Some(argument) => {
            if aggregate.is_distinct {
                return None;
            }
            let Some(place) = place_of(argument) else {
                return None;
            };
            Some(GroupItem::Folded {
                fold: aggregate.fold,
                place,
            })
        }
    }
}

/// An aggregate without an argument, where it counts the rows.
fn rows_item<'a>(fold: Fold) -> Option<GroupItem<'a>>
    ensures { IfSome result (λ item. (rows : List (List Value)) → counted_rows fold (length rows) ≡ item_over item rows) }
{
    match fold {
        Fold::Count => Some(GroupItem::Rows),
        Fold::Sum | Fold::Min | Fold::Max => None,
    }
}
