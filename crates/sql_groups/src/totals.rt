//! The only group of a query without GROUP BY, whose rows come a list at a time.
ghost use Rattle.std.specs.Prelude.{◌≡◌, ◌++◌, [], IfOk, IfSome, List, map, true};
ghost use Rattle.osq_value.specs.declared.value.Value.{Value};
ghost use Rattle.sql_query.specs.Exprs.{ExprTree};
ghost use Rattle.sql_query.specs.Resolved.{QueryTree, query_of};
ghost use Rattle.sql_query.specs.View.{expr_of};
ghost use Rattle.sql_meaning.specs.Lent.{values_in};
ghost use Rattle.sql_meaning.specs.Steps.{asked_by, behind_from};
ghost use Rattle.sql_groups.specs.Totals.{AreTotals, IsOneGroup};

use crate::grouped::{GroupSoFar, add_all, no_rows, result_rows};
use crate::items::group_items;
use osq_value::{NoMemory, RowList};
use sql_meaning::{Joined, finished};
use sql_query::query::{Condition, Query};
use std::alloc::Global;

/// What is known of the only group of a query without GROUP BY, after some of its rows. The rows themselves aren't kept.
#[derive(Drop)]
pub struct Totals<'a> {
    /// The columns of the result, so far.
    pub(crate) group: GroupSoFar<'a>,
}

impl<'a> Totals<'a> {
    /// What is known before the first row. None where the query has other groups or none, and where a column of its result can't be folded.
    pub fn begun(alloc: Global, query: &Query) -> Result<Option<Self>, NoMemory>
        ensures { IfOk result (λ found. IfSome found (λ totals. (condition : List ExprTree) → AreTotals (asked_by condition (query_of query.now)) [] totals)) }
    {
        if !is_one_group(query) {
            return Ok(None);
        }
        let Some(items) = group_items(alloc, query)? else {
            return Ok(None);
        };
        match no_rows(alloc, items.as_slice())? {
            None => Ok(None),
            Some(group) => Ok(Some(Totals { group })),
        }
    }

    /// Takes in further rows of which the condition keeps some. The answer is false where a number leaves its bounds.
    pub fn add(
        &mut self,
        alloc: Global,
        condition: &Condition,
        rows: &[Joined<'a>],
    ) -> Result<bool, NoMemory>
        ensures { IfOk result (λ is_told. is_told ≡ true → (query : QueryTree) (before : List (List Value)) → AreTotals (asked_by (map expr_of condition.now.parts) query) before self.old → AreTotals (asked_by (map expr_of condition.now.parts) query) (before ++ map values_in rows.now) self.new) }
    {
        add_all(alloc, condition, &mut self.group, rows)
    }

    /// The row of the result, if there are no more rows. None where a count leaves 64 bits.
    pub fn rows(self, alloc: Global, query: &Query) -> Result<Option<RowList>, NoMemory>
        ensures { IfOk result (λ found. IfSome found (λ made. (condition : List ExprTree) (rows : List (List Value)) → AreTotals (asked_by condition (query_of query.now)) rows self.entry → made ≡ behind_from (asked_by condition (query_of query.now)) rows)) }
    {
        match result_rows(alloc, &[self.group])? {
            None => Ok(None),
            Some(made) => Ok(Some(finished(alloc, query, made)?)),
        }
    }
}

/// Whether all rows are one group, which HAVING keeps.
fn is_one_group(query: &Query) -> bool
    ensures { result ≡ true → IsOneGroup (query_of query.now) }
{
    query.is_grouped && query.keys.as_slice().is_empty() && query.having.parts.as_slice().is_empty()
}
