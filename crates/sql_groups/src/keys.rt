//! Values by which rows are looked up.
ghost use Rattle.std.specs.Prelude.{◌≡◌, IfOk, map};
ghost use Rattle.sql_query.specs.View.{expr_of};
ghost use Rattle.sql_query.specs.Resolved.{result_of};
ghost use Rattle.sql_meaning.specs.Lent.{values_in};
ghost use Rattle.sql_meaning.specs.Steps.{key_values};
ghost use Rattle.sql_meaning.specs.Worths.{worths};
ghost use Rattle.sql_groups.specs.Keys.{key_list, key_worths};

use crate::worth_in::worth_in;
use osq_value::{NoMemory, Sequence};
use sql_meaning::Joined;
use sql_meaning::worth::{ResultRow, Worth};
use sql_query::query::QueryItem;
use sql_query::tree::Expr;
use std::alloc::Global;
use std::hash::{Hash, Hasher};

/// Values that are looked up together. One or two lie in the key itself.
#[derive(Drop)]
pub(crate) enum Key<T> {
    One { values: [T; 1] },
    Two { values: [T; 2] },
    Many { values: Sequence<T> },
}

/// The values of expressions over a row.
pub(crate) type RowKey<'a> = Key<Worth<'a>>;

/// Expressions, where they stand in the query.
pub(crate) type ExprRefs<'a> = Sequence<&'a Expr>;

impl<T: Drop> Key<T> {
    pub fn as_slice(&self) -> &[T]
        ensures { result.now ≡ key_list self.now }
    {
        match self {
            Key::One { values } => values.as_slice(),
            Key::Two { values } => values.as_slice(),
            Key::Many { values } => values.as_slice(),
        }
    }
}

impl<T: PartialEq + Drop> PartialEq for Key<T> {
    ghost use Rattle.std.specs.Cmp.{on_per};
    ghost use Rattle.std.specs.Cmp.Lexicographic.{pointwise, lists_per};
    ghost use Rattle.sql_groups.specs.Keys.{key_list};

    ghost eq = { λ left right. pointwise T.eq (key_list left) (key_list right) };

    ghost laws = { on_per key_list (lists_per T.laws) };

    fn eq(&self, other: &Self) -> bool {
        self.as_slice() == other.as_slice()
    }
}

impl<T: Eq + Drop> Eq for Key<T> {
    ghost use Rattle.std.specs.Cmp.{on_equiv};
    ghost use Rattle.std.specs.Cmp.Lexicographic.{lists_equiv};
    ghost use Rattle.sql_groups.specs.Keys.{key_list};

    ghost laws = { on_equiv key_list (lists_equiv T.Eq.laws) };
}

impl<T: Hash + Drop> Hash for Key<T> {
    ghost use Rattle.std.specs.Hash as fed;
    ghost use Rattle.std.specs.Hash.{items_Alike, on_Alike};
    ghost use Rattle.sql_groups.specs.Keys.{key_list};

    ghost hash_input = { λ key. fed.slice T.hash_input (key_list key) };

    ghost respects_eq = { (on_Alike key_list (items_Alike (record { fed = T.respects_eq }))).fed };

    fn hash<H: Hasher>(&self, state: &mut H) {
        self.as_slice().hash(state);
    }
}

/// The values of expressions over a row. Those of one or two expressions take no memory of their own.
pub(crate) fn key_in<'a>(
    alloc: Global,
    row: Joined<'a>,
    exprs: &[&'a Expr],
) -> Result<RowKey<'a>, NoMemory>
    ensures { IfOk result (λ key. key_worths key ≡ key_values (map (λ expr. expr_of expr.now) exprs.now) (values_in row.entry)) }
{
    match exprs {
        [first] => Ok(Key::One {
            values: [worth_in(alloc, row, *first)?],
        }),
        [first, second] => Ok(Key::Two {
            values: [
                worth_in(alloc, row, *first)?,
                worth_in(alloc, row, *second)?,
            ],
        }),
        _ => Ok(Key::Many {
            values: worths_in(alloc, row, exprs)?,
        }),
    }
}

fn worths_in<'a>(
    alloc: Global,
    row: Joined<'a>,
    exprs: &[&'a Expr],
) -> Result<ResultRow<'a>, NoMemory>
    ensures { IfOk result (λ made. worths made ≡ key_values (map (λ expr. expr_of expr.now) exprs.now) (values_in row.entry)) }
{
    let mut made = ResultRow::with_capacity(alloc, exprs.len())?;
    for expr in exprs {
        made.push(worth_in(alloc, row, *expr)?)?;
    }
    Ok(made)
}

/// The expressions of the columns of the result.
pub(crate) fn item_exprs<'a>(
    alloc: Global,
    items: &'a [QueryItem],
) -> Result<ExprRefs<'a>, NoMemory>
    ensures { IfOk result (λ made. map (λ expr. expr_of expr.now) made ≡ map (λ item. item.expr) (map result_of items.entry.now)) }
{
    let mut made = ExprRefs::with_capacity(alloc, items.len())?;
    for item in items {
        made.push(&item.expr)?;
    }
    Ok(made)
}

/// The expressions of GROUP BY.
pub(crate) fn key_exprs<'a>(alloc: Global, keys: &'a [Expr]) -> Result<ExprRefs<'a>, NoMemory>
    ensures { IfOk result (λ made. map (λ expr. expr_of expr.now) made ≡ map expr_of keys.entry.now) }
{
    let mut made = ExprRefs::with_capacity(alloc, keys.len())?;
    for key in keys {
        made.push(key)?;
    }
    Ok(made)
}
