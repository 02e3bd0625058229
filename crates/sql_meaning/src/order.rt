//! The stable order of rows by their keys.
ghost use Rattle.std.specs.Prelude.{◌≡◌, IfOk, drop, unwrap_or};
ghost use Rattle.std.specs.Option.{option_copied};
ghost use Rattle.sql_meaning.specs.Order.{directed, first_key, order_by, ordered_by};
ghost use Rattle.osq_value.specs.Order.{order_of};
ghost use Rattle.osq_value.specs.declared.value.Value.TheVariants.{Null};
ghost use Rattle.sql_meaning.specs.Worths.{worths};

use crate::worth::{ResultRow, ResultRowList, Worth};
use osq_value::{NoMemory, Value, compare};
use std::alloc::Global;
use std::cmp::Ordering;

/// The rows in the order of their keys, which stand behind the first `width` values: by the first key, then by the next,
/// each in the order of `compare`, turned round where its place in `descending` holds true. Rows with equal keys keep
/// their order. A key that a row doesn't have is Null.
pub fn order<'a>(
    rows: ResultRowList<'a>,
    width: usize,
    descending: &[bool],
) -> Result<ResultRowList<'a>, NoMemory>
    ensures { IfOk result (λ ordered. ordered ≡ ordered_by (λ row. worths (drop width row)) descending.now rows.entry) }
{
    let mut sorted = rows.into_vec();
    sorted.sort_by(|left, right| {
        compare_keys(behind(left, width), behind(right, width), descending)
    })?;
    Ok(ResultRowList::from_vec(sorted))
}

/// The order by one key after another.
fn compare_keys(lefts: &[Worth], rights: &[Worth], descending: &[bool]) -> Ordering
    ensures { result ≡ order_by descending.now (worths lefts.now) (worths rights.now) }
{
    let mut left = lefts;
    let mut right = rights;
    let mut rest = descending;
    while let [is_descending, others @ ..] = rest {
        let order = directed(
            *is_descending,
            compare_places(first_key(left), first_key(right)),
        );
        if order.is_ne() {
            return order;
        }
        left = other_keys(left);
        right = other_keys(right);
        rest = others;
    }
    Ordering::Equal
}

/// The first key, if there is one.
fn first_key<'a>(keys: &'a [Worth]) -> Option<&'a Value>
    ensures { unwrap_or (option_copied result) Null ≡ first_key (worths keys.now) }
{
    match keys {
        [] => None,
        [key, ..] => Some(key.as_value()),
    }
}

/// The keys behind the first.
fn other_keys<'a, 'b>(keys: &'b [Worth<'a>]) -> &'b [Worth<'a>]
    ensures { worths result.now ≡ drop 1 (worths keys.now) }
{
    match keys {
        [] => keys,
        [_, others @ ..] => others,
    }
}

/// The order of two keys, Null where there is none.
fn compare_places(left: Option<&Value>, right: Option<&Value>) -> Ordering
    ensures { result ≡ order_of (unwrap_or (option_copied left.entry) Null) (unwrap_or (option_copied right.entry) Null) }
{
    match (left, right) {
        (Some(left), Some(right)) => compare(left, right),
        (Some(left), None) => compare(left, &Value::Null),
        (None, Some(right)) => compare(&Value::Null, right),
        (None, None) => Ordering::Equal,
    }
}

/// Turned round where it is descending.
fn directed(is_descending: bool, order: Ordering) -> Ordering
    ensures { result ≡ directed is_descending order }
{
    if is_descending {
        order.reverse()
    } else {
        order
    }
}

/// The values behind the first `width`, none where there are no more.
fn behind<'a, 'b>(row: &'b ResultRow<'a>, width: usize) -> &'b [Worth<'a>]
    ensures { result.now ≡ drop width row.now }
{
    let values = row.as_slice();
    values.split_at(width.min(values.len())).1
}
