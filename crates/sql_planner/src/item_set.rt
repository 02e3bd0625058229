//! The constants of IN, which are looked up by their hash.
ghost use Rattle.std.specs.Prelude.{◌≡◌, IfOk, IfSome, List, None, OnOk};
ghost use Rattle.osq_value.specs.declared.value.Value.{Value as ValueOf};
ghost use Rattle.sql_meaning.specs.Expressions.{alone, values_of};
ghost use Rattle.sql_query.specs.View.{exprs_of};
ghost use Rattle.sql_scalar.specs.Comparison.{equal_of, in_of};
ghost use Rattle.sql_scalar.specs.Truth.{either, truth_of};
ghost use Rattle.sql_planner.specs.RowTests.{found_if, found_in, is_null, not_found};

use crate::constants::constant;
use indexmap::IndexSet;
use osq_value::{Affinity, NoMemory, Value};
use sql_query::tree::Expr;
use std::alloc::Global;
use virtual_tables::turn;

/// The items of IN.
#[derive(Drop)]
pub(crate) struct ItemSet {
    /// Those that aren't Null.
    pub values: IndexSet<Value>,
    /// Whether Null is one of them.
    pub has_null: bool,
}

/// Whether a value is one of the items: unknown where it is not found and Null is an item, and of Null where there are items.
pub(crate) fn found_in(items: &ItemSet, value: &Value) -> Option<bool>
    ensures { result ≡ found_in items.now value.now }
{
    match value {
        Value::Null => not_found(items.has_null || items.values.len() > 0),
        Value::Int(_) | Value::Text(_) => found_if(items.values.contains(value), items.has_null),
    }
}

fn found_if(is_found: bool, has_null: bool) -> Option<bool>
    ensures { result ≡ found_if is_found has_null }
{
    if is_found {
        Some(true)
    } else {
        not_found(has_null)
    }
}

/// What is said of a value that isn't found.
fn not_found(has_null: bool) -> Option<bool>
    ensures { result ≡ not_found has_null }
{
    if has_null { None } else { Some(false) }
}

/// The items, turned by the affinity that the values have which are looked up. None where one of them isn't a constant.
pub(crate) fn item_set(
    alloc: Global,
    affinity: Option<Affinity>,
    items: &[Expr],
) -> Result<Option<ItemSet>, NoMemory>
    ensures { IfOk result (λ found. IfSome found (λ set. (row : List ValueOf) (value : ValueOf) → found_in set value ≡ truth_of (in_of affinity value (values_of (alone row) (exprs_of items.now))))) }
{
    let mut set = ItemSet {
        values: IndexSet::new(alloc),
        has_null: false,
    };
    for item in items {
        let Some(value) = constant(alloc, item)? else {
            return Ok(None);
        };
        add(&mut set, turn(alloc, affinity, &value)?)?;
    }
    Ok(Some(set))
}

/// Adds an item.
fn add(set: &mut ItemSet, item: Value) -> Result<(), NoMemory>
    ensures { OnOk result ((value : ValueOf) → found_in set.new value ≡ either (found_in set.old value) (truth_of (equal_of None None value item))) }
{
    if is_null(&item) {
        set.has_null = true;
    } else {
        set.values.insert(item)?;
    }
    Ok(())
}

fn is_null(value: &Value) -> bool
    ensures { result ≡ is_null value.now }
{
    match value {
        Value::Null => true,
        Value::Int(_) | Value::Text(_) => false,
    }
}
