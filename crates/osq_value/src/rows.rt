//! Rows.

ghost use Rattle.std.specs.Prelude.{◌≡◌, ℕ, [], ◌∷◌, ◌++◌, length, OnOk, OnErr, IfOk, slice_get};
ghost use Rattle.std.specs.Option.{option_copied};
ghost use Rattle.osq_value.specs.Rows.{values_of};

use crate::memory::NoMemory;
use crate::sequence::{Copied, Sequence};
use crate::value::Value;
use std::alloc::Global;
use std::marker::Model;
use std::sync::Arc;

/// The values of a row, by columns, which contracts see as the list of them. While it is built they are its own; once `shared` has
/// ended that, and in each copy, they are shared, and a copy of it takes no memory.
#[derive(Drop)]
pub struct Row {
    values: Values,
    alloc: Global,
}

/// Whose the values of a row are. Shared ones lie beside the count of those who share them where a table of the catalogue has as many
/// columns, so that a look at them is one step through memory; else the count stands before a list of them.
#[derive(Drop)]
enum Values {
    Own(Vec<Value>),
    Shared(Arc<Vec<Value>, Global>),
    One(Arc<[Value; 1], Global>),
    Two(Arc<[Value; 2], Global>),
    Four(Arc<[Value; 4], Global>),
    Five(Arc<[Value; 5], Global>),
    Six(Arc<[Value; 6], Global>),
    Ten(Arc<[Value; 10], Global>),
    Twelve(Arc<[Value; 12], Global>),
    Thirteen(Arc<[Value; 13], Global>),
}

impl Model for Row {
    ghost use Rattle.std.specs.Prelude.{List};
    ghost use Rattle.osq_value.specs.declared.value.Value.{Value as Cell};
    ghost use Rattle.osq_value.specs.Rows.{values_of};

    ghost Value = { List Cell };

    ghost view = { λ r. values_of r.values };
}

impl Row {
    /// The row without values. It takes no memory until something is pushed.
    pub fn new(alloc: Global) -> Row
        ensures { result ≡ [] }
    {
        Row::from_vec(Vec::new(alloc))
    }

    /// The row without values, with room for so many.
    pub fn with_capacity(alloc: Global, capacity: usize) -> Result<Row, NoMemory>
        ensures { IfOk result (λ made. made ≡ []) }
    {
        Ok(Row::from_vec(Vec::with_capacity(alloc, capacity)?))
    }

    /// The row of these values, which are moved. It takes no memory.
    pub fn from_vec(values: Vec<Value>) -> Row
        ensures { result ≡ values.items }
    {
        let alloc = *values.allocator();
        Row {
            values: Values::Own(values),
            alloc,
        }
    }

    /// The shared row of ten values, which are moved. No list is made of them first.
    pub fn of_ten(alloc: Global, values: [Value; 10]) -> Result<Row, NoMemory>
        ensures { IfOk result (λ row. row ≡ values) }
    {
        Ok(Row {
            values: Values::Ten(Arc::new(alloc, values)?),
            alloc,
        })
    }

    /// The shared row of twelve values, which are moved. No list is made of them first.
    pub fn of_twelve(alloc: Global, values: [Value; 12]) -> Result<Row, NoMemory>
        ensures { IfOk result (λ row. row ≡ values) }
    {
        Ok(Row {
            values: Values::Twelve(Arc::new(alloc, values)?),
            alloc,
        })
    }

    /// The same row with values that its copies share. What has no room is dropped.
    pub fn shared(self, alloc: Global) -> Result<Row, NoMemory>
        ensures { IfOk result (λ row. row ≡ self) }
    {
        let values = match self.values {
            Values::Own(values) => share(alloc, values)?,
            shared => shared,
        };
        Ok(Row { values, alloc })
    }

    /// The values.
    pub fn as_slice(&self) -> &[Value]
        ensures { result.now ≡ self.now }
    {
        match &self.values {
            Values::Own(values) => values.as_slice(),
            Values::Shared(values) => values.as_slice(),
            Values::One(values) => values.as_slice(),
            Values::Two(values) => values.as_slice(),
            Values::Four(values) => values.as_slice(),
            Values::Five(values) => values.as_slice(),
            Values::Six(values) => values.as_slice(),
            Values::Ten(values) => values.as_slice(),
            Values::Twelve(values) => values.as_slice(),
            Values::Thirteen(values) => values.as_slice(),
        }
    }

    /// The number of values.
    pub fn len(&self) -> usize
        ensures { result ≡ length self.now }
    {
        self.as_slice().len()
    }

    /// The value at this place, from 0.
    pub fn get(&self, at: usize) -> Option<&Value>
        ensures { option_copied result ≡ slice_get self.now at }
    {
        self.as_slice().get(at)
    }

    /// Adds a value at the end. Where the values are shared the row gets its own first. A refused value is dropped.
    pub fn push(&mut self, item: Value) -> Result<(), NoMemory>
        ensures ok { OnOk result (self.new ≡ self.old ++ item ∷ []) }
        ensures err { OnErr result (self.new ≡ self.old) }
    {
        if let Values::Own(values) = &mut self.values {
            values.push(item)?;
            return Ok(());
        }
        let mut own = copied(self.alloc, self.as_slice())?;
        own.push(item)?;
        self.values = Values::Own(own);
        Ok(())
    }
}

impl Copied for Row {
    fn copy(&self, alloc: Global) -> Result<Self, NoMemory> {
        let values = match &self.values {
            Values::Own(values) => share(alloc, copied(alloc, values.as_slice())?)?,
            Values::Shared(values) => Values::Shared(Arc::try_clone(values)?),
            Values::One(values) => Values::One(Arc::try_clone(values)?),
            Values::Two(values) => Values::Two(Arc::try_clone(values)?),
            Values::Four(values) => Values::Four(Arc::try_clone(values)?),
            Values::Five(values) => Values::Five(Arc::try_clone(values)?),
            Values::Six(values) => Values::Six(Arc::try_clone(values)?),
            Values::Ten(values) => Values::Ten(Arc::try_clone(values)?),
            Values::Twelve(values) => Values::Twelve(Arc::try_clone(values)?),
            Values::Thirteen(values) => Values::Thirteen(Arc::try_clone(values)?),
        };
        Ok(Row { values, alloc })
    }
}

/// The values, shared in the form of their width, or as a list where no form has it.
macro_rules! share_by_width {
    ($alloc:ident, $values:ident, $($width:literal: $form:ident),*) => {
        match $values.len() {
            $($width => match <[Value; $width]>::try_from($values) {
                Ok(values) => Ok(Values::$form(Arc::new($alloc, values)?)),
                Err(values) => share_list($alloc, values),
            },)*
            _ => share_list($alloc, $values),
        }
    };
}

/// The values, shared.
fn share(alloc: Global, values: Vec<Value>) -> Result<Values, NoMemory>
    ensures { IfOk result (λ shared. values_of shared ≡ values.items) }
{
    share_by_width!(alloc, values, 1: One, 2: Two, 4: Four, 5: Five, 6: Six, 10: Ten, 12: Twelve, 13: Thirteen)
}

/// The values, shared as a list.
fn share_list(alloc: Global, values: Vec<Value>) -> Result<Values, NoMemory>
    ensures { IfOk result (λ shared. values_of shared ≡ values.items) }
{
    Ok(Values::Shared(Arc::new(alloc, values)?))
}

/// Copies of these values.
fn copied(alloc: Global, values: &[Value]) -> Result<Vec<Value>, NoMemory>
    ensures { IfOk result (λ copies. copies.items ≡ values.now) }
{
    let mut copies = Vec::with_capacity(alloc, values.len())?;
    for value in values {
        copies.push(value.copy(alloc)?)?;
    }
    Ok(copies)
}

/// Rows, in order.
pub type RowList = Sequence<Row>;
