//! Values that are lent where they stand, and made where they don't.
ghost use Rattle.std.specs.Prelude.{◌≡◌, IfOk};
ghost use Rattle.sql_meaning.specs.Worths.{worth_of};

use osq_value::{Copied, NoMemory, Sequence, Value};
use std::alloc::Global;
use std::hash::{Hash, Hasher};

/// What an expression is worth: a value that stands in a row or in the expression, or one that was made.
#[derive(Drop)]
pub enum Worth<'a> {
    /// A value that stands in a row or in the expression.
    Held { value: &'a Value },
    /// A value that was made.
    Made { value: Value },
}

/// A row of the result before its values are copied.
pub type ResultRow<'a> = Sequence<Worth<'a>>;

/// Such rows.
pub type ResultRowList<'a> = Sequence<ResultRow<'a>>;

impl<'a> Worth<'a> {
    /// The value, where it stands.
    pub fn as_value(&self) -> &Value
        ensures { result.now ≡ worth_of self.now }
    {
        match self {
            Worth::Held { value } => value,
            Worth::Made { value } => value,
        }
    }

    pub(crate) fn into_value(self, alloc: Global) -> Result<Value, NoMemory>
        ensures { IfOk result (λ value. value ≡ worth_of self.entry) }
    {
        match self {
            Worth::Held { value } => value.copy(alloc),
            Worth::Made { value } => Ok(value),
        }
    }
}

impl<'a> PartialEq for Worth<'a> {
    ghost use Rattle.std.specs.Cmp.{on_per, partial_equiv_from_equiv};
    ghost use Rattle.sql_meaning.specs.SameValues.{values_equiv};
    ghost use Rattle.sql_meaning.specs.Worths.{worth_of};

    ghost eq = { λ left right. ⟦<Value as PartialEq>⟧.eq (worth_of left) (worth_of right) };

    ghost laws = { on_per worth_of {E = ⟦<Value as PartialEq>⟧.eq} (partial_equiv_from_equiv values_equiv) };

    fn eq(&self, other: &Self) -> bool {
        self.as_value() == other.as_value()
    }
}

impl<'a> Eq for Worth<'a> {
    ghost use Rattle.std.specs.Cmp.{on_equiv};
    ghost use Rattle.sql_meaning.specs.SameValues.{values_equiv};
    ghost use Rattle.sql_meaning.specs.Worths.{worth_of};

    ghost laws = { on_equiv worth_of {E = ⟦<Value as PartialEq>⟧.eq} values_equiv };
}

impl<'a> Hash for Worth<'a> {
    ghost use Rattle.std.proofs.Common.{rules};
    ghost use Rattle.std.specs.Hash.{on_Alike};
    ghost use Rattle.std.specs.Cmp.Rules.{hashing};
    ghost use Rattle.sql_meaning.specs.Worths.{worth_of};

    ghost hash_input = { λ worth. ⟦<Value as Hash>⟧.hash_input (worth_of worth) };

    ghost respects_eq = { (on_Alike worth_of {E = ⟦<Value as PartialEq>⟧.eq} {F = ⟦<Value as Hash>⟧.hash_input} (record { fed = Prim.search (hashing, rules) })).fed };

    fn hash<H: Hasher>(&self, state: &mut H) {
        self.as_value().hash(state);
    }
}
