//! Lists that are looked up by their first items.
ghost use Rattle.std.specs.Prelude.{◌≡◌, take};

use osq_value::Sequence;
use std::hash::{Hash, Hasher};

/// A list that stands for its first `width` items, or for all where it has fewer.
#[derive(Drop)]
pub(crate) struct Front<T> {
    /// The list, which may be longer.
    pub items: Sequence<T>,
    /// How many of its first items count.
    pub width: usize,
}

impl<T: Drop> Front<T> {
    fn first_items(&self) -> &[T]
        ensures { result.now ≡ take self.now.width self.now.items }
    {
        let items = self.items.as_slice();
        items.split_at(self.width.min(items.len())).0
    }
}

impl<T: PartialEq + Drop> PartialEq for Front<T> {
    ghost use Rattle.std.specs.Cmp.{on_per};
    ghost use Rattle.std.specs.Cmp.Lexicographic.{pointwise, lists_per};

    ghost eq = { λ left right. pointwise T.eq (take left.width left.items) (take right.width right.items) };

    ghost laws = { on_per (λ front. take front.width front.items) (lists_per T.laws) };

    fn eq(&self, other: &Self) -> bool {
        self.first_items() == other.first_items()
    }
}

impl<T: Eq + Drop> Eq for Front<T> {
    ghost use Rattle.std.specs.Cmp.{on_equiv};
    ghost use Rattle.std.specs.Cmp.Lexicographic.{lists_equiv};

    ghost laws = { on_equiv (λ front. take front.width front.items) (lists_equiv T.Eq.laws) };
}

impl<T: Hash + Drop> Hash for Front<T> {
    ghost use Rattle.std.specs.Hash as fed;
    ghost use Rattle.std.specs.Hash.{items_Alike, on_Alike};

    ghost hash_input = { λ front. fed.slice T.hash_input (take front.width front.items) };

    ghost respects_eq = { (on_Alike (λ front. take front.width front.items) (items_Alike (record { fed = T.respects_eq }))).fed };

    fn hash<H: Hasher>(&self, state: &mut H) {
        self.first_items().hash(state);
    }
}
