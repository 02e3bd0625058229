//! A stack of values.

ghost use Rattle.std.specs.Prelude.{◌≡◌, [], ◌∷◌, ◌++◌, ◌==◌, length, OnOk, IfNone};
ghost use Rattle.std.specs.Option.{option_to_list};

use osq_value::NoMemory;
use std::alloc::Global;
use std::marker::Model;

/// A stack, which contracts see as the list of its items, the one that was put there last in front.
#[derive(Drop)]
pub(crate) struct Stack<T> {
    held: Vec<T>,
}

impl<T> Model for Stack<T> {
    ghost use Rattle.std.specs.Prelude.{List, reverse};

    ghost Value = { List T };

    ghost view = { λ s. reverse s.held.items };
}

impl<T: Drop> Stack<T> {
    /// The empty stack. It takes no memory until something is put there.
    pub(crate) fn new(alloc: Global) -> Self
        ensures { result ≡ [] }
    {
        Stack {
            held: Vec::new(alloc),
        }
    }

    /// Puts an item on top. A refused item is dropped.
    pub(crate) fn push(&mut self, item: T) -> Result<(), NoMemory>
        ensures { OnOk result (self.new ≡ item ∷ self.old) }
    {
        self.held.push(item)?;
        Ok(())
    }

    /// Takes the top item; none exactly where there is no item.
    pub(crate) fn pop(&mut self) -> Option<T>
        ensures items { self.old ≡ option_to_list result ++ self.new }
        ensures none { IfNone result (self.old ≡ []) }
    {
        self.held.pop()
    }

    /// There is no item.
    pub(crate) fn is_empty(&self) -> bool
        ensures { result ≡ (length self.now == 0) }
    {
        self.held.is_empty()
    }
}
