//! Who sees the records of a step.

ghost use Rattle.std.specs.Prelude.{◌∷◌, ◌++◌, [], List, OnOk};
ghost use Rattle.publisher_core.specs.declared.record.Record.{Record};

use crate::record::Record;
use osq_value::NoMemory;
use std::alloc::Global;

/// Sees each record of a step once, in order, before a callback is asked about it.
pub trait Watcher {
    /// These are the records that the watcher has seen, as far as it tells.
    ghost saw: { Self → List Record → Type 0 };

    /// Sees one more record. Want of memory is the only refusal, and the step refuses with it.
    fn see(&mut self, alloc: Global, item: &Record) -> Result<(), NoMemory>
        ensures { (seen : List Record) → saw self.old seen → OnOk result (saw self.new (seen ++ item.now ∷ [])) };
}

/// A watcher that looks at nothing.
#[derive(Drop)]
pub struct Unseen;

impl Watcher for Unseen {
    ghost saw = { λ _ _. Unit {0} };

    fn see(&mut self, _alloc: Global, _item: &Record) -> Result<(), NoMemory> {
        Ok(())
    }
}
