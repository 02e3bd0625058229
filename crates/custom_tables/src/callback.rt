//! Who makes the rows of a custom table.

ghost use Rattle.std.specs.Prelude.{◌≡◌, IfOk};
ghost use Rattle.custom_tables.specs.Rows.{row_of_record};
ghost use Rattle.custom_tables.specs.declared.rule.Rule.{Rule};

use crate::row::row_by;
use crate::rule::Rule;
use osq_value::{NoMemory, Row};
use publisher_core::record::Record;
use std::alloc::Global;

/// A callback that gives the row of each record. Whoever implements it says by which rule, and proves just that; want of memory is its
/// only other answer.
pub trait RowCallback: Drop {
    /// The rule by which rows are made.
    ghost rule: { Self → Rule };

    /// The row of the record, none where it has none.
    fn row_of(&self, alloc: Global, item: &Record) -> Result<Option<Row>, NoMemory>
        ensures { IfOk result (λ row. row ≡ row_of_record (rule self.now) item.now) };
}

/// The callback that makes the rows of one rule.
#[derive(Drop)]
pub struct RuleRows {
    /// The rule by which rows are made.
    pub rule: Rule,
}

impl RowCallback for RuleRows {
    ghost rule = { λ rows. rows.rule };

    fn row_of(&self, alloc: Global, item: &Record) -> Result<Option<Row>, NoMemory> {
        row_by(alloc, &self.rule, item)
    }
}
