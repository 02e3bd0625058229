//! The rows of a custom table.

ghost use Rattle.std.specs.Prelude.{◌≡◌, ◌≤◌, ◌∷◌, ◌++◌, [], length, drop, slice_get, List, OnOk, OnErr, IfOk};
ghost use Rattle.std.specs.Option.{option_copied};
ghost use Rattle.custom_tables.specs.Held.{Custom, HasFed, last_of, lost_after, rows_after};
ghost use Rattle.publisher_core.specs.declared.record.Record.{Record as Fed};

use crate::callback::RowCallback;
use crate::rule::Rule;
use osq_value::{Copied, NoMemory, Row, RowList, Sequence};
use publisher_core::record::Record;
use std::alloc::Global;
use std::collections::VecDeque;
use std::marker::Model;

/// No table counts more rows.
const MOST_ROWS: u64 = (1 << 63) - 1;

/// An evented table that a callback fills: the last so many of the rows that it gave, which are numbered from 1 in the order in which they
/// came. Contracts see the rule, how many rows are held at most, how many came, and those that are held.
///
/// ```
/// let mut logins = CustomTable::new(alloc, rule, 50_000, RuleRows { rule: rule_again });
/// logins.feed(&record)?;
/// logins.last()        // how many rows came
/// logins.after(10)?    // the held rows that are numbered from 11 on
/// logins.lost(10)      // how many numbers from 11 on are no longer held
/// ```
#[derive(Drop)]
pub struct CustomTable<B: RowCallback> {
    alloc: Global,
    rule: Rule,
    max: u64,
    last: u64,
    rows: VecDeque<Row>,
    callback: B,
}

impl<B: RowCallback> Model for CustomTable<B> {
    ghost use Rattle.std.specs.Prelude.{◌≡◌, ◌≤◌, length};
    ghost use Rattle.custom_tables.specs.Held.{Custom};

    ghost Value = { Custom };

    ghost view = { λ s. record { rule = s.rule; max = s.max; held = record { last = s.last; rows = s.rows.items } } };

    ghost invariant = { λ s. (B.rule s.callback ≡ s.rule) × ((1 ≤ s.max) × (length s.rows.items ≤ s.max)) };
}

impl<B: RowCallback> CustomTable<B> {
    /// The table that holds the last `max` rows of this rule, which the callback makes. It has none yet, and takes no memory.
    pub fn new(alloc: Global, rule: Rule, max: u64, callback: B) -> Self
        requires some { 1 ≤ max }
        requires by { B.rule callback ≡ rule }
        ensures rule { result.rule ≡ rule }
        ensures max { result.max ≡ max }
        ensures fed { HasFed result [] }
    {
        CustomTable {
            alloc,
            rule,
            max,
            last: 0,
            rows: VecDeque::new(alloc),
            callback,
        }
    }

    /// The rule of the table's rows.
    pub fn rule(&self) -> &Rule
        ensures { result.now ≡ self.now.rule }
    {
        &self.rule
    }

    /// Takes a record: the row that it gives, if any, is the last one, and where `max` rows were held the oldest goes. Where memory is
    /// wanting the table stays as it was; a row beyond the 2^63rd less one is answered so too.
    pub fn feed(&mut self, item: &Record) -> Result<(), NoMemory>
        ensures ok { (records : List Fed) → HasFed self.old records → OnOk result (HasFed self.new (records ++ item.now ∷ [])) }
        ensures rule { self.new.rule ≡ self.old.rule }
        ensures max { self.new.max ≡ self.old.max }
        ensures err { OnErr result (self.new ≡ self.old) }
    {
        let Some(row) = self.callback.row_of(self.alloc, item)? else {
            return Ok(());
        };
        if self.last >= MOST_ROWS {
            return Err(NoMemory);
        }
        hold(&mut self.rows, self.max, row)?;
        self.last += 1;
        Ok(())
    }

    /// How many rows came, which is the number of the last one.
    pub fn last(&self) -> u64
        ensures { result ≡ self.now.held.last }
    {
        self.last
    }

    /// The held rows whose numbers are above the cursor, in their order.
    pub fn after(&self, cursor: u64) -> Result<RowList, NoMemory>
        ensures { IfOk result (λ rows. rows ≡ rows_after self.now.held cursor) }
    {
        rows_from(
            self.alloc,
            &self.rows,
            cursor.saturating_sub(self.dropped()),
        )
    }

    /// How many numbers above the cursor are those of rows that are no longer held.
    pub fn lost(&self, cursor: u64) -> u64
        ensures { result ≡ lost_after self.now.held cursor }
    {
        self.dropped().saturating_sub(cursor)
    }

    /// How many rows are no longer held.
    fn dropped(&self) -> u64
        ensures { result ≡ lost_after self.now.held 0 }
    {
        self.last.saturating_sub(self.rows.len() as u64)
    }

    /// How many rows are held.
    pub fn count(&self) -> usize
        ensures { result ≡ length self.now.held.rows }
    {
        self.rows.len()
    }

    /// The held row at that place, from 0.
    pub fn row(&self, at: usize) -> Option<&Row>
        ensures { option_copied result ≡ slice_get self.now.held.rows at }
    {
        self.rows.get(at)
    }
}

/// Custom tables in the order of their rules.
pub type CustomTableList<B> = Sequence<CustomTable<B>>;

/// Adds a row at the end, and drops the oldest one where so many were held. Room is made before anything is dropped.
fn hold(rows: &mut VecDeque<Row>, max: u64, row: Row) -> Result<(), NoMemory>
    requires some { 1 ≤ max }
    requires few { length rows.old.items ≤ max }
    ensures ok { OnOk result (rows.new.items ≡ last_of max (rows.old.items ++ row ∷ [])) }
    ensures few { length rows.new.items ≤ max }
    ensures err { OnErr result (rows.new.items ≡ rows.old.items) }
{
    rows.reserve(1)?;
    if rows.len() as u64 >= max {
        drop(rows.pop_front());
    }
    rows.push_back_reserved(row);
    Ok(())
}

/// Copies of the rows from that place on.
fn rows_from(alloc: Global, rows: &VecDeque<Row>, from: u64) -> Result<RowList, NoMemory>
    ensures { IfOk result (λ copies. copies ≡ drop from rows.now.items) }
{
    let mut copies = Sequence::new(alloc);
    for at in from as usize..rows.len() {
        copies.push(rows[at].copy(alloc)?)?;
    }
    Ok(copies)
}
