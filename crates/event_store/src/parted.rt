//! Rows in parts that cuts share.

ghost use Rattle.std.specs.Prelude.{◌≡◌, ℕ, ◌<◌, ◌/◌, ◌%◌, length, set, slice_get, IfOk, OnOk, OnErr};
ghost use Rattle.std.specs.Option.{option_copied};
ghost use Rattle.event_store.specs.Parts.{rows_of, HasAll};

use crate::shared::SharedRows;
use osq_value::{NoMemory, Row};
use std::alloc::Global;
use std::marker::Model;
use std::sync::Arc;

/// How many rows a part has, but for the last one.
pub const PART_ROWS: usize = 64;

/// Rows in parts of `PART_ROWS`, each of which can be renewed while cuts share the others.
#[derive(Drop)]
pub struct PartedRows {
    parts: Arc<Vec<SharedRows>, Global>,
    count: usize,
}

impl Model for PartedRows {
    ghost use Rattle.std.specs.Arc.{arc_value};
    ghost use Rattle.event_store.specs.Parts.{Parted, HasAll};

    ghost Value = { Parted };

    ghost view = { λ p. record { parts = (arc_value p.parts).items; count = p.count } };

    ghost invariant = { λ p. HasAll (record { parts = (arc_value p.parts).items; count = p.count }) };
}

/// The same parts, shared one by one.
fn shared(alloc: Global, parts: &[SharedRows]) -> Result<Vec<SharedRows>, NoMemory>
    ensures { IfOk result (λ shared. shared.items ≡ parts.now) }
{
    let mut all = Vec::with_capacity(alloc, parts.len())?;
    for part in parts {
        all.push(part.share()?)?;
    }
    Ok(all)
}

impl PartedRows {
    /// So many rows, in these parts.
    pub fn of(alloc: Global, parts: Vec<SharedRows>, count: usize) -> Result<PartedRows, NoMemory>
        requires { HasAll (record { parts = parts.items; count = count }) }
        ensures { IfOk result (λ rows. rows ≡ record { parts = parts.items; count = count }) }
    {
        Ok(PartedRows {
            parts: Arc::new(alloc, parts)?,
            count,
        })
    }

    /// The same rows, in one step.
    pub fn share(&self) -> Result<PartedRows, NoMemory>
        ensures { IfOk result (λ shared. shared ≡ self.now) }
    {
        Ok(PartedRows {
            parts: Arc::try_clone(&self.parts)?,
            count: self.count,
        })
    }

    /// Gives the part at this place these rows, one for each place of the part: in its place where nothing else has these
    /// rows, and else in a list of its own that shares all other parts. Refused rows are dropped.
    pub fn renew(&mut self, alloc: Global, at: usize, rows: SharedRows) -> Result<(), NoMemory>
        requires within { at < length self.old.parts }
        requires whole { (place : ℕ) → place < self.old.count → place / 64 ≡ at → place % 64 < length rows }
        ensures ok { OnOk result (self.new ≡ record self.old { parts = set self.old.parts at rows }) }
        ensures err { OnErr result (self.new ≡ self.old) }
    {
        if let Some(parts) = Arc::get_mut(&mut self.parts) {
            parts[at] = rows;
            return Ok(());
        }
        let mut parts = shared(alloc, self.parts.as_slice())?;
        parts[at] = rows;
        self.parts = Arc::new(alloc, parts)?;
        Ok(())
    }

    /// The number of rows.
    pub fn len(&self) -> usize
        ensures { result ≡ self.now.count }
    {
        self.count
    }

    /// The row at this place, from 0.
    pub fn get(&self, at: usize) -> Option<&Row>
        ensures { option_copied result ≡ slice_get (rows_of self.now) at }
    {
        if at >= self.count {
            return None;
        }
        self.parts[at / PART_ROWS].get(at % PART_ROWS)
    }
}
