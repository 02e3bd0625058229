//! The rows of the schedule's table, which cuts share.

ghost use Rattle.std.specs.Prelude.{◌≡◌, ◌<◌, ◌^◌, ◌*◌, ◌/◌, All, IfOk, true, length, set, []};
ghost use Rattle.std.specs.Fork.{slice_chunk};
ghost use Rattle.pack_rules.specs.Sound.{IsRunnable};
ghost use Rattle.query_cursors.specs.Places.{places_of};
ghost use Rattle.session_state.specs.Kept.{IsRun};
ghost use Rattle.session_state.specs.Computed.{schedule_shown};
ghost use Rattle.session_state.specs.Listed.{AreFresh, AreParts};

use crate::computed::rows_between;
use event_store::parted::PART_ROWS;
use event_store::{PartedRows, SharedRows};
use osq_value::NoMemory;
use pack_rules::schedule::Scheduled;
use query_cursors::Cursors;
use std::alloc::Global;
use std::marker::Model;

/// The rows of `osquery_schedule` as they were when each part was last made, and which parts commits have made stale since.
#[derive(Drop)]
pub(crate) struct Listed {
    rows: PartedRows,
    stale: Vec<bool>,
}

impl Model for Listed {
    ghost use Rattle.session_state.specs.Listed.{RowsAndStale};

    ghost Value = { RowsAndStale };

    ghost view = { λ l. record { rows = l.rows; stale = l.stale.items } };
}

/// The rows of the queries whose places are in this part, with their runs at these places.
fn part_of(
    alloc: Global,
    queries: &[Scheduled],
    cursors: &Cursors,
    places: &[Option<usize>],
    part: usize,
) -> Result<SharedRows, NoMemory>
    requires runnable { All IsRunnable queries.now }
    requires runs { All (IsRun (2 ^ 62)) cursors.now.runs }
    requires places { places.now ≡ places_of cursors.now.runs queries.now }
    requires within { part * 64 < length queries.now }
    ensures { IfOk result (λ rows. rows ≡ slice_chunk (schedule_shown cursors.now.runs queries.now) 64 part) }
{
    let from = part * PART_ROWS;
    let to = queries.len().min(from + PART_ROWS);
    SharedRows::of(
        alloc,
        rows_between(alloc, queries, cursors, places, from, to)?,
    )
}

impl Listed {
    /// No rows.
    pub fn none(alloc: Global) -> Result<Listed, NoMemory>
        ensures { IfOk result (AreFresh []) }
    {
        Ok(Listed {
            rows: PartedRows::of(alloc, Vec::new(alloc), 0)?,
            stale: Vec::new(alloc),
        })
    }

    /// The rows of these queries, whose runs are at these places.
    pub fn of(
        alloc: Global,
        queries: &[Scheduled],
        cursors: &Cursors,
        places: &[Option<usize>],
    ) -> Result<Listed, NoMemory>
        requires runnable { All IsRunnable queries.now }
        requires runs { All (IsRun (2 ^ 62)) cursors.now.runs }
        requires places { places.now ≡ places_of cursors.now.runs queries.now }
        ensures { IfOk result (λ listed. AreFresh (schedule_shown cursors.now.runs queries.now) listed) }
    {
        let count = queries.len().div_ceil(PART_ROWS);
        let mut parts = Vec::with_capacity(alloc, count)?;
        for part in 0..count {
            parts.push(part_of(alloc, queries, cursors, places, part)?)?;
        }
        Ok(Listed {
            rows: PartedRows::of(alloc, parts, queries.len())?,
            stale: vec![in alloc; false; count]?,
        })
    }

    /// A batch of the query at this place was committed, so that its part is stale.
    pub fn outdate(&mut self, place: u32)
        ensures { self.new ≡ record self.old { stale = set self.old.stale (place / 64) true } }
    {
        let part = place as usize / PART_ROWS;
        if part < self.stale.len() {
            self.stale[part] = true;
        }
    }

    /// The rows as they are now: those of stale parts are made anew, and all others are shared.
    pub fn shown(
        &self,
        alloc: Global,
        queries: &[Scheduled],
        cursors: &Cursors,
    ) -> Result<PartedRows, NoMemory>
        requires fresh { AreFresh (schedule_shown cursors.now.runs queries.now) self.now }
        requires runnable { All IsRunnable queries.now }
        requires runs { All (IsRun (2 ^ 62)) cursors.now.runs }
        requires places { cursors.now.places ≡ places_of cursors.now.runs queries.now }
        ensures { IfOk result (AreParts (schedule_shown cursors.now.runs queries.now)) }
    {
        let mut rows = self.rows.share()?;
        for part in 0..self.stale.len() {
            if self.stale[part] {
                let renewed = part_of(alloc, queries, cursors, cursors.places(), part)?;
                rows.renew(alloc, part, renewed)?;
            }
        }
        Ok(rows)
    }

    /// Makes the rows of this part anew, so that it isn't stale. What has no room leaves them as they were.
    fn renew_part(
        &mut self,
        alloc: Global,
        queries: &[Scheduled],
        cursors: &Cursors,
        part: usize,
    ) -> Result<(), NoMemory>
        requires fresh { AreFresh (schedule_shown cursors.now.runs queries.now) self.old }
        requires runnable { All IsRunnable queries.now }
        requires runs { All (IsRun (2 ^ 62)) cursors.now.runs }
        requires places { cursors.now.places ≡ places_of cursors.now.runs queries.now }
        requires within { part < length self.old.stale }
        ensures fresh { AreFresh (schedule_shown cursors.now.runs queries.now) self.new }
        ensures parts { length self.new.stale ≡ length self.old.stale }
    {
        let renewed = part_of(alloc, queries, cursors, cursors.places(), part)?;
        self.rows.renew(alloc, part, renewed)?;
        self.stale[part] = false;
        Ok(())
    }

    /// Makes the rows of stale parts anew, so that no part is stale. Where memory is wanting some parts stay stale.
    pub fn renew(
        &mut self,
        alloc: Global,
        queries: &[Scheduled],
        cursors: &Cursors,
    ) -> Result<(), NoMemory>
        requires fresh { AreFresh (schedule_shown cursors.now.runs queries.now) self.old }
        requires runnable { All IsRunnable queries.now }
        requires runs { All (IsRun (2 ^ 62)) cursors.now.runs }
        requires places { cursors.now.places ≡ places_of cursors.now.runs queries.now }
        ensures { AreFresh (schedule_shown cursors.now.runs queries.now) self.new }
    {
        for part in 0..self.stale.len() {
            if self.stale[part] {
                self.renew_part(alloc, queries, cursors, part)?;
            }
        }
        Ok(())
    }
}
