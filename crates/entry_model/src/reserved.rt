//! Runs with room for more, so that a batch is recorded without memory.

ghost use Rattle.std.specs.Prelude.{◌≡◌, ◌<◌, ◌^◌, All, OnOk, OnErr, Some, false, length, max, set, slice_get};
ghost use Rattle.entry_model.specs.declared.restored.Run.{Run as RunOf};
ghost use Rattle.entry_model.specs.Reserved.{HaveOwnKeys, has_run, noted, place_of};
ghost use Rattle.entry_model.specs.Runs.{changed_run};

use crate::restored::{Run, RunList};
use osq_value::NoMemory;
use pack_rules::schedule::QueryKey;
use std::marker::Model;

/// Runs of different queries, and for how many more there is room.
#[derive(Drop)]
pub struct ReservedRuns {
    runs: Vec<Run>,
    room: u64,
}

impl Model for ReservedRuns {
    ghost use Rattle.std.specs.Prelude.{◌+◌, ◌≤◌, vec_len, vec_capacity};
    ghost use Rattle.entry_model.specs.Reserved.{HaveOwnKeys, RunsAndRoom};

    ghost Value = { RunsAndRoom };

    ghost view = { λ r. record { runs = r.runs.items; room = r.room } };

    ghost invariant = { λ r. (vec_len r.runs + r.room ≤ vec_capacity r.runs) × HaveOwnKeys r.runs.items };
}

/// Changes the run at this place, which has one more batch.
fn change_at(runs: &mut [Run], at: usize, number: u64, hi: u64, moment: u64)
    requires within { at < length runs.old }
    requires counts { All (λ run. run.count < 2 ^ 63) runs.old }
    ensures { (run : RunOf) → slice_get runs.old at ≡ Some run → runs.new ≡ set runs.old at (changed_run number hi moment run) }
{
    let run = &mut runs[at];
    run.number = number;
    run.hi = hi;
    run.moment = moment;
    run.count += 1;
}

impl ReservedRuns {
    /// These runs, with no room for more.
    pub fn of(runs: RunList) -> ReservedRuns
        requires { HaveOwnKeys runs }
        ensures { result ≡ record { runs = runs; room = 0 } }
    {
        ReservedRuns {
            runs: runs.into_vec(),
            room: 0,
        }
    }

    /// The runs.
    pub fn as_slice(&self) -> &[Run]
        ensures { result.now ≡ self.now.runs }
    {
        self.runs.as_slice()
    }

    /// Makes room for at least so many more runs.
    pub fn reserve_runs(&mut self, room: u64) -> Result<(), NoMemory>
        ensures ok { OnOk result (self.new ≡ record self.old { room = max self.old.room room }) }
        ensures err { OnErr result (self.new ≡ self.old) }
    {
        if room <= self.room {
            return Ok(());
        }
        self.runs.reserve(room as usize)?;
        self.room = room;
        Ok(())
    }

    /// Notes one more batch of the query whose run stands at this place, in one step. It takes no memory: a query without
    /// a run has its run where there is room.
    pub fn record_run(
        &mut self,
        place: Option<usize>,
        key: QueryKey,
        number: u64,
        hi: u64,
        moment: u64,
    )
        requires counts { All (λ run. run.count < 2 ^ 63) self.old.runs }
        requires room { has_run self.old.runs key ≡ false → 0 < self.old.room }
        requires place { place ≡ place_of self.old.runs key }
        ensures { self.new ≡ noted self.old key number hi moment }
    {
        match place {
            Some(place) => {
                change_at(self.runs.as_mut_slice(), place, number, hi, moment);
                return;
            }
            None => {}
        }
        self.runs.push_reserved(Run {
            key,
            number,
            hi,
            moment,
            count: 1,
        });
        self.room -= 1;
    }
}
