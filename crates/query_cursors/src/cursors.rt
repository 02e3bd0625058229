//! The last batches of queries, and which query comes next.

ghost use Rattle.std.specs.Prelude.{◌≡◌, ◌<◌, ◌≤◌, ◌^◌, All, OnOk, OnErr, IfOk, IfSome, [], false, length, find, map, max, set, slice_get, unwrap_or, Some, None, option_copied};
ghost use Rattle.std.specs.Option.{option_map_or};
ghost use Rattle.pack_rules.specs.Keys.{same_key};
ghost use Rattle.entry_model.specs.Reserved.{HaveOwnKeys, has_run, noted, place_of};
ghost use Rattle.entry_model.specs.Views.{least_of, lesser};
ghost use Rattle.query_cursors.specs.Due.{run_of, first_due, first_free, NoneFree, next_of, cursor_of, number_of};
ghost use Rattle.query_cursors.specs.Places.{places_of, run_at, reserved_of, placed_run, cursor_at, places_noted};

use crate::index::find_places;
use crate::interval::due;
use entry_model::reserved::ReservedRuns;
use entry_model::restored::{Run, RunList};
use osq_value::NoMemory;
use pack_rules::schedule::{QueryKey, Schedule, Scheduled};
use std::alloc::Global;
use std::marker::Model;

/// The last batch of each query, with room for queries that have none yet, and where the queries of a schedule have
/// theirs.
#[derive(Drop)]
pub struct Cursors {
    reserved: ReservedRuns,
    places: Vec<Option<usize>>,
}

impl Model for Cursors {
    ghost use Rattle.query_cursors.specs.Places.{Indexed};

    ghost Value = { Indexed };

    ghost view = { λ c. record { runs = c.reserved.runs; room = c.reserved.room; places = c.places.items } };
}

/// The run of the query, if it has one.
fn find_run<'a>(runs: &'a [Run], key: &QueryKey) -> Option<&'a Run>
    ensures { option_copied result ≡ run_of runs.now key.now }
{
    runs.iter().find(|run| run.key.is(key))
}

/// The run at this place, if there is one.
fn run_at(runs: &[Run], place: Option<usize>) -> Option<&Run>
    ensures { option_copied result ≡ run_at runs.now place }
{
    match place {
        None => None,
        Some(place) => runs.get(place),
    }
}

/// The number of the run, 0 where there is none.
fn number_in(run: Option<&Run>) -> u64
    ensures { result ≡ option_map_or (λ run. run.number) (option_copied run.entry) 0 }
{
    match run {
        None => 0,
        Some(run) => run.number,
    }
}

/// The end of the run, 0 where there is none.
fn end_in(run: Option<&Run>) -> u64
    ensures { result ≡ option_map_or (λ run. run.hi) (option_copied run.entry) 0 }
{
    match run {
        None => 0,
        Some(run) => run.hi,
    }
}

/// The number, or the other one where that is less.
fn lesser(number: u64, other: Option<u64>) -> u64
    ensures { result ≡ lesser number other }
{
    match other {
        None => number,
        Some(other) => number.min(other),
    }
}

impl Cursors {
    /// These runs, with no room for more, and no schedule. It takes no memory.
    pub fn restore(alloc: Global, runs: RunList) -> Cursors
        requires { HaveOwnKeys runs }
        ensures { result ≡ record { runs = runs; room = 0; places = [] } }
    {
        Cursors {
            reserved: ReservedRuns::of(runs),
            places: Vec::new(alloc),
        }
    }

    /// The places of the runs of these queries, in as many steps as there are runs and queries.
    pub fn find_places(
        &self,
        alloc: Global,
        queries: &[Scheduled],
    ) -> Result<Vec<Option<usize>>, NoMemory>
        ensures { IfOk result (λ places. places.items ≡ places_of self.now.runs queries.now) }
    {
        find_places(alloc, self.reserved.as_slice(), queries)
    }

    /// Takes these as the places of the runs of a schedule's queries. It takes no memory.
    pub fn set_places(&mut self, places: Vec<Option<usize>>)
        ensures { self.new ≡ record self.old { places = places.items } }
    {
        self.places = places;
    }

    /// The places of the runs of the schedule's queries, as they were last found.
    pub fn places(&self) -> &[Option<usize>]
        ensures { result.now ≡ self.now.places }
    {
        self.places.as_slice()
    }

    /// The run of the query at this place of a schedule whose queries have their runs at these places. It takes no memory,
    /// and one step.
    pub fn run_among(&self, places: &[Option<usize>], at: usize) -> Option<&Run>
        ensures { option_copied result ≡ run_at self.now.runs (unwrap_or (slice_get places.now at) None) }
    {
        match places.get(at) {
            None => None,
            Some(place) => run_at(self.reserved.as_slice(), *place),
        }
    }

    /// The run of the query at this place of the schedule, by its place. It takes no memory, and one step.
    pub fn placed_run(&self, at: usize) -> Option<&Run>
        ensures { option_copied result ≡ placed_run self.now at }
    {
        self.run_among(self.places.as_slice(), at)
    }

    /// The run of the query; none exactly where it has no batch. It takes no memory.
    pub fn run(&self, key: &QueryKey) -> Option<&Run>
        ensures { option_copied result ≡ run_of self.now.runs key.now }
    {
        find_run(self.reserved.as_slice(), key)
    }

    /// Up to which number the query has read the events, 0 where it has no batch. It takes no memory.
    pub fn cursor(&self, key: &QueryKey) -> u64
        ensures { result ≡ cursor_of self.now.runs key.now }
    {
        end_in(self.run(key))
    }

    /// Up to which number the query at this place of the schedule has read the events, 0 where it has no batch.
    fn cursor_at(&self, at: usize) -> u64
        ensures { result ≡ cursor_at self.now at }
    {
        end_in(self.placed_run(at))
    }

    /// The least cursor of the queries at these places of the schedule, or `last` where there are none. One without a batch has
    /// read nothing. It takes no memory, and one step for each place.
    pub fn reached(&self, readers: &[usize], last: u64) -> u64
        ensures { result ≡ unwrap_or (least_of (map (cursor_at self.now) readers.now)) last }
    {
        let mut least = None;
        for at in readers {
            least = Some(lesser(self.cursor_at(*at), least));
        }
        least.unwrap_or(last)
    }

    /// The number of the query's last batch, 0 where it has none. It takes no memory.
    pub fn number(&self, key: &QueryKey) -> u64
        ensures { result ≡ number_of self.now.runs key.now }
    {
        number_in(self.run(key))
    }

    /// The number of the last batch of the query that has this key, 0 where it has none: by its place where it stands at this
    /// one of these queries, and else by a look at each run. It takes no memory.
    pub fn number_at(&self, queries: &[Scheduled], at: usize, key: &QueryKey) -> u64
        requires { self.now.places ≡ places_of self.now.runs queries.now }
        ensures { result ≡ number_of self.now.runs key.now }
    {
        match queries.get(at) {
            None => self.number(key),
            Some(scheduled) => {
                if scheduled.key.is(key) {
                    number_in(self.placed_run(at))
                } else {
                    self.number(key)
                }
            }
        }
    }

    /// The place of the first of these queries that is due, by the places of their runs.
    fn due_place(&self, queries: &[Scheduled], moment: u64) -> Option<usize>
        requires { self.now.places ≡ places_of self.now.runs queries.now }
        ensures place { result ≡ first_due self.now.runs queries.now moment }
        ensures within { IfSome result (λ place. place < length queries.now) }
    {
        for at in 0..queries.len() {
            if due(&queries[at], self.placed_run(at), moment) {
                return Some(at);
            }
        }
        None
    }

    /// The place of the first of these queries that is due and not claimed, which none before this place is, by the places
    /// of their runs.
    fn free_place(
        &self,
        queries: &[Scheduled],
        claimed: &[bool],
        from: usize,
        moment: u64,
    ) -> Option<usize>
        requires places { self.now.places ≡ places_of self.now.runs queries.now }
        requires claims { length claimed.now ≡ length queries.now }
        requires passed { NoneFree self.now.runs queries.now claimed.now moment from }
        ensures place { result ≡ first_free self.now.runs queries.now claimed.now moment }
        ensures within { IfSome result (λ place. place < length queries.now) }
    {
        for at in from..queries.len() {
            if !claimed[at] && due(&queries[at], self.placed_run(at), moment) {
                return Some(at);
            }
        }
        None
    }

    /// The place of the query to cut next: the first that is due and not claimed, which none before this place is, else the
    /// first that is due; none exactly where no query is due. It takes no memory, and a step for each query from that place
    /// on, or where all that are due are claimed for each query.
    pub fn next_due(
        &self,
        schedule: &Schedule,
        claimed: &[bool],
        from: usize,
        moment: u64,
    ) -> Option<u32>
        requires count { length schedule.now.queries ≤ 10000 }
        requires claims { length claimed.now ≡ length schedule.now.queries }
        requires places { self.now.places ≡ places_of self.now.runs schedule.now.queries }
        requires passed { NoneFree self.now.runs schedule.now.queries claimed.now moment from }
        ensures place { result ≡ next_of self.now.runs schedule.now.queries claimed.now moment }
        ensures within { IfSome result (λ place. place < length schedule.now.queries) }
    {
        let queries = schedule.queries.as_slice();
        if let Some(place) = self.free_place(queries, claimed, from, moment) {
            return Some(place as u32);
        }
        self.first_due(schedule, moment)
    }

    /// The place of the first query that is due; none exactly where no query is. It takes no memory, and a step a query.
    pub fn first_due(&self, schedule: &Schedule, moment: u64) -> Option<u32>
        requires count { length schedule.now.queries ≤ 10000 }
        requires places { self.now.places ≡ places_of self.now.runs schedule.now.queries }
        ensures place { result ≡ first_due self.now.runs schedule.now.queries moment }
        ensures within { IfSome result (λ place. place < length schedule.now.queries) }
    {
        match self.due_place(schedule.queries.as_slice(), moment) {
            None => None,
            Some(place) => Some(place as u32),
        }
    }

    /// Makes room for the runs of at least so many queries that have none.
    pub fn reserve(&mut self, room: u64) -> Result<(), NoMemory>
        ensures ok { OnOk result (self.new ≡ record self.old { room = max self.old.room room }) }
        ensures err { OnErr result (self.new ≡ self.old) }
    {
        self.reserved.reserve_runs(room)
    }

    /// Notes one more batch of the query that stands at this place of the schedule, in one step. It takes no memory: a query
    /// without a run has its run where there is room.
    pub fn record_commit(&mut self, at: u32, key: QueryKey, number: u64, hi: u64, moment: u64)
        requires counts { All (λ run. run.count < 2 ^ 63) self.old.runs }
        requires room { has_run self.old.runs key ≡ false → 0 < self.old.room }
        requires place { slice_get self.old.places at ≡ Some (place_of self.old.runs key) }
        ensures noted { reserved_of self.new ≡ noted (reserved_of self.old) key number hi moment }
        ensures places { self.new.places ≡ places_noted self.old at key }
    {
        let place = self.places[at as usize];
        let count = self.reserved.as_slice().len();
        self.reserved.record_run(place, key, number, hi, moment);
        if place.is_some() {
            return;
        }
        self.places[at as usize] = Some(count);
    }
}
