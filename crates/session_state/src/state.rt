//! The state of a session.

ghost use Rattle.std.specs.Prelude.{◌≡◌, ℕ, ◌+◌, ◌<◌, ◌≤◌, ◌^◌, ◌↔◌, ◌⊎◌, All, max, IsTrue, IfOk, IfErr, IfSome, OnOk, OnErr, MatchBool, MatchOption, Some, None, Ok, Err, List, [], length, replicate, set, slice_get, option_map, option_copied, find, get_or, nat_le, ◌-◌, true, false};
ghost use Rattle.entry_model.specs.declared.entry.Entry.{Entry};
ghost use Rattle.entry_model.specs.declared.restored.Restored.{Restored};
ghost use Rattle.entry_model.specs.Fits.{Fits};
ghost use Rattle.pack_rules.specs.Sound.{IsSound};
ghost use Rattle.entry_model.specs.declared.entry.Entry.TheVariants.{Acked, Ticked, Configured, Appended, TableSet};
ghost use Rattle.entry_model.specs.Legal.{IsEvent, width_of};
ghost use Rattle.entry_model.specs.Next.{offset_at};
ghost use Rattle.event_store.specs.Contents.{AreWide, floor_at};
ghost use Rattle.event_store.specs.Costs.{slice_cost};
ghost use Rattle.event_store.specs.Slices.{IsSliceOf};
ghost use Rattle.session_state.specs.Kept.{due_count, IsState};
ghost use Rattle.session_state.specs.StateOf.{Adds, Begins, IsStateOf};
ghost use Rattle.entry_model.specs.Views.{is_evented_table, is_recorded_table};
ghost use Rattle.session_state.specs.Ticks.{held_back_by, first_due, owed_at, reached_at};
ghost use Rattle.std.specs.List.{cons_option};
ghost use Rattle.std.specs.Option.{option_map_or};
ghost use Rattle.osq_value.specs.declared.moment.TheConstants.{LAST_MOMENT};
ghost use Rattle.query_cursors.specs.Places.{places_of};
ghost use Rattle.session_state.specs.Computed.{schedule_shown, shown_by};
ghost use Rattle.session_state.specs.Listed.{AreFresh};
ghost use Rattle.session_state.specs.Readers.{readers_of};
ghost use Rattle.session_state.specs.Cut.{CutValue};
ghost use Rattle.session_state.specs.CutOf.{mark_from, IsCutOf};
ghost use Rattle.session_state.specs.Marks.{IsRising};
ghost use Rattle.session_state.specs.Cutting.{next_place, lower_from, bound_at, cut_of, next_cut, claimed_at, released, CutStands};
ghost use Rattle.session_state.specs.Expiries.{expiry_of, expiries, AddsAll, AddsSome};
ghost use Rattle.session_state.specs.Sealing.{IsSealable};
ghost use Rattle.session_state.specs.Readings.{IsReading, entry_of, taken_of, event_count, refusal_to};
ghost use Rattle.session_state.specs.declared.state.TickRefusal.{TickRefusal};
ghost use Rattle.session_state.specs.declared.state.AppendError.{AppendError};
ghost use Rattle.session_state.specs.declared.state.CommitRefusal.{CommitRefusal};
ghost use Rattle.session_state.specs.Commits.{Commits, commit_refusal};
ghost use Rattle.sql_texts.specs.Meaning.{meaning};
ghost use Rattle.event_store.specs.Contents.{rows_in};

use crate::computed::{event_rows, time_rows};
use crate::cut::Cut;
use crate::listed::Listed;
use crate::readers::Readers;
use crate::readings::{offset_of, offsets_with, refusal};
use crate::slices::Slices;
use crate::tail::Tail;
use entry_model::entry::{Batch, Entry, EntryList};
use entry_model::restored::{Restored, Run, TakenList};
use event_store::{CutView, EventSlice, Image, SharedRows, Steps};
use osq_value::{Copied, EventList, NoMemory, Reading, RowList, Sequence, Str, TableId, TextList};
use pack_rules::schedule::{Form, Mode, Schedule, Scheduled};
use query_cursors::Cursors;
use std::alloc::Global;
use std::marker::{Brand, Model};
use std::sync::ledger::{Blank, Ledger};
use thiserror::Error;

/// How many entries and sessions a kept list has at most.
const MOST: u64 = (1 << 63) - 1;

/// The greatest number that a batch may have.
const LAST_BATCH: u64 = 1 << 62;

/// The rules of each session that begins: old events wait until each query that reads them has passed them.
const RULES: u32 = 2;

/// Why a tick does not begin.
#[derive(Clone, Copy, Debug, Error)]
pub enum TickRefusal {
    /// The query at this place of the schedule is due.
    #[error("query {at} of the schedule is still due")]
    StillDue { at: u32 },
    /// Events of this table are to expire.
    #[error("events of {table} are still to expire")]
    ExpiryOwed { table: TableId },
    /// Memory was wanting.
    #[error("out of memory")]
    NoMemory,
}

/// Why a reading is not added.
#[derive(Clone, Copy, Debug, Error)]
pub enum AppendError {
    /// The reading ends no further than the source was taken: up to the byte `kept`.
    #[error("reading ends at or before byte {kept}, up to which its source was taken")]
    Backwards { kept: u64 },
    /// The last number would pass 2^62.
    #[error("event numbers are exhausted")]
    NumbersSpent,
    /// Memory was wanting.
    #[error("out of memory")]
    NoMemory,
}

/// Why a cut is not committed. The cut comes back.
#[derive(Debug, Drop, Error)]
pub enum CommitRefusal {
    /// The query's last batch is now the one of this number, which the cut had not seen.
    #[error("cut superseded by batch {number} of its query")]
    Superseded { number: u64, cut: Cut },
    /// A Configured or Ticked entry at this position came behind the cut.
    #[error("cut older than the tick or configuration at position {position}")]
    Stale { position: u64, cut: Cut },
    /// The batch's number would pass 2^62.
    #[error("batch numbers are exhausted")]
    NumbersSpent { cut: Cut },
}

/// What a session has: the values of its list of entries, what it runs, and the entries that are not sealed yet.
#[derive(Drop)]
pub struct State {
    position: u64,
    sessions: u64,
    moment: u64,
    taken: TakenList,
    cursors: Cursors,
    batches: u64,
    acked: u64,
    image: Image,
    /// Slices of the image's events, which cuts share.
    slices: Slices,
    schedule: Schedule,
    ticked: bool,
    /// The places of the session's Configured and Ticked entries.
    marks: Vec<u64>,
    claims: Vec<bool>,
    /// Each query before this place is claimed or not due, so that the next one to cut is looked for from here on.
    from: usize,
    /// The rows of `osquery_schedule`, which cuts share.
    listed: Listed,
    /// The queries of the schedule for which events wait.
    readers: Readers,
    tail: Tail,
}

impl Model for State {
    ghost use Rattle.session_state.specs.Kept.{Kept, IsState};

    ghost Value = { Kept };

    ghost use Rattle.session_state.specs.Inside.{kept};

    ghost view = { kept };

    ghost use Rattle.session_state.specs.Inside.{IsWhole};

    ghost invariant = { IsWhole };
}

/// What a session runs by a schedule.
#[derive(Drop)]
struct Running {
    schedule: Schedule,
    claims: Vec<bool>,
    /// Where each query has its last batch among those of all.
    places: Vec<Option<usize>>,
    listed: Listed,
    readers: Readers,
}

/// Makes room for so many commits, whichever queries they are of.
fn make_room(tail: &mut Tail, cursors: &mut Cursors, commits: u64) -> Result<(), NoMemory>
    ensures tail { OnOk result (tail.new ≡ record tail.old { room = max tail.old.room commits }) }
    ensures cursors { OnOk result (cursors.new ≡ record cursors.old { room = max cursors.old.room commits }) }
    ensures err { OnErr result ((tail.new ≡ tail.old) × (cursors.new ≡ cursors.old)) }
{
    let before = tail.room();
    tail.reserve(commits)?;
    match cursors.reserve(commits) {
        Ok(()) => Ok(()),
        Err(NoMemory) => {
            tail.give_back(tail.room() - before);
            Err(NoMemory)
        }
    }
}

/// No query is claimed any more.
fn forget(claims: &mut [bool])
    ensures { claims.new ≡ replicate (length claims.old) false }
{
    claims.fill(false);
}

/// The query at this place is not claimed any more.
fn unclaim(claims: &mut [bool], place: u32)
    ensures { claims.new ≡ set claims.old place false }
{
    let at = place as usize;
    if at < claims.len() {
        claims[at] = false;
    }
}

/// So many queries, of which none is claimed.
fn unclaimed(alloc: Global, count: usize) -> Result<Vec<bool>, NoMemory>
    ensures { IfOk result (λ claims. claims.items ≡ replicate count false) }
{
    let claims = vec![in alloc; false; count]?;
    Ok(claims)
}

/// The number of a run, 0 where there is none.
fn number_in(run: Option<&Run>) -> u64
    ensures { result ≡ option_map_or (λ run. run.number) (option_copied run.entry) 0 }
{
    match run {
        None => 0,
        Some(run) => run.number,
    }
}

/// The end of a run, 0 where there is none.
fn end_in(run: Option<&Run>) -> u64
    ensures { result ≡ option_map_or (λ run. run.hi) (option_copied run.entry) 0 }
{
    match run {
        None => 0,
        Some(run) => run.hi,
    }
}

/// Above which number the events of a query of this mode are, where its last batch ended there.
fn lower_from(mode: Mode, end: u64) -> u64
    ensures { result ≡ lower_from mode end }
{
    match mode {
        Mode::Evented => end,
        Mode::Snapshot => 0,
    }
}

/// The mark before this place of the list is at the position or behind it.
fn reaches_back(marks: &[u64], at: usize, position: u64) -> bool
    requires { at ≤ length marks.now }
    ensures { IsTrue result ↔ (0 < at) × (position ≤ get_or marks.now (at - 1) 0) }
{
    at > 0 && position <= marks[at - 1]
}

/// The mark at this place of the list, if there is one.
fn mark_at(marks: &[u64], at: usize) -> Option<u64>
    ensures { result ≡ slice_get marks.now at }
{
    marks.get(at).copied()
}

/// The first of rising marks that is at this position or behind it. It is looked for from the back.
fn first_mark(marks: &[u64], position: u64) -> Option<u64>
    requires { IsRising 0 marks.now }
    ensures { result ≡ find (λ mark. nat_le position mark) marks.now }
{
    let mut at = marks.len();
    while reaches_back(marks, at, position) {
        at -= 1;
    }
    mark_at(marks, at)
}

impl State {
    /// Opens a session over these values. The state stands for the entry that opens it.
    ///
    /// A list of 2^63 - 1 entries or sessions, or more, can't go on, which is answered as want of memory.
    ///
    /// ```
    /// let mut state = State::begin(alloc, Restored::empty(alloc))?;
    /// state.last_number()       // 0: there is no event yet
    /// state.batch_count()       // 0
    /// state.take_tail(alloc)?   // the one entry Opened { session: 1, rules: 2 }, which is to be sealed
    /// ```
    pub fn begin(alloc: Global, restored: Restored) -> Result<State, NoMemory>
        requires { Fits restored }
        ensures { IfOk result (λ state. Begins restored state) }
    {
        if restored.position >= MOST || restored.sessions >= MOST {
            return Err(NoMemory);
        }
        let listed = Listed::none(alloc)?;
        let image = Image::restore(alloc, &restored)?;
        image.is_image();
        let session = restored.sessions + 1;
        let mut tail = Tail::new(alloc);
        tail.push(Entry::Opened {
            session,
            rules: RULES,
        })?;
        Ok(State {
            position: restored.position + 1,
            sessions: session,
            moment: restored.moment,
            taken: restored.taken,
            cursors: Cursors::restore(alloc, restored.runs),
            batches: restored.batches,
            acked: restored.acked,
            image,
            slices: Slices::none(alloc),
            schedule: Schedule {
                queries: Sequence::new(alloc),
                events_expiry: 3600,
                events_max: 50000,
                form: Form::Event,
            },
            ticked: false,
            marks: Vec::new(alloc),
            claims: Vec::new(alloc),
            from: 0,
            listed,
            readers: Readers::none(alloc),
            tail,
        })
    }

    /// What is known of every state.
    pub fn is_state(&self)
        ensures { IsState self.now }
    {
        let _position = &self.position;
    }

    /// The moment of the last tick or configuration, in seconds since 1970 UTC, or 0.
    pub fn moment(&self) -> u64
        ensures { result ≡ self.now.counts.moment }
    {
        self.moment
    }

    /// The number of the last event, or 0.
    pub fn last_number(&self) -> u64
        ensures { result ≡ self.now.image.last }
    {
        self.image.last()
    }

    /// How many batches there are.
    pub fn batch_count(&self) -> u64
        ensures { result ≡ self.now.counts.batches }
    {
        self.batches
    }

    /// Up to which number the collector has the batches, or 0.
    pub fn acknowledged(&self) -> u64
        ensures { result ≡ self.now.counts.acked }
    {
        self.acked
    }

    /// The form of the result lines of the present schedule.
    pub fn form(&self) -> Form
        ensures { result ≡ self.now.schedule.form }
    {
        self.schedule.form
    }

    /// The queries of the present schedule.
    pub fn queries(&self) -> &[Scheduled]
        ensures { result.now ≡ self.now.schedule.queries }
    {
        self.schedule.queries.as_slice()
    }

    /// Adds an acknowledgement, and answers whether it did: it does where it is above the last one, and no batch is
    /// acknowledged that there is not.
    pub fn acknowledge(&mut self, upto: u64) -> Result<bool, NoMemory>
        ensures answer { IfOk result (λ done. IsTrue done ↔ (self.old.counts.acked < upto) × (upto ≤ self.old.counts.batches)) }
        ensures added { IfOk result (λ done. MatchBool done (Adds self.old (Acked upto) self.new) (self.new ≡ self.old)) }
        ensures claims { self.new.claims ≡ self.old.claims }
        ensures err { OnErr result (self.new ≡ self.old) }
    {
        if upto <= self.acked || self.batches < upto {
            return Ok(false);
        }
        if self.position + self.tail.room() >= MOST {
            return Err(NoMemory);
        }
        self.tail.push(Entry::Acked { upto })?;
        self.position += 1;
        self.acked = upto;
        Ok(true)
    }

    /// Up to which number each query that reads the evented table has read; where none does, up to the last event. It takes a
    /// step for each such query.
    fn reached(&self, table: TableId) -> u64
        requires { is_evented_table table.0 ≡ true }
        ensures { result ≡ reached_at self.now table.0 }
    {
        self.cursors
            .reached(self.readers.at(table), self.image.last())
    }

    /// Up to which number the events of an evented table are to expire at the present tick.
    fn owed(&self, table: TableId) -> Option<u64>
        requires { is_evented_table table.0 ≡ true }
        ensures owed { result ≡ owed_at self.now table.0 }
        ensures moves { IfSome result (λ floor. (floor_at self.now.image table.0 < floor) × (floor ≤ self.now.image.last)) }
    {
        if !self.ticked {
            return None;
        }
        let expiry = self.schedule.events_expiry;
        let most = self.schedule.events_max;
        let reached = self.reached(table);
        self.image
            .floor_owed(table, expiry, most, self.moment, reached)
    }

    /// The place of the first query that is due at the present tick.
    fn due(&self) -> Option<u32>
        ensures { result ≡ first_due self.now }
    {
        if !self.ticked {
            return None;
        }
        self.cursors.first_due(&self.schedule, self.moment)
    }

    /// What keeps a tick from beginning.
    fn held_back(&self) -> Option<TickRefusal>
        ensures { result ≡ held_back_by self.now }
    {
        if let Some(at) = self.due() {
            return Some(TickRefusal::StillDue { at });
        }
        let table = if self.owed(TableId::PROCESS_EVENTS).is_some() {
            TableId::PROCESS_EVENTS
        } else if self.owed(TableId::SOCKET_EVENTS).is_some() {
            TableId::SOCKET_EVENTS
        } else if self.owed(TableId::FILE_EVENTS).is_some() {
            TableId::FILE_EVENTS
        } else {
            return None;
        };
        Some(TickRefusal::ExpiryOwed { table })
    }

    /// Begins a tick, at this moment or at the last one, whichever is later, and forgets all claims. It does not begin
    /// while a query of the last tick is due, or events are to expire.
    /// The moment is in seconds since 1970 UTC. The refusal has the place of the due query, or the table whose events are to expire.
    pub fn tick(&mut self, moment: u64) -> Result<(), TickRefusal>
        requires { moment ≤ LAST_MOMENT }
        ensures ticked { OnOk result (Adds self.old (Ticked (max moment self.old.counts.moment)) self.new) }
        ensures claims { OnOk result (self.new.claims ≡ replicate (length self.old.claims) false) }
        ensures refused { (refusal : TickRefusal) → held_back_by self.old ≡ Some refusal → result ≡ Err refusal }
        ensures held_back { IfErr result (λ refusal. (refusal ≡ TickRefusal.NoMemory) ⊎ (held_back_by self.old ≡ Some refusal)) }
        ensures err { OnErr result (self.new ≡ self.old) }
    {
        if let Some(refusal) = self.held_back() {
            return Err(refusal);
        }
        match self.begin_tick(moment.max(self.moment)) {
            Ok(()) => Ok(()),
            Err(NoMemory) => Err(TickRefusal::NoMemory),
        }
    }

    /// Adds a tick at this moment.
    fn begin_tick(&mut self, moment: u64) -> Result<(), NoMemory>
        requires calendar { moment ≤ LAST_MOMENT }
        requires free { held_back_by self.old ≡ None }
        requires later { self.old.counts.moment ≤ moment }
        ensures ticked { OnOk result (Adds self.old (Ticked moment) self.new) }
        ensures claims { OnOk result (self.new.claims ≡ replicate (length self.old.claims) false) }
        ensures err { OnErr result (self.new ≡ self.old) }
    {
        let queries = self.schedule.queries.len() as u64;
        if self.position + self.tail.room().max(queries) >= MOST {
            return Err(NoMemory);
        }
        self.marks.reserve(1)?;
        self.tail.push(Entry::Ticked { moment })?;
        let Ok(()) = make_room(&mut self.tail, &mut self.cursors, queries) else {
            self.tail.pop();
            return Err(NoMemory);
        };
        self.marks.push_reserved(self.position);
        forget(self.claims.as_mut_slice());
        self.from = 0;
        self.position += 1;
        self.moment = moment;
        self.ticked = true;
        Ok(())
    }

    /// Runs this schedule from now on, at this moment or at the last one, whichever is later, and forgets all claims.
    pub fn configure(
        &mut self,
        alloc: Global,
        document: TextList,
        schedule: Schedule,
        moment: u64,
    ) -> Result<(), NoMemory>
        requires sound { IsSound schedule }
        requires calendar { moment ≤ LAST_MOMENT }
        ensures configured { OnOk result (Adds self.old (Configured document schedule (max moment self.old.counts.moment)) self.new) }
        ensures claims { OnOk result (self.new.claims ≡ replicate (length schedule.queries) false) }
        ensures err { OnErr result (self.new ≡ self.old) }
    {
        let queries = schedule.queries.len() as u64;
        if self.position + self.tail.room().max(queries) >= MOST {
            return Err(NoMemory);
        }
        let moment = moment.max(self.moment);
        let running = self.running_by(alloc, &schedule)?;
        self.marks.reserve(1)?;
        self.tail.push(Entry::Configured {
            document,
            schedule,
            moment,
        })?;
        let Ok(()) = make_room(&mut self.tail, &mut self.cursors, queries) else {
            self.tail.pop();
            return Err(NoMemory);
        };
        self.marks.push_reserved(self.position);
        self.claims = running.claims;
        self.from = 0;
        self.listed = running.listed;
        self.readers = running.readers;
        self.cursors.set_places(running.places);
        self.schedule = running.schedule;
        self.position += 1;
        self.moment = moment;
        Ok(())
    }

    /// What the session is to run by this schedule, of which no query is claimed.
    fn running_by(&self, alloc: Global, schedule: &Schedule) -> Result<Running, NoMemory>
        requires { IsSound schedule.now }
        ensures schedule { IfOk result (λ running. running.schedule ≡ schedule.now) }
        ensures claims { IfOk result (λ running. running.claims.items ≡ replicate (length schedule.now.queries) false) }
        ensures places { IfOk result (λ running. running.places.items ≡ places_of self.now.counts.runs schedule.now.queries) }
        ensures listed { IfOk result (λ running. AreFresh (schedule_shown self.now.counts.runs schedule.now.queries) running.listed) }
        ensures readers { IfOk result (λ running. running.readers ≡ readers_of schedule.now.queries) }
    {
        let kept = schedule.copy(alloc)?;
        let claims = unclaimed(alloc, kept.queries.len())?;
        let queries = kept.queries.as_slice();
        let places = self.cursors.find_places(alloc, queries)?;
        let listed = Listed::of(alloc, queries, &self.cursors, places.as_slice())?;
        let readers = Readers::of(alloc, queries)?;
        Ok(Running {
            schedule: kept,
            claims,
            places,
            listed,
            readers,
        })
    }

    /// Takes the entries off that were added since the last time, to be sealed. The state stands for the same list.
    pub fn take_tail(&mut self, alloc: Global) -> Result<EntryList, NoMemory>
        ensures taken { IfOk result (λ taken. taken ≡ self.old.tail) }
        ensures sealable { IfOk result (All IsSealable) }
        ensures ok { OnOk result (self.new ≡ record self.old { tail = [] }) }
        ensures cuts { (cut : CutValue) → IsCutOf self.old cut → IsCutOf self.new cut }
        ensures err { OnErr result (self.new ≡ self.old) }
    {
        self.tail.take(alloc)
    }

    /// Adds a reading of the source, all of it or nothing, and answers the last number before and after.
    /// Backwards with the source's offset where the reading ends no further than that; NumbersSpent where the last number would pass 2^62.
    /// Each event is a step.
    pub fn append<L: Ledger>(
        &mut self,
        alloc: Global,
        source: &Str,
        reading: Reading,
        steps: &mut Steps<L>,
    ) -> Result<(u64, u64), AppendError>
        requires { IsReading reading }
        ensures all { OnOk result (steps.new ≡ steps.old + event_count reading) }
        ensures most { steps.new ≤ steps.old + event_count reading }
        ensures added { OnOk result (Adds self.old (entry_of source.now self.old.counts.moment reading) self.new) }
        ensures numbers { IfOk result (λ numbers. numbers ≡ (self.old.image.last, self.new.image.last)) }
        ensures claims { self.new.claims ≡ self.old.claims }
        ensures backwards { (kept : ℕ) → (result ≡ Err (AppendError.Backwards kept)) ↔ (kept ≡ offset_at self.old.counts.taken source.now) × (taken_of reading ≤ kept) }
        ensures spent { (result ≡ Err AppendError.NumbersSpent) ↔ (offset_at self.old.counts.taken source.now < taken_of reading) × (2 ^ 62 < self.old.image.last + event_count reading) }
        ensures err { OnErr result (self.new ≡ self.old) }
    {
        self.image.is_image();
        if let Some(refusal) = self.refuses(source, &reading) {
            return Err(refusal);
        }
        match self.add_reading(alloc, source, reading, steps) {
            Ok(numbers) => Ok(numbers),
            Err(NoMemory) => Err(AppendError::NoMemory),
        }
    }

    /// Why the reading may not be added.
    fn refuses(&self, source: &Str, reading: &Reading) -> Option<AppendError>
        requires { self.now.image.last ≤ 2 ^ 62 }
        ensures { result ≡ refusal_to (offset_at self.now.counts.taken source.now) self.now.image.last reading.now }
    {
        let kept = offset_of(self.taken.as_slice(), source);
        match reading {
            Reading::Events {
                taken,
                events,
                skipped: _,
            } => refusal(kept, *taken, self.image.last(), events.len() as u64),
            Reading::Table {
                taken,
                table: _,
                rows: _,
            } => refusal(kept, *taken, self.image.last(), 0),
        }
    }

    /// Adds a reading that may be added.
    fn add_reading<L: Ledger>(
        &mut self,
        alloc: Global,
        source: &Str,
        reading: Reading,
        steps: &mut Steps<L>,
    ) -> Result<(u64, u64), NoMemory>
        requires reading { IsReading reading }
        requires free { refusal_to (offset_at self.old.counts.taken source.now) self.old.image.last reading ≡ None }
        ensures all { OnOk result (steps.new ≡ steps.old + event_count reading) }
        ensures most { steps.new ≤ steps.old + event_count reading }
        ensures added { OnOk result (Adds self.old (entry_of source.now self.old.counts.moment reading) self.new) }
        ensures numbers { IfOk result (λ numbers. numbers ≡ (self.old.image.last, self.new.image.last)) }
        ensures claims { self.new.claims ≡ self.old.claims }
        ensures err { OnErr result (self.new ≡ self.old) }
    {
        match reading {
            Reading::Events {
                taken,
                events,
                skipped,
            } => self.add_events(alloc, source, taken, events, skipped, steps),
            Reading::Table { taken, table, rows } => {
                self.add_table(alloc, source, taken, table, rows)
            }
        }
    }

    fn add_events<L: Ledger>(
        &mut self,
        alloc: Global,
        source: &Str,
        taken: u64,
        events: EventList,
        skipped: u64,
        steps: &mut Steps<L>,
    ) -> Result<(u64, u64), NoMemory>
        requires events { All IsEvent events }
        requires forwards { offset_at self.old.counts.taken source.now < taken }
        requires numbers { self.old.image.last + length events ≤ 2 ^ 62 }
        ensures all { OnOk result (steps.new ≡ steps.old + length events) }
        ensures most { steps.new ≤ steps.old + length events }
        ensures added { OnOk result (Adds self.old (Appended source.now taken events skipped self.old.counts.moment) self.new) }
        ensures numbers { IfOk result (λ numbers. numbers ≡ (self.old.image.last, self.new.image.last)) }
        ensures claims { self.new.claims ≡ self.old.claims }
        ensures err { OnErr result (self.new ≡ self.old) }
    {
        if self.position + self.tail.room() >= MOST {
            return Err(NoMemory);
        }
        let stored = events.copy(alloc)?;
        let offsets = offsets_with(alloc, self.taken.as_slice(), source, taken)?;
        self.tail.push(Entry::Appended {
            source: source.copy(alloc)?,
            taken,
            events,
            skipped,
            moment: self.moment,
        })?;
        let Ok(numbers) = self.image.append(stored, self.moment, steps) else {
            self.tail.pop();
            return Err(NoMemory);
        };
        self.image.is_image();
        self.slices.forget();
        self.taken = offsets;
        self.position += 1;
        Ok(numbers)
    }

    fn add_table(
        &mut self,
        alloc: Global,
        source: &Str,
        taken: u64,
        table: TableId,
        rows: RowList,
    ) -> Result<(u64, u64), NoMemory>
        requires recorded { is_recorded_table table.0 ≡ true }
        requires wide { AreWide (width_of table.0) rows }
        requires forwards { offset_at self.old.counts.taken source.now < taken }
        ensures added { OnOk result (Adds self.old (TableSet source.now table rows taken) self.new) }
        ensures numbers { IfOk result (λ numbers. numbers ≡ (self.old.image.last, self.new.image.last)) }
        ensures claims { self.new.claims ≡ self.old.claims }
        ensures err { OnErr result (self.new ≡ self.old) }
    {
        if self.position + self.tail.room() >= MOST {
            return Err(NoMemory);
        }
        let stored = rows.copy(alloc)?;
        let offsets = offsets_with(alloc, self.taken.as_slice(), source, taken)?;
        self.tail.push(Entry::TableSet {
            source: source.copy(alloc)?,
            table,
            rows,
            taken,
        })?;
        let Ok(()) = self.image.set_table(alloc, table, stored) else {
            self.tail.pop();
            return Err(NoMemory);
        };
        self.image.is_image();
        self.taken = offsets;
        self.position += 1;
        let last = self.image.last();
        Ok((last, last))
    }

    /// Adds an expiry for each evented table of which events are to expire at the present tick, in the order of the
    /// catalogue, all of them or none, and answers how many.
    pub fn expire(&mut self) -> Result<u32, NoMemory>
        ensures expired { OnOk result (AddsAll self.old (expiries self.old) self.new) }
        ensures count { IfOk result (λ count. count ≡ length (expiries self.old)) }
        ensures claims { self.new.claims ≡ self.old.claims }
        ensures room { (self.new.tail_room ≡ self.old.tail_room) × (self.new.run_room ≡ self.old.run_room) }
        ensures err { OnErr result (self.new ≡ self.old) }
    {
        if self.position + self.tail.room() >= MOST - 3 {
            return Err(NoMemory);
        }
        self.tail.reserve_more(3)?;
        let first = self.expire_table(TableId::PROCESS_EVENTS);
        let second = self.expire_table(TableId::SOCKET_EVENTS);
        let third = self.expire_table(TableId::FILE_EVENTS);
        let count = first + second + third;
        self.tail.give_back(u64::from(3 - count));
        Ok(count)
    }

    /// Adds the expiry of a table where events of it are to expire, for which there is room beside that of commits, and
    /// answers how many it added.
    fn expire_table(&mut self, table: TableId) -> u32
        requires evented { is_evented_table table.0 ≡ true }
        requires room { due_count self.old < self.old.tail_room }
        ensures expired { AddsSome self.old (expiry_of self.old table.0) self.new }
        ensures count { result ≡ length (cons_option (expiry_of self.old table.0) []) }
        ensures one { result ≤ 1 }
        ensures room { self.new.tail_room + result ≡ self.old.tail_room }
        ensures due { due_count self.new ≡ due_count self.old }
        ensures same { (self.new.claims ≡ self.old.claims) × (self.new.run_room ≡ self.old.run_room) }
    {
        let Some(floor) = self.owed(table) else {
            return 0;
        };
        self.image.expire(table, floor);
        self.image.is_image();
        self.slices.forget();
        self.tail.put(Entry::Expired {
            table,
            floor,
            moment: self.moment,
        });
        self.position += 1;
        1
    }

    /// What a query sees at this moment: these events, and all other tables.
    fn view_with<L: Ledger>(
        &self,
        alloc: Global,
        slice: EventSlice,
        moment: u64,
        steps: &mut Steps<L>,
    ) -> Result<CutView, NoMemory>
        requires calendar { moment ≤ LAST_MOMENT }
        requires slice { IsSliceOf self.now.image slice }
        ensures view { IfOk result (λ view. view ≡ shown_by self.now slice.above moment) }
        ensures cost { steps.new ≤ steps.old + 9 }
    {
        let mut view = self.image.view(alloc, slice, steps)?;
        let time = SharedRows::of(alloc, time_rows(alloc, moment)?)?;
        view.set_computed(TableId::TIME, time);
        let queries = self.schedule.queries.as_slice();
        let schedule = self.listed.shown(alloc, queries, &self.cursors)?;
        view.set_parts(TableId::OSQUERY_SCHEDULE, schedule);
        let events = SharedRows::of(alloc, event_rows(alloc, &self.image)?)?;
        view.set_computed(TableId::OSQUERY_EVENTS, events);
        Ok(view)
    }

    /// What a query sees at this moment, with steps that nobody counts.
    fn view_of<L: Ledger>(
        &self,
        alloc: Global,
        above: u64,
        moment: u64,
        blank: Blank,
    ) -> Result<CutView, NoMemory>
        requires calendar { moment ≤ LAST_MOMENT }
        requires name { blank.name ≡ L.name }
        requires parts { blank.parts ≡ L.parts }
        requires some { 0 < blank.parts }
        ensures { IfOk result (λ view. view ≡ shown_by self.now above moment) }
    {
        let mut steps = Steps::<L>::new(blank);
        let slice = self.image.events_above(alloc, above, &mut steps)?;
        self.view_with(alloc, slice, moment, &mut steps)
    }

    /// What a query sees at this moment: of the events those above this number, and all other tables.
    pub fn view_above(&self, alloc: Global, above: u64, moment: u64) -> Result<CutView, NoMemory>
        requires { moment ≤ LAST_MOMENT }
        ensures { IfOk result (λ view. view ≡ shown_by self.now above moment) }
    {
        self.view_of::<Brand>(alloc, above, moment, Blank::new(1))
    }

    /// What a query sees at this moment where no event is new to it.
    pub fn tables_view(&self, alloc: Global, moment: u64) -> Result<CutView, NoMemory>
        requires { moment ≤ LAST_MOMENT }
        ensures { IfOk result (λ view. view ≡ shown_by self.now self.now.image.last moment) }
    {
        self.view_above(alloc, self.image.last(), moment)
    }

    /// The place of the query that is cut next.
    fn next(&self) -> Option<u32>
        ensures place { result ≡ next_place self.now }
        ensures within { IfSome result (λ place. place < length self.now.schedule.queries) }
    {
        if !self.ticked {
            return None;
        }
        self.cursors.next_due(
            &self.schedule,
            self.claims.as_slice(),
            self.from,
            self.moment,
        )
    }

    /// Above which number the events are that the query at this place of the schedule sees.
    fn lower_bound(&self, place: u32) -> u64
        requires { place < length self.now.schedule.queries }
        ensures { bound_at self.now place ≡ Some result }
    {
        let mode = self.schedule.queries.as_slice()[place as usize].key.mode;
        let end = end_in(self.cursors.placed_run(place as usize));
        lower_from(mode, end)
    }

    /// The cut of the query at this place of the schedule, which sees these events.
    fn cut_of<L: Ledger>(
        &self,
        alloc: Global,
        place: u32,
        slice: EventSlice,
        steps: &mut Steps<L>,
    ) -> Result<Cut, NoMemory>
        requires place { place < length self.now.schedule.queries }
        requires lower { bound_at self.now place ≡ Some slice.above }
        requires slice { IsSliceOf self.now.image slice }
        ensures cut { IfOk result (λ cut. Some cut ≡ option_map (cut_of self.now place) (slice_get self.now.schedule.queries place)) }
        ensures cost { steps.new ≤ steps.old + 9 }
    {
        let key = &self.schedule.queries.as_slice()[place as usize].key;
        let last = number_in(self.cursors.placed_run(place as usize));
        let lo = slice.above();
        Ok(Cut {
            place,
            key: key.copy(alloc)?,
            spare: key.copy(alloc)?,
            lo,
            hi: self.image.last(),
            position: self.position,
            moment: self.moment,
            last,
            view: self.view_with(alloc, slice, self.moment, steps)?,
        })
    }

    /// The cut of the query at this place of the schedule, with a slice that is shared with other cuts.
    fn cut_at<L: Ledger>(
        &mut self,
        alloc: Global,
        place: u32,
        steps: &mut Steps<L>,
    ) -> Result<Cut, NoMemory>
        requires { place < length self.old.schedule.queries }
        ensures same { self.new ≡ self.old }
        ensures cut { IfOk result (λ cut. Some cut ≡ option_map (cut_of self.old place) (slice_get self.old.schedule.queries place)) }
        ensures cost { IfSome (option_map (cut_of self.old place) (slice_get self.old.schedule.queries place)) (λ cut. steps.new ≤ steps.old + slice_cost cut.lo self.old.image) }
    {
        let lo = self.lower_bound(place);
        let slice = self.slices.above(alloc, &self.image, lo, steps)?;
        self.cut_of(alloc, place, slice, steps)
    }

    /// Makes the rows of `osquery_schedule` anew that commits have made stale, so that cuts share all of them.
    fn renew_listed(&mut self, alloc: Global) -> Result<(), NoMemory>
        ensures { self.new ≡ self.old }
    {
        let queries = self.schedule.queries.as_slice();
        self.listed.renew(alloc, queries, &self.cursors)
    }

    /// Claims the first due query that is not claimed, or where each one is the first due one, and gives its cut: what it
    /// sees now. No entry is added. Each part that is shared and each event that is copied is a step.
    pub fn claim_cut<L: Ledger>(
        &mut self,
        alloc: Global,
        steps: &mut Steps<L>,
    ) -> Result<Option<Cut>, NoMemory>
        ensures cost { MatchOption (next_cut self.old) (steps.new ≡ steps.old) (λ cut. steps.new ≤ steps.old + slice_cost cut.lo self.old.image) }
        ensures cut { IfOk result (λ given. given ≡ next_cut self.old) }
        ensures none { (result ≡ Ok None) ↔ (first_due self.old ≡ None) }
        ensures claimed { OnOk result (self.new ≡ claimed_at self.old (next_place self.old)) }
        ensures own { IfOk result (λ given. IfSome given (IsCutOf self.new)) }
        ensures stands { IfOk result (λ given. IfSome given (λ cut. (base : Restored) (added : List Entry) → IsStateOf base added self.old → CutStands base added cut)) }
        ensures cuts { (cut : CutValue) → IsCutOf self.old cut → IsCutOf self.new cut }
        ensures err { OnErr result (self.new ≡ self.old) }
    {
        self.is_state();
        let Some(place) = self.next() else {
            return Ok(None);
        };
        if self.renew_listed(alloc).is_err() {
            return Err(NoMemory);
        }
        let Ok(cut) = self.cut_at(alloc, place, steps) else {
            return Err(NoMemory);
        };
        self.claims[place as usize] = true;
        self.from = place as usize + 1;
        Ok(Some(cut))
    }

    /// The first Configured or Ticked entry of the session from this position on, in as many steps as there are such
    /// entries behind it.
    fn mark_from(&self, position: u64) -> Option<u64>
        ensures { result ≡ mark_from self.now position }
    {
        first_mark(self.marks.as_slice(), position)
    }

    /// Gives a cut back: its query is not claimed any more, where nothing has forgotten the claim. It takes no memory.
    pub fn release(&mut self, cut: Cut)
        ensures released { self.new ≡ released self.old cut }
        ensures cuts { (other : CutValue) → IsCutOf self.old other → IsCutOf self.new other }
    {
        if self.mark_from(cut.position()).is_none() {
            let place = cut.place();
            unclaim(self.claims.as_mut_slice(), place);
            self.from = self.from.min(place as usize);
        }
    }

    /// Adds the batch that answers a cut by these rows, under the next number, and answers the number. A cut that was made
    /// before the query's last batch is refused, and so is one that a Configured or Ticked entry came behind. It takes no
    /// memory.
    ///
    /// Superseded with the number of the later batch; Stale with the position of that entry; NumbersSpent where the number would pass 2^62.
    /// Each gives the cut back.
    pub fn commit(&mut self, cut: Cut, rows: RowList) -> Result<u64, CommitRefusal>
        requires cut { IsCutOf self.old cut }
        requires rows { rows ≡ meaning cut.key.text (rows_in cut.view) }
        ensures number { IfOk result (λ number. number ≡ self.old.counts.batches + 1) }
        ensures committed { OnOk result (Commits self.old cut rows self.new) }
        ensures claims { OnOk result (self.new.claims ≡ set self.old.claims cut.place false) }
        ensures refused { (refusal : CommitRefusal) → (result ≡ Err refusal) ↔ (commit_refusal self.old cut ≡ Some refusal) }
        ensures err { OnErr result (self.new ≡ self.old) }
    {
        let queries = self.schedule.queries.as_slice();
        let number = self
            .cursors
            .number_at(queries, cut.place() as usize, cut.key());
        if number != cut.last() {
            return Err(CommitRefusal::Superseded { number, cut });
        }
        if let Some(position) = self.mark_from(cut.position()) {
            return Err(CommitRefusal::Stale { position, cut });
        }
        if self.batches >= LAST_BATCH {
            return Err(CommitRefusal::NumbersSpent { cut });
        }
        Ok(self.add_batch(cut, rows))
    }

    /// Adds the batch of a cut that nothing keeps from being committed, for which there is room, and answers its number.
    fn add_batch(&mut self, cut: Cut, rows: RowList) -> u64
        requires cut { IsCutOf self.old cut }
        requires free { commit_refusal self.old cut ≡ None }
        requires rows { rows ≡ meaning cut.key.text (rows_in cut.view) }
        ensures number { result ≡ self.old.counts.batches + 1 }
        ensures committed { Commits self.old cut rows self.new }
        ensures claims { self.new.claims ≡ set self.old.claims cut.place false }
    {
        let number = self.batches + 1;
        let Cut {
            place,
            key,
            spare,
            lo,
            hi,
            position,
            moment,
            last: _,
            view: _,
        } = cut;
        self.cursors.record_commit(place, spare, number, hi, moment);
        self.listed.outdate(place);
        unclaim(self.claims.as_mut_slice(), place);
        self.tail.put(Entry::Committed {
            batch: Batch {
                number,
                query: key,
                lo,
                hi,
                cut: position,
                moment,
                rows,
            },
        });
        self.batches = number;
        self.position += 1;
        number
    }
}
