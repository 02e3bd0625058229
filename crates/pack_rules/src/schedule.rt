//! The queries that a session runs.

ghost use Rattle.std.specs.Prelude.{◌≡◌};
ghost use Rattle.pack_rules.specs.Keys.{same_mode, same_key};

use osq_value::{Copied, NoMemory, Sequence, Str};
use sql_texts::QueryText;
use std::alloc::Global;

/// How a query reads the evented tables.
#[derive(Clone, Copy)]
pub enum Mode {
    /// Its slice of the events, each event once.
    Evented,
    /// All that is live.
    Snapshot,
}

impl Mode {
    /// The two are one mode.
    pub fn is(self, other: Mode) -> bool
        ensures { result ≡ same_mode self other }
    {
        match (self, other) {
            (Mode::Evented, Mode::Evented) | (Mode::Snapshot, Mode::Snapshot) => true,
            _ => false,
        }
    }
}

/// What a query is known by.
#[derive(Drop)]
pub struct QueryKey {
    /// Its name in the schedule, with the pack's name before it where it is one of a pack.
    pub name: Str,
    /// The text as the configuration has it, byte by byte. Copies share what was made of it where it was accepted.
    pub text: QueryText,
    /// Whether it is asked for what new events add, or for the whole answer.
    pub mode: Mode,
}

impl QueryKey {
    /// A key whose text was only read.
    pub fn read(name: Str, text: Str, mode: Mode) -> QueryKey
        ensures { result ≡ record { name = name; text = text; mode = mode } }
    {
        QueryKey {
            name,
            text: QueryText::read(text),
            mode,
        }
    }

    /// The two are keys of one query.
    pub fn is(&self, other: &QueryKey) -> bool
        ensures { result ≡ same_key self.now other.now }
    {
        self.name.is(&other.name) && self.text.is(&other.text) && self.mode.is(other.mode)
    }
}

impl Copied for QueryKey {
    fn copy(&self, alloc: Global) -> Result<Self, NoMemory> {
        Ok(QueryKey {
            name: self.name.copy(alloc)?,
            text: self.text.copy(alloc)?,
            mode: self.mode,
        })
    }
}

/// A query, and how many seconds lie between its batches.
#[derive(Drop)]
pub struct Scheduled {
    /// What the query is known by.
    pub key: QueryKey,
    /// Seconds between two of its batches, from 1 to 604800.
    pub interval: u64,
}

impl Copied for Scheduled {
    fn copy(&self, alloc: Global) -> Result<Self, NoMemory> {
        Ok(Scheduled {
            key: self.key.copy(alloc)?,
            interval: self.interval,
        })
    }
}

/// Queries with their intervals, in byte order of their names.
pub type ScheduledList = Sequence<Scheduled>;

/// The form of result lines.
#[derive(Clone, Copy)]
pub enum Form {
    /// A line for each row.
    Event,
    /// A line for all rows of a batch that has some.
    Batch,
}

/// What a session runs, and how long it keeps events.
#[derive(Drop)]
pub struct Schedule {
    /// The queries, no two of one name.
    pub queries: ScheduledList,
    /// Seconds after which an event may expire, from 1 to 4294967295.
    pub events_expiry: u64,
    /// How many events of a table are kept, from 1 to 1000000.
    pub events_max: u64,
    /// The form of the result lines of evented queries.
    pub form: Form,
}

impl Copied for Schedule {
    fn copy(&self, alloc: Global) -> Result<Self, NoMemory> {
        Ok(Schedule {
            queries: self.queries.copy(alloc)?,
            events_expiry: self.events_expiry,
            events_max: self.events_max,
            form: self.form,
        })
    }
}
