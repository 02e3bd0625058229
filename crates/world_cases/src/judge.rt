//! Whether a kept list is one that sessions may leave, as far as it is told here: by a walk over its entries.

use batch_frames::{Frame, encode_frame};
use entry_model::entry::{Batch, Entry};
use osq_value::{Bytes, Copied, EventList, NoMemory, Str, TextList};
use std::alloc::Global;

/// The names of hosts.
#[derive(Clone, Copy)]
pub(crate) enum Name {
    /// The first.
    First,
    /// The second.
    Second,
}

impl Name {
    /// The name as a text.
    pub(crate) fn as_str(self) -> &'static str {
        match self {
            Name::First => "h1",
            Name::Second => "h2",
        }
    }
}

/// What the entries so far come to, and the frames of their batches.
#[derive(Drop)]
pub(crate) struct Judge {
    host: Name,
    entries: usize,
    sessions: u64,
    moment: u64,
    events: u64,
    /// Where the last slice of the evented query ends.
    cursor: u64,
    /// What is acknowledged.
    pub(crate) acked: u64,
    /// The frames of the batches, by their numbers from 1.
    pub(crate) frames: Vec<Bytes>,
}

/// The columns of a query's rows.
fn columns_of(query: &str) -> &'static [&'static str] {
    match query {
        "fe" => &["target_path", "action"],
        _ => &["one"],
    }
}

/// The names of the columns of a query's rows.
fn names_of(alloc: Global, query: &str) -> Result<TextList, NoMemory> {
    let mut names = TextList::new(alloc);
    for column in columns_of(query) {
        names.push(Str::of(alloc, *column)?)?;
    }
    Ok(names)
}

/// The frame of a batch, with the names of its rows' columns.
fn frame_of(alloc: Global, host: &str, batch: &Batch) -> Result<Frame, NoMemory> {
    Ok(Frame {
        host: Str::of(alloc, host)?,
        batch: batch.copy(alloc)?,
        names: names_of(alloc, batch.query.name.as_str())?,
    })
}

/// The text of a frame. None where it isn't valid.
fn text_of(alloc: Global, frame: &Frame) -> Result<Option<Bytes>, NoMemory> {
    if frame.is_valid() {
        Ok(Some(encode_frame(alloc, frame)?))
    } else {
        Ok(None)
    }
}

impl Judge {
    /// Judges a list of this host, which is empty yet.
    pub(crate) fn new(alloc: Global, host: Name) -> Judge {
        Judge {
            host,
            entries: 0,
            sessions: 0,
            moment: 0,
            events: 0,
            cursor: 0,
            acked: 0,
            frames: Vec::new(alloc),
        }
    }

    fn opens(&mut self, session: u64, rules: u32) -> bool {
        self.sessions = self.sessions.saturating_add(1);
        session == self.sessions && rules == 2
    }

    fn begins(&mut self, moment: u64) -> bool {
        let rises = self.moment <= moment;
        self.moment = moment;
        rises
    }

    fn appends(&mut self, events: &EventList, moment: u64) -> bool {
        self.events = self.events.saturating_add(events.len() as u64);
        moment == self.moment
    }

    fn acknowledges(&mut self, upto: u64) -> bool {
        let moves = self.acked < upto && upto <= self.frames.len() as u64;
        self.acked = upto;
        moves
    }

    /// The slice of a batch begins where the one before ends, or at the first event, and has all events; each is a row of the evented query.
    fn has_slice(&mut self, batch: &Batch) -> bool {
        if batch.query.name.as_str() != "fe" {
            return batch.lo == 0 && batch.rows.len() == 1;
        }
        let begins = batch.lo == self.cursor;
        self.cursor = batch.hi;
        begins && batch.rows.len() as u64 == batch.hi.saturating_sub(batch.lo)
    }

    /// Adds the frame of a batch, and answers whether it has one.
    fn has_text(&mut self, alloc: Global, batch: &Batch) -> Result<bool, NoMemory> {
        let frame = frame_of(alloc, self.host.as_str(), batch)?;
        match text_of(alloc, &frame)? {
            Some(text) => {
                self.frames.push(text)?;
                Ok(true)
            }
            None => Ok(false),
        }
    }

    fn commits(&mut self, alloc: Global, batch: &Batch) -> Result<bool, NoMemory> {
        let is_next = batch.number == (self.frames.len() as u64).saturating_add(1);
        let is_cut_here = batch.cut == self.entries as u64 && batch.moment == self.moment;
        let has_slice = self.has_slice(batch) && batch.hi == self.events;
        let has_text = self.has_text(alloc, batch)?;
        Ok(is_next && is_cut_here && has_slice && has_text)
    }

    /// Whether the entry may stand behind those before it.
    fn takes(&mut self, alloc: Global, entry: &Entry) -> Result<bool, NoMemory> {
        match entry {
            Entry::Opened { session, rules } => Ok(self.opens(*session, *rules)),
            Entry::Configured {
                document: _,
                schedule: _,
                moment,
            } => Ok(self.begins(*moment)),
            Entry::Ticked { moment } => Ok(self.begins(*moment)),
            Entry::Appended {
                source: _,
                taken: _,
                events,
                skipped: _,
                moment,
            } => Ok(self.appends(events, *moment)),
            Entry::Committed { batch } => self.commits(alloc, batch),
            Entry::Acked { upto } => Ok(self.acknowledges(*upto)),
            _ => Ok(false),
        }
    }

    /// Whether each entry that came in may stand behind those before it, and none is gone.
    pub(crate) fn takes_all(&mut self, alloc: Global, entries: &[Entry]) -> Result<bool, NoMemory> {
        let mut is_legal = self.entries <= entries.len();
        for entry in entries.iter().skip(self.entries) {
            is_legal = self.takes(alloc, entry)? && is_legal;
            self.entries = self.entries.saturating_add(1);
        }
        Ok(is_legal)
    }

    /// Whether this is the frame of one of the batches.
    pub(crate) fn has_frame(&self, frame: &[u8]) -> bool {
        self.frames.iter().any(|own| own.as_slice() == frame)
    }

    /// Whether each of these is the frame of one of the batches.
    pub(crate) fn has_frames(&self, frames: &[Bytes]) -> bool {
        frames.iter().all(|frame| self.has_frame(frame.as_slice()))
    }

    /// Whether this is the frame of the batch behind so many.
    pub(crate) fn is_next(&self, recorded: usize, frame: &[u8]) -> bool {
        match self.frames.get(recorded) {
            Some(own) => own.as_slice() == frame,
            None => false,
        }
    }
}
