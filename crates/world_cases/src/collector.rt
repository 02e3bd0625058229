//! A collector.

use crate::counts::{Counts, add_if};
use crate::delivery::delivered;
use crate::memory::{clear_sinks, copied, one_file, one_source};
use crate::numbers::{below, once_in, some_call};
use crate::outside::{Memory, run};
use osq_outside::MemorySink;
use osq_value::{Bytes, NoMemory};
use rand_pcg::Pcg32;
use std::alloc::Global;
use std::str;

const WORDS: [&str; 5] = ["collect", "--frames", "f", "--ledger", "l"];

/// A collector with its ledger's file.
#[derive(Drop)]
pub(crate) struct Collector {
    /// The ledger's file.
    pub(crate) file: Bytes,
    /// How many lines of it may have been cut off.
    pub(crate) tears: usize,
}

/// Counts an answer by its kind.
fn count_answer(counts: &mut Counts, line: &str) {
    add_if(
        &mut counts.repeats,
        line.starts_with("{\"answer\":\"repeat\""),
    );
    add_if(&mut counts.gaps, line.starts_with("{\"answer\":\"gap\""));
    add_if(&mut counts.bad, line.starts_with("{\"answer\":\"bad\""));
}

/// A front part of a frame, which is never the whole.
fn front_of<'a>(random: &mut Pcg32, frame: &'a [u8]) -> &'a [u8] {
    if frame.is_empty() {
        return frame;
    }
    let (front, _) = frame.split_at(below(random, frame.len() as u64) as usize);
    front
}

/// The lines of a stream.
fn joined(alloc: Global, lines: &[Bytes]) -> Result<Bytes, NoMemory> {
    let mut stream = Bytes::new(alloc);
    for line in lines {
        stream.extend(line.as_slice())?;
        stream.extend(b"\n")?;
    }
    Ok(stream)
}

/// Adds the answers to those that were given.
pub(crate) fn take_answers(
    alloc: Global,
    written: &[u8],
    answers: &mut Vec<Bytes>,
    counts: &mut Counts,
) -> Result<(), NoMemory> {
    for line in str::from_utf8(written).unwrap_or("").lines() {
        count_answer(counts, line);
        answers.push(copied(alloc, line.as_bytes())?)?;
    }
    Ok(())
}

/// Gives the outside sinks to which nothing was written; those of answers and of the ledger with the call that fails.
fn give_sinks(alloc: Global, random: &mut Pcg32, outside: &mut Memory) -> Result<(), NoMemory> {
    clear_sinks(alloc, outside);
    outside.results = MemorySink::new(alloc, some_call(alloc, random, 3)?);
    outside.ledger = MemorySink::new(alloc, some_call(alloc, random, 3)?);
    Ok(())
}

impl Collector {
    /// A collector that has recorded nothing.
    pub(crate) fn new(alloc: Global) -> Collector {
        Collector {
            file: Bytes::new(alloc),
            tears: 0,
        }
    }

    /// Gives the outside what comes of these frames, and the ledger's file. It answers how many lines come.
    fn give_texts(
        &self,
        alloc: Global,
        random: &mut Pcg32,
        frames: &[Bytes],
        outside: &mut Memory,
    ) -> Result<usize, NoMemory> {
        let lines = delivered(alloc, random, frames)?;
        outside.sources = one_source(alloc, joined(alloc, lines.as_slice())?)?;
        outside.files = one_file(alloc, "l", copied(alloc, self.file.as_slice())?)?;
        Ok(lines.len())
    }

    /// Adds a front part of a frame to the file, as a fault of writing leaves it.
    fn tear(&mut self, random: &mut Pcg32, frames: &[Bytes]) -> Result<(), NoMemory> {
        if frames.is_empty() || once_in(random, 2) {
            return Ok(());
        }
        let place = below(random, frames.len() as u64) as usize;
        self.file
            .extend(front_of(random, frames[place].as_slice()))?;
        self.tears = self.tears.saturating_add(1);
        Ok(())
    }

    /// Adds what was written to the file. Where a fault ended the run, a front part of a frame may stand behind it.
    pub(crate) fn keep(
        &mut self,
        random: &mut Pcg32,
        frames: &[Bytes],
        written: &[u8],
        is_stopped: bool,
    ) -> Result<(), NoMemory> {
        self.file.extend(written)?;
        if is_stopped {
            self.tear(random, frames)
        } else {
            Ok(())
        }
    }

    /// Collects what comes of these frames. It answers how many lines came, and the number of the status.
    pub(crate) fn run(
        &self,
        alloc: Global,
        random: &mut Pcg32,
        frames: &[Bytes],
        outside: &mut Memory,
    ) -> Result<(usize, u8), NoMemory> {
        let lines = self.give_texts(alloc, random, frames, outside)?;
        give_sinks(alloc, random, outside)?;
        let status = run(alloc, &WORDS, outside);
        Ok((lines, status))
    }
}
