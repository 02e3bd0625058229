//! A host.

use crate::delivery::delivered;
use crate::judge::{Judge, Name};
use crate::memory::{clear_sinks, copied, one_file, one_source};
use crate::numbers::{below, once_in, some_call};
use crate::outside::{Memory, run};
use batch_forwarder::MemoryLink;
use batch_keeper::MemoryKeeper;
use entry_model::entry::EntryList;
use osq_outside::{FailList, Failures, StepClock};
use osq_value::{Bytes, NoMemory};
use rand_pcg::Pcg32;
use std::alloc::Global;
use std::mem;

/// A query of changes, and one that is asked in each other tick.
const CONFIG: &str =
    "{\"schedule\":{\"fe\":{\"query\":\"SELECT target_path, action FROM file_events\",\"interval\":60},\"n\":{\"query\":\"SELECT 1 AS one\",\"interval\":120,\"snapshot\":true}},\"file_paths\":{\"etc\":[\"/etc/%%\"]}}";

/// The lines of a source, one behind another.
const LINES: [&str; 3] = [
    "{\"path\":\"/etc/a\",\"action\":\"CREATED\",\"time\":1}\n",
    "{\"path\":\"/etc/b\",\"action\":\"UPDATED\",\"time\":2}\n",
    "{\"path\":\"/etc/c\",\"action\":\"DELETED\",\"time\":3}\n",
];

/// How many ticks a session has.
const TICKS: [&str; 3] = ["1", "2", "3"];

/// So many lines.
fn lines_of(alloc: Global, count: u64) -> Result<Bytes, NoMemory> {
    let mut text = Bytes::new(alloc);
    for line in 0..count {
        text.extend(LINES[(line % 3) as usize].as_bytes())?;
    }
    Ok(text)
}

/// A host with its kept list, the lines of its source, and what is judged of its list.
#[derive(Drop)]
pub(crate) struct Host {
    name: Name,
    keeper: MemoryKeeper,
    lines: u64,
    moment: u64,
    /// What is judged of the list.
    pub(crate) judge: Judge,
}

/// A link over what comes of these answers, with the call that fails.
fn link_of(alloc: Global, random: &mut Pcg32, answers: &[Bytes]) -> Result<MemoryLink, NoMemory> {
    let waiting = delivered(alloc, random, answers)?;
    Ok(MemoryLink::new(alloc, waiting, some_call(alloc, random, 12)?))
}

/// Runs a session of a host of this name, and gives the number of the status.
fn run_session(alloc: Global, name: &str, ticks: &str, outside: &mut Memory) -> u8 {
    let words = [
        "replay",
        "--config",
        "c",
        "--host",
        name,
        "--ticks",
        ticks,
        "--changes",
        "s",
        "--frames-out",
        "f",
        "--answers-in",
        "a",
    ];
    run(alloc, &words, outside)
}

impl Host {
    /// A host without any session yet.
    pub(crate) fn new(alloc: Global, name: Name) -> Host {
        Host {
            name,
            keeper: MemoryKeeper::new(EntryList::new(alloc), FailList::new(alloc), false),
            lines: 0,
            moment: 1000,
            judge: Judge::new(alloc, name),
        }
    }

    /// Gives the outside the configuration, and the source, which has grown.
    fn give_texts(
        &mut self,
        alloc: Global,
        random: &mut Pcg32,
        outside: &mut Memory,
    ) -> Result<(), NoMemory> {
        self.lines = self.lines.saturating_add(below(random, 4));
        outside.sources = one_source(alloc, lines_of(alloc, self.lines)?)?;
        outside.files = one_file(alloc, "c", copied(alloc, CONFIG.as_bytes())?)?;
        Ok(())
    }

    /// Gives the outside the clock, which is later than at the session before.
    fn give_clock(&mut self, outside: &mut Memory) {
        outside.clock = StepClock {
            next: self.moment,
            step: 60,
        };
        self.moment = self.moment.saturating_add(180);
    }

    /// Gives the kept list the call that fails.
    fn give_failures(&mut self, alloc: Global, random: &mut Pcg32) -> Result<(), NoMemory> {
        self.keeper.failures = Failures::new(some_call(alloc, random, 8)?);
        self.keeper.is_whole = once_in(random, 2);
        Ok(())
    }

    /// Runs a session over the kept list, and gives the number of the status.
    fn run_over(&mut self, alloc: Global, ticks: &str, outside: &mut Memory) -> u8 {
        mem::swap(&mut self.keeper, &mut outside.keeper);
        let status = run_session(alloc, self.name.as_str(), ticks, outside);
        mem::swap(&mut self.keeper, &mut outside.keeper);
        status
    }

    /// Runs a session over what comes of these answers, and gives the number of the status. The frames that it sends are left in the outside.
    pub(crate) fn run(
        &mut self,
        alloc: Global,
        random: &mut Pcg32,
        answers: &[Bytes],
        outside: &mut Memory,
    ) -> Result<u8, NoMemory> {
        clear_sinks(alloc, outside);
        self.give_texts(alloc, random, outside)?;
        self.give_clock(outside);
        self.give_failures(alloc, random)?;
        outside.link = link_of(alloc, random, answers)?;
        let ticks = TICKS[below(random, 3) as usize];
        Ok(self.run_over(alloc, ticks, outside))
    }

    /// What is wrong with what a session left.
    pub(crate) fn fault_of(
        &mut self,
        alloc: Global,
        status: u8,
        sent: &[Bytes],
    ) -> Result<Option<&'static str>, NoMemory> {
        if status != 0 && status != 4 {
            return Ok(Some("a status that isn't 0 or 4"));
        }
        let entries = self.keeper.entries().as_slice();
        if !self.judge.takes_all(alloc, entries)? {
            return Ok(Some("a kept list that no session leaves"));
        }
        if !self.judge.has_frames(sent) {
            return Ok(Some("a frame of no sealed batch"));
        }
        Ok(None)
    }
}
