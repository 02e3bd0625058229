//! Stories.

use crate::collector::{Collector, take_answers};
use crate::counts::{Counts, add, count_collect, count_session};
use crate::host::Host;
use crate::judge::Name;
use crate::ledger::recorded_in;
use crate::memory::add_copies;
use crate::numbers::below;
use crate::outside::{Memory, nothing};
use osq_value::{Bytes, NoMemory};
use rand_pcg::Pcg32;
use std::alloc::Global;

/// How many steps a story has.
const STEPS: u64 = 10;

/// Two hosts, a collector, all frames that were sent, all answers that were given, the outside of the last run, and the numbers by which it goes on.
#[derive(Drop)]
pub(crate) struct World {
    hosts: Vec<Host>,
    collector: Collector,
    frames: Vec<Bytes>,
    answers: Vec<Bytes>,
    outside: Memory,
    random: Pcg32,
}

/// Two hosts without any session yet.
fn two_hosts(alloc: Global) -> Result<Vec<Host>, NoMemory> {
    let mut hosts = Vec::new(alloc);
    hosts.push(Host::new(alloc, Name::First))?;
    hosts.push(Host::new(alloc, Name::Second))?;
    Ok(hosts)
}

impl World {
    /// A world in which nothing happened, and which goes by the numbers from this seed.
    fn new(alloc: Global, seed: u64) -> Result<World, NoMemory> {
        Ok(World {
            hosts: two_hosts(alloc)?,
            collector: Collector::new(alloc),
            frames: Vec::new(alloc),
            answers: Vec::new(alloc),
            outside: nothing(alloc),
            random: Pcg32::new(seed, 54),
        })
    }

    /// Runs a session of the host at this place, and answers what is wrong with what it leaves.
    fn session(
        &mut self,
        alloc: Global,
        place: usize,
        counts: &mut Counts,
    ) -> Result<Option<&'static str>, NoMemory> {
        let Some(host) = self.hosts.get_mut(place) else {
            return Ok(Some("no such host"));
        };
        let answers = self.answers.as_slice();
        let status = host.run(alloc, &mut self.random, answers, &mut self.outside)?;
        let sent = self.outside.link.sent().as_slice();
        count_session(counts, status, sent.len());
        add_copies(alloc, &mut self.frames, sent)?;
        host.fault_of(alloc, status, sent)
    }

    /// Keeps what a run of the collector with this status left.
    fn keep(&mut self, alloc: Global, status: u8, counts: &mut Counts) -> Result<(), NoMemory> {
        let frames = self.frames.as_slice();
        let recorded = self.outside.ledger.written().as_slice();
        self.collector
            .keep(&mut self.random, frames, recorded, status == 8)?;
        let given = self.outside.results.written().as_slice();
        take_answers(alloc, given, &mut self.answers, counts)
    }

    /// Runs the collector, and answers what is wrong with how it ends.
    fn collect(
        &mut self,
        alloc: Global,
        counts: &mut Counts,
    ) -> Result<Option<&'static str>, NoMemory> {
        let frames = self.frames.as_slice();
        let (lines, status) = self
            .collector
            .run(alloc, &mut self.random, frames, &mut self.outside)?;
        count_collect(counts, lines, status);
        self.keep(alloc, status, counts)?;
        if status == 0 || status == 8 {
            Ok(None)
        } else {
            Ok(Some("a status that isn't 0 or 8"))
        }
    }

    /// What is wrong with the whole: the ledger has the frames of each host's sealed batches from the first on, each once and in order, and no
    /// host takes more for recorded.
    fn fault(&self) -> Option<&'static str> {
        let [first, second] = self.hosts.as_slice() else {
            return Some("not two hosts");
        };
        match recorded_in(&first.judge, &second.judge, self.collector.file.as_slice()) {
            Some(recorded) => recorded.fault(&first.judge, &second.judge, self.collector.tears),
            None => Some("a ledger that isn't of the first batches, each once"),
        }
    }

    /// Does a step, and answers what is wrong with it.
    fn step(
        &mut self,
        alloc: Global,
        counts: &mut Counts,
    ) -> Result<Option<&'static str>, NoMemory> {
        let fault = match below(&mut self.random, 4) {
            0 => self.session(alloc, 0, counts)?,
            1 => self.session(alloc, 1, counts)?,
            _ => self.collect(alloc, counts)?,
        };
        match fault {
            Some(fault) => Ok(Some(fault)),
            None => Ok(self.fault()),
        }
    }

    /// Counts what there is at the end.
    fn count(&self, counts: &mut Counts) {
        let [first, second] = self.hosts.as_slice() else {
            return;
        };
        let file = self.collector.file.as_slice();
        if let Some(recorded) = recorded_in(&first.judge, &second.judge, file) {
            add(&mut counts.recorded, recorded.first);
            add(&mut counts.recorded, recorded.second);
        }
        add(&mut counts.acked, first.judge.acked as usize);
        add(&mut counts.acked, second.judge.acked as usize);
    }

    /// Does all steps, and answers what is wrong with the first that leaves something wrong.
    fn go(&mut self, alloc: Global, counts: &mut Counts) -> Result<Option<&'static str>, NoMemory> {
        for _ in 0..STEPS {
            if let Some(fault) = self.step(alloc, counts)? {
                return Ok(Some(fault));
            }
        }
        self.count(counts);
        Ok(None)
    }
}

/// Tells the story of this number, and answers what is wrong with its first step that leaves something wrong.
pub(crate) fn tell(
    alloc: Global,
    seed: u64,
    counts: &mut Counts,
) -> Result<Option<&'static str>, NoMemory> {
    let mut world = World::new(alloc, seed)?;
    world.go(alloc, counts)
}
