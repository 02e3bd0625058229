//! Runs that are made of numbers.

use crate::numbers::{below, numbers_from};
use crate::outside::{add_source, give_config};
use crate::run::Run;
use crate::texts::{changes_of, config_of, users_of};
use osq_outside::{FailList, OpenGate};
use osq_value::{Bytes, NoMemory};
use rand_pcg::Pcg32;
use std::alloc::Global;
use std::sync::Wait;
use std::thread::Threads;

/// A run that is made of numbers: these, its words behind the command's, how many workers it has, and the run.
#[derive(Drop)]
pub(crate) struct Made {
    random: Pcg32,
    options: String,
    workers: u64,
    /// The run.
    pub(crate) run: Run,
}

impl Made {
    /// A run of which nothing is made yet, and which goes by the numbers from this seed.
    pub(crate) fn new(alloc: Global, seed: u64) -> Made {
        Made {
            random: numbers_from(seed),
            options: String::new(alloc),
            workers: 0,
            run: Run::new(alloc),
        }
    }

    /// Gives the run its configuration.
    fn make_config(&mut self, alloc: Global) -> Result<(), NoMemory> {
        let text = config_of(alloc, &mut self.random)?;
        give_config(alloc, &mut self.run.outside, text)
    }

    /// Makes the words but for those that name sources, and the number of workers.
    fn make_words(&mut self) -> Result<(), NoMemory> {
        self.options.push_str("--config c --host h1 --start 1000")?;
        let ticks = below(&mut self.random, 4) + 1;
        write!(self.options, " --ticks {ticks}")?;
        let records = below(&mut self.random, 6) + 1;
        write!(self.options, " --records {records}")?;
        self.workers = below(&mut self.random, 8) + 1;
        Ok(())
    }

    /// Gives the run a source of this text, whose reads don't fail.
    fn add(&mut self, alloc: Global, text: Bytes) -> Result<(), NoMemory> {
        add_source(&mut self.run.outside, text, FailList::new(alloc))
    }

    /// Adds a list of so many changes, with the words that name it.
    fn add_changes(&mut self, alloc: Global, source: u64, lines: u64) -> Result<(), NoMemory> {
        let text = changes_of(alloc, &mut self.random, source, lines)?;
        self.add(alloc, text)?;
        write!(self.options, " --changes s{source}")?;
        Ok(())
    }

    /// Adds a source of so many tables, with the words that name it.
    fn add_tables(&mut self, alloc: Global, lines: u64) -> Result<(), NoMemory> {
        let text = users_of(alloc, &mut self.random, lines)?;
        self.add(alloc, text)?;
        Ok(self.options.push_str(" --tables t")?)
    }

    /// Adds the sources, up to three lists of changes and maybe a source of tables. In a third of the runs they have nothing.
    fn make_sources(&mut self, alloc: Global) -> Result<(), NoMemory> {
        let most = if below(&mut self.random, 3) == 0 {
            0
        } else {
            12
        };
        for source in 0..below(&mut self.random, 4) {
            let lines = below(&mut self.random, most + 1);
            self.add_changes(alloc, source, lines)?;
        }
        if below(&mut self.random, 2) == 0 {
            let lines = below(&mut self.random, most / 4 + 1);
            self.add_tables(alloc, lines)?;
        }
        Ok(())
    }

    /// Makes the run.
    pub(crate) fn make(&mut self, alloc: Global) -> Result<(), NoMemory> {
        self.make_config(alloc)?;
        self.make_words()?;
        self.make_sources(alloc)
    }

    /// Runs it by threads.
    pub(crate) fn go_by_threads<R: Threads + Wait + Sync>(
        &mut self,
        rt: &R,
        alloc: Global,
    ) -> Result<(), NoMemory> {
        write!(self.options, " --workers {}", self.workers)?;
        let words = format!(in alloc; "daemon {}", self.options.as_str())?;
        self.run.go_by_threads(rt, alloc, words.as_str(), &OpenGate)
    }

    /// Runs it on one thread.
    pub(crate) fn go_alone(&mut self, alloc: Global) -> Result<(), NoMemory> {
        let words = format!(in alloc; "replay {}", self.options.as_str())?;
        self.run.go_alone(alloc, words.as_str())
    }
}
