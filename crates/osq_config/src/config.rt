//! What a configuration says.

use osq_value::{CategoryList, Sequence, Str, TextList};

/// On which hosts an entry or a pack holds.
#[derive(Drop)]
pub struct Rules {
    /// Platforms with commas; the empty text holds on each.
    pub platform: Str,
    /// The least version of the agent; the empty text holds for each.
    pub version: Str,
    /// The part of the hosts in hundredths, from 1 to 100.
    pub shard: u64,
}

/// A query of the schedule or of a pack.
#[derive(Drop)]
pub struct QueryEntry {
    /// Its key.
    pub name: Str,
    /// The text of the query. It is not parsed here.
    pub text: Str,
    /// Seconds between two batches, from 1 to 604800.
    pub interval: u64,
    /// Each batch has the whole answer, and not only what new events add.
    pub is_snapshot: bool,
    /// The hosts on which it holds.
    pub rules: Rules,
}

/// Queries in byte order of their names.
pub type QueryEntryList = Sequence<QueryEntry>;

/// A query pack.
#[derive(Drop)]
pub struct Pack {
    /// Its key.
    pub name: Str,
    /// The file that holds the pack, where it is given as a path. It has no queries until that file is added.
    pub path: Option<Str>,
    /// Queries each of which gives a row where the pack is meant for the host.
    pub discovery: TextList,
    /// The queries of the pack.
    pub queries: QueryEntryList,
    /// The hosts on which the pack holds.
    pub rules: Rules,
}

impl Pack {
    ghost use Rattle.std.specs.Prelude.{◌≡◌};
    ghost use Rattle.osq_config.specs.Files.{refilled};

    /// Takes what its file says. It keeps its name and its path.
    pub fn refill(&mut self, read: Pack)
        ensures { self.new ≡ refilled self.old read }
    {
        self.discovery = read.discovery;
        self.queries = read.queries;
        self.rules = read.rules;
    }
}

/// Packs in byte order of their names.
pub type PackList = Sequence<Pack>;

/// A configuration.
#[derive(Drop)]
pub struct Config {
    /// Seconds after which an event may expire, from 1 to 4294967295.
    pub events_expiry: u64,
    /// How many events of a table are kept, from 1 to 1000000.
    pub events_max: u64,
    /// Result lines stand one for a batch, else one for a row.
    pub is_batch_form: bool,
    /// The queries of `schedule`.
    pub schedule: QueryEntryList,
    /// The packs; with the schedule they hold at most 10000 queries.
    pub packs: PackList,
    /// The categories of paths, in byte order of their names.
    pub categories: CategoryList,
}
