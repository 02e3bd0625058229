//! The session of a self test: over generated change lines, in memory.

ghost use Rattle.std.specs.Prelude.{◌≡◌, ◌≤◌, ◌<◌, ◌^◌, ℕ, ◌∷◌, [], map, vec_len, Some, IfOk};
ghost use Rattle.forward_rounds.specs.Forwarding.{view_of};
ghost use Rattle.kept_report.specs.Counting.{numbers_in};
ghost use Rattle.replay_rounds.specs.Called.{HasSealedOf, HasStoppedOf};
ghost use Rattle.osq_program.specs.Answers.{IsDoneStatus};
ghost use Rattle.osq_program.specs.SelfTesting.{HasGrownOver, HasRunOver, config_path, document, no_view, self_key, self_sources, self_words, ticks_for};

use crate::orders::run_in_turn;
use crate::outside::Outside;
use crate::status::Status;
use batch_forwarder::{Link, MemoryLink};
use batch_keeper::{Keeper, MemoryKeeper};
use entry_model::entry::EntryList;
use entry_summary::summary::summary_of;
use kept_report::{ListNumbers, numbers_of};
use osq_outside::{
    FailList, FileSink, Files, MemoryFiles, MemorySource, NamedFile, NamedFileList, Source,
    StepClock,
};
use osq_value::{Bytes, NoMemory, Sequence, SourceKind, SourceName, SourceNameList, Str};
use pack_rules::schedule::{Mode, QueryKey};
use program_words::ReplayWords;
use std::alloc::Global;
use std::io::{self, Sink};

/// The path of the configuration.
const CONFIG: &str = "self.conf";

/// What the configuration says: one query, of the changes below `/etc`.
const DOCUMENT: &str =
    "{\"schedule\":{\"all\":{\"query\":\"SELECT target_path FROM file_events\",\"interval\":60}},\"file_paths\":{\"etc\":[\"/etc/%%\"]}}";

/// The name of the lines.
const LINES: &str = "generated";

/// The most records of one step.
const RECORDS: u64 = 100;

/// When the first session begins, in seconds since 1970 UTC.
pub(crate) const START: u64 = 1000;

/// How many seconds lie between two ticks.
pub(crate) const STEP: u64 = 60;

/// How many ticks a session over so many lines has: one for each hundred, and two more.
pub(crate) fn ticks_for(count: u64) -> u64
    requires { count ≤ 1000000 }
    ensures { result ≡ ticks_for count }
{
    count / RECORDS + 2
}

/// All that the session reaches. Its results and its status lines go nowhere.
type Inside = Outside<
    MemorySource,
    FileSink<Sink>,
    MemoryFiles,
    StepClock,
    MemoryKeeper,
    MemoryLink,
>;

/// The lines as the one source.
fn sources_of(alloc: Global) -> Result<SourceNameList, NoMemory>
    ensures { IfOk result (λ sources. sources ≡ self_sources) }
{
    let mut sources = Sequence::new(alloc);
    sources.push(SourceName {
        kind: SourceKind::Changes,
        name: Str::of(alloc, LINES)?,
    })?;
    Ok(sources)
}

/// The words of a session over so many lines.
fn words_for(alloc: Global, count: u64, start: u64) -> Result<ReplayWords, NoMemory>
    requires { count ≤ 1000000 }
    ensures { IfOk result (λ words. words ≡ self_words count start) }
{
    Ok(ReplayWords {
        config: Str::of(alloc, CONFIG)?,
        host: Str::of(alloc, "self")?,
        platform: Str::of(alloc, "linux")?,
        agent: Str::of(alloc, "5.10.0")?,
        sources: sources_of(alloc)?,
        store: None,
        start: Some(start),
        step: STEP,
        ticks: ticks_for(count),
        records: RECORDS,
        link: None,
    })
}

/// The configuration as the one file.
fn files_of(alloc: Global) -> Result<MemoryFiles, NoMemory>
    ensures { IfOk result (λ files. ⟦<MemoryFiles as Files>⟧.file files config_path ≡ Some document) }
{
    let mut files = NamedFileList::new(alloc);
    files.push(NamedFile {
        path: Str::of(alloc, CONFIG)?,
        text: Bytes::of(alloc, DOCUMENT.as_bytes())?,
    })?;
    Ok(MemoryFiles::new(files, FailList::new(alloc)))
}

/// A link through which nothing was sent, and on which no answer waits.
fn link_of(alloc: Global) -> MemoryLink
    ensures { view_of ⟦<MemoryLink as Link>⟧ result ≡ no_view }
{
    MemoryLink::new(alloc, Sequence::new(alloc), FailList::new(alloc))
}

/// What a session that begins at this moment reaches.
fn inside_of(
    alloc: Global,
    lines: Bytes,
    start: u64,
    keeper: MemoryKeeper,
) -> Result<Inside, NoMemory>
    ensures file { IfOk result (λ inside. ⟦<MemoryFiles as Files>⟧.file inside.files config_path ≡ Some document) }
    ensures bytes { IfOk result (λ inside. map ⟦<MemorySource as Source>⟧.left inside.sources.items ≡ lines ∷ []) }
    ensures one { IfOk result (λ inside. vec_len inside.sources ≡ 1) }
    ensures clock { IfOk result (λ inside. inside.clock ≡ record { next = start; step = 60 }) }
    ensures link { IfOk result (λ inside. view_of ⟦<MemoryLink as Link>⟧ inside.link ≡ no_view) }
    ensures keeper { IfOk result (λ inside. inside.keeper ≡ keeper) }
    ensures kept { IfOk result (λ inside. ⟦<MemoryKeeper as Keeper>⟧.kept inside.keeper ≡ ⟦<MemoryKeeper as Keeper>⟧.kept keeper) }
{
    let mut sources = Vec::new(alloc);
    sources.push(MemorySource::new(lines, FailList::new(alloc)))?;
    Ok(Outside {
        sources,
        results: FileSink::new(io::sink()),
        status: FileSink::new(io::sink()),
        ledger: FileSink::new(io::sink()),
        files: files_of(alloc)?,
        clock: StepClock {
            next: start,
            step: STEP,
        },
        keeper,
        link: link_of(alloc),
    })
}

/// The query of the session.
fn query_of(alloc: Global) -> Result<QueryKey, NoMemory>
    ensures { IfOk result (λ query. query ≡ self_key) }
{
    let name = Str::of(alloc, "all")?;
    let text = Str::of(alloc, "SELECT target_path FROM file_events")?;
    Ok(QueryKey::read(name, text, Mode::Evented))
}

/// The numbers of a list.
pub(crate) fn self_numbers(alloc: Global, list: &EntryList) -> Result<ListNumbers, NoMemory>
    ensures { IfOk result (λ numbers. numbers ≡ numbers_in self_key list.now) }
{
    let query = query_of(alloc)?;
    let values = summary_of(alloc, list.as_slice())?;
    numbers_of(&values, list.as_slice(), &query)
}

/// How a session ended, with the keeper behind it.
#[derive(Drop)]
pub(crate) struct Ran {
    /// What the session answers.
    pub(crate) status: Status,
    /// What it kept.
    pub(crate) keeper: MemoryKeeper,
}

/// Runs the session over these lines, of which there are `count`, behind the keeper's list. The clock begins at `start`, and goes on by a minute at
/// each reading.
pub(crate) fn run_over(
    alloc: Global,
    lines: Bytes,
    count: u64,
    start: u64,
    keeper: MemoryKeeper,
) -> Result<Ran, NoMemory>
    requires count { count ≤ 1000000 }
    requires start { start < 2 ^ 63 }
    ensures done { IfOk result (λ ran. IsDoneStatus ran.status → HasRunOver lines count start (⟦<MemoryKeeper as Keeper>⟧.kept keeper) (⟦<MemoryKeeper as Keeper>⟧.kept ran.keeper)) }
    ensures kept { IfOk result (λ ran. HasGrownOver lines count start (⟦<MemoryKeeper as Keeper>⟧.kept keeper) (⟦<MemoryKeeper as Keeper>⟧.kept ran.keeper)) }
    ensures sealed { IfOk result (λ ran. IsDoneStatus ran.status → HasSealedOf ⟦<MemoryKeeper as Keeper>⟧ keeper ran.keeper (ticks_for count)) }
    ensures stopped { IfOk result (λ ran. ran.status ≡ Status.KeeperFault → HasStoppedOf ⟦<MemoryKeeper as Keeper>⟧ keeper ran.keeper (ticks_for count)) }
{
    let words = words_for(alloc, count, start)?;
    let mut inside = inside_of(alloc, lines, start, keeper)?;
    let status = run_in_turn(alloc, &words, &mut inside);
    Ok(Ran {
        status,
        keeper: inside.keeper,
    })
}
