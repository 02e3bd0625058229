//! The commands, and what their words ask.

ghost use Rattle.std.specs.Prelude.{◌≡◌};
ghost use Rattle.program_words.specs.Commands.{command_named, optional, paths_in, required, session_paths, sources_in, unsourced};

use crate::name::Name;
use osq_value::{Sequence, SourceNameList, Str};
use std::alloc::Global;

/// The commands.
#[derive(Clone, Copy)]
pub(crate) enum CommandName {
    Replay,
    Daemon,
    Query,
    Check,
    Collect,
    Generate,
    SelfTest,
    Report,
    Fleet,
}

impl CommandName {
    /// The command of that word.
    #[tactic(auto, unfolding(crate::specs::Commands::command_named))]
    pub(crate) fn of(word: &str) -> Option<CommandName>
        ensures { result ≡ command_named word.now }
    {
        match word {
            "replay" => Some(CommandName::Replay),
            "daemon" => Some(CommandName::Daemon),
            "query" => Some(CommandName::Query),
            "check" => Some(CommandName::Check),
            "collect" => Some(CommandName::Collect),
            "generate" => Some(CommandName::Generate),
            "selftest" => Some(CommandName::SelfTest),
            "report" => Some(CommandName::Report),
            "fleet" => Some(CommandName::Fleet),
            _ => None,
        }
    }

    /// The options that the command must have.
    #[tactic(auto, unfolding(crate::specs::Commands::required))]
    pub(crate) fn required(self) -> &'static [Name]
        ensures { result.now ≡ required self }
    {
        match self {
            CommandName::Replay | CommandName::Daemon | CommandName::Check => {
                &[Name::Config, Name::Host]
            }
            CommandName::Query => &[Name::Text],
            CommandName::Collect => &[Name::Frames, Name::Ledger],
            CommandName::Generate | CommandName::SelfTest => &[Name::From, Name::Count],
            CommandName::Report => &[Name::Store],
            CommandName::Fleet => &[Name::Ledger, Name::Host, Name::Text],
        }
    }

    /// Those that it may have.
    #[tactic(auto, unfolding(crate::specs::Commands::optional))]
    pub(crate) fn optional(self) -> &'static [Name]
        ensures { result.now ≡ optional self }
    {
        match self {
            CommandName::Replay => &[
                Name::Platform,
                Name::Agent,
                Name::Audit,
                Name::Changes,
                Name::Tables,
                Name::Store,
                Name::Start,
                Name::Step,
                Name::Ticks,
                Name::Records,
                Name::FramesOut,
                Name::AnswersIn,
            ],
            CommandName::Daemon => &[
                Name::Platform,
                Name::Agent,
                Name::Audit,
                Name::Changes,
                Name::Tables,
                Name::Store,
                Name::Start,
                Name::Step,
                Name::Ticks,
                Name::Records,
                Name::FramesOut,
                Name::AnswersIn,
                Name::Workers,
            ],
            CommandName::Query => &[
                Name::Config,
                Name::Audit,
                Name::Changes,
                Name::Tables,
                Name::Store,
                Name::Start,
                Name::Step,
                Name::Ticks,
                Name::Records,
                Name::Explain,
            ],
            CommandName::Check => &[Name::Platform, Name::Agent],
            CommandName::Collect => &[Name::Ticks],
            CommandName::Generate
            | CommandName::SelfTest
            | CommandName::Report
            | CommandName::Fleet => &[],
        }
    }
}

/// The files that stand for a session's link to a collector.
#[derive(Drop)]
pub struct LinkPaths {
    /// The path of the file to which frames are appended.
    pub frames: Str,
    /// The path of the file of which answers are polled.
    pub answers: Str,
}

/// The words of a session.
#[derive(Drop)]
pub struct ReplayWords {
    /// The path of the configuration.
    pub config: Str,
    /// The host's identifier.
    pub host: Str,
    /// The platform of the host; `linux` where the words name none.
    pub platform: Str,
    /// The version of the agent; `5.10.0` where the words name none.
    pub agent: Str,
    /// The sources, in the order audit, changes, tables, each in the order of the words.
    pub sources: SourceNameList,
    /// The path of the store, where the run begins with what one holds.
    pub store: Option<Str>,
    /// The clock's first reading, where it isn't the machine's clock.
    pub start: Option<u64>,
    /// Seconds between two ticks of that clock.
    pub step: u64,
    /// How many ticks the session has.
    pub ticks: u64,
    /// The most records of one step of a source.
    pub records: u64,
    /// The files of the link, where the session forwards its sealed batches.
    pub link: Option<LinkPaths>,
}

/// The words of a session whose ticks are taken by threads.
#[derive(Drop)]
pub struct DaemonWords {
    /// The words of the session.
    pub run: ReplayWords,
    /// How many threads answer queries.
    pub workers: u32,
}

/// The words of one question.
#[derive(Drop)]
pub struct QueryWords {
    /// The SQL text.
    pub text: Str,
    /// The path of the configuration whose `file_paths` count.
    pub config: Option<Str>,
    /// The sources, in the order audit, changes, tables, each in the order of the words.
    pub sources: SourceNameList,
    /// The path of the store, where the run begins with what one holds.
    pub store: Option<Str>,
    /// The clock's first reading, where it isn't the machine's clock.
    pub start: Option<u64>,
    /// Seconds between two readings of that clock.
    pub step: u64,
    /// How many rounds over the sources there are at most.
    pub ticks: u64,
    /// The most records of one step of a source.
    pub records: u64,
    /// The plan is wanted, and not the answer.
    pub explain: bool,
}

/// The words of a look at a configuration.
#[derive(Drop)]
pub struct CheckWords {
    /// The path of the configuration.
    pub config: Str,
    /// The host's identifier.
    pub host: Str,
    /// The platform of the host; `linux` where the words name none.
    pub platform: Str,
    /// The version of the agent; `5.10.0` where the words name none.
    pub agent: Str,
}

/// The words of a collector.
#[derive(Drop)]
pub struct CollectWords {
    /// The stream of frames, as the one source.
    pub sources: SourceNameList,
    /// The path of the ledger's file.
    pub ledger: Str,
    /// How many rounds over the stream there are at most.
    pub ticks: u64,
}

/// The words of a load that is made.
#[derive(Drop)]
pub struct GenerateWords {
    /// The number behind which the numbers of the lines stand.
    pub from: u64,
    /// How many lines are made.
    pub count: u64,
}

/// The words of a look into a store.
#[derive(Drop)]
pub struct ReportWords {
    /// The path of the store.
    pub store: Str,
}

/// The words of one question to a ledger.
#[derive(Drop)]
pub struct FleetWords {
    /// The path of the ledger's file, which is read and never made.
    pub ledger: Str,
    /// The identifier of the host whose recorded frames are asked.
    pub host: Str,
    /// The SQL text.
    pub text: Str,
}

/// The words of a command.
#[derive(Drop)]
pub enum CommandWords {
    /// Runs a session.
    Replay(ReplayWords),
    /// Runs a session by threads.
    Daemon(DaemonWords),
    /// Answers one text.
    Query(QueryWords),
    /// Looks at a configuration.
    Check(CheckWords),
    /// Records frames, and answers them.
    Collect(CollectWords),
    /// Makes change lines.
    Generate(GenerateWords),
    /// Runs a session over such lines in memory.
    SelfTest(GenerateWords),
    /// Shows the values of a kept list.
    Report(ReportWords),
    /// Answers one text over the frames that a ledger records of a host.
    Fleet(FleetWords),
}

/// What the program opens for a command: its sources, its store, its clock, the file that a ledger is added to, and its link.
#[derive(Drop)]
pub struct Paths {
    /// The sources, in the order audit, changes, tables, each in the order of the words; for a collector its one stream of frames.
    pub sources: SourceNameList,
    /// The path of the store, where one is named; without one what the run keeps stands in memory.
    pub store: Option<Str>,
    /// The clock's first reading, where it isn't the machine's clock.
    pub start: Option<u64>,
    /// Seconds between two readings of that clock.
    pub step: u64,
    /// The path of the ledger's file, where the command adds to one.
    pub ledger: Option<Str>,
    /// The files of the link, where the command forwards what it seals.
    pub link: Option<LinkPaths>,
}

/// What is opened for a command that reads no source.
fn unsourced(alloc: Global, store: Option<Str>) -> Paths
    ensures { result ≡ unsourced store }
{
    Paths {
        sources: Sequence::new(alloc),
        store,
        start: None,
        step: 60,
        ledger: None,
        link: None,
    }
}

impl ReplayWords {
    /// What the program opens for the session.
    fn into_paths(self) -> Paths
        ensures { result ≡ session_paths self }
    {
        Paths {
            sources: self.sources,
            store: self.store,
            start: self.start,
            step: self.step,
            ledger: None,
            link: self.link,
        }
    }
}

impl CommandWords {
    /// What the program opens for the command.
    pub fn into_paths(self, alloc: Global) -> Paths
        ensures { result ≡ paths_in self }
    {
        match self {
            CommandWords::Replay(words) => words.into_paths(),
            CommandWords::Daemon(words) => words.run.into_paths(),
            CommandWords::Query(words) => Paths {
                sources: words.sources,
                store: words.store,
                start: words.start,
                step: words.step,
                ledger: None,
                link: None,
            },
            CommandWords::Check(_)
            | CommandWords::Generate(_)
            | CommandWords::SelfTest(_)
            | CommandWords::Fleet(_) => unsourced(alloc, None),
            CommandWords::Report(words) => unsourced(alloc, Some(words.store)),
            CommandWords::Collect(words) => Paths {
                sources: words.sources,
                store: None,
                start: None,
                step: 60,
                ledger: Some(words.ledger),
                link: None,
            },
        }
    }

    /// How many sources the command names.
    pub fn sources(&self) -> usize
        ensures { result ≡ sources_in self.now }
    {
        match self {
            CommandWords::Replay(words) => words.sources.len(),
            CommandWords::Daemon(words) => words.run.sources.len(),
            CommandWords::Query(words) => words.sources.len(),
            CommandWords::Check(_)
            | CommandWords::Generate(_)
            | CommandWords::SelfTest(_)
            | CommandWords::Report(_)
            | CommandWords::Fleet(_) => 0,
            CommandWords::Collect(words) => words.sources.len(),
        }
    }
}
