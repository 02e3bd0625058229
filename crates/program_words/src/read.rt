//! Reading the words of a command.

ghost use Rattle.std.specs.Prelude.{◌≡◌, ◌⊎◌, drop, IfOk, IsSome, MatchOption, None, Some, Err, false, map};
ghost use Rattle.program_words.specs.Bounds.{ArePathsBounded, IsBounded};
ghost use Rattle.program_words.specs.Commands.{asked_by, by_threads, check_of, collect_of, command_with, daemon_of, fleet_of, generate_of, has_refused, is_by_threads, is_refused, paths_of, query_of, replay_of, report_of, sources_of, words_of};
ghost use Rattle.program_words.specs.Given.{options_of};
ghost use Rattle.program_words.specs.Left.{options_in};

use crate::command::{
    CheckWords, CollectWords, CommandName, CommandWords, DaemonWords, FleetWords, GenerateWords,
    Paths, QueryWords, ReplayWords, ReportWords,
};
use crate::error::WordsError;
use crate::name::Name;
use crate::options::GivenOptions;
use osq_value::{NoMemory, Sequence, SourceKind, SourceName, SourceNameList};
use std::alloc::Global;

/// The platform of a host for which none is given.
const PLATFORM: &str = "linux";

/// The agent's version on a host for which none is given.
const AGENT: &str = "5.10.0";

/// Seconds between two readings of a clock that begins at `--start`.
const STEP: u64 = 60;

/// The most records of one step of a source.
const RECORDS: u64 = 10000;

/// The most rounds of a command that only reads on.
const ROUNDS: u64 = 1000000;

/// How many threads answer queries where no number is given.
const WORKERS: u64 = 4;

/// The word is refused wherever it stands.
#[tactic(auto, unfolding(crate::specs::Commands::is_refused, crate::specs::Commands::refused))]
fn is_refused(word: &str) -> bool
    ensures { result ≡ is_refused word.now }
{
    matches!(word, "--" | "--help" | "-h" | "--version" | "-V")
}

#[tactic(auto, unfolding(crate::specs::Commands::has_refused))]
fn has_refused(words: &[&str]) -> bool
    ensures { result ≡ has_refused (map (λ w. w.now) words.now) }
{
    words.iter().any(|word| is_refused(word))
}

/// The command that the words begin with, where none of them is refused wherever it stands.
#[tactic(auto, unfolding(crate::specs::Commands::words_of))]
fn command_in(words: &[&str]) -> Option<CommandName>
    ensures command { MatchOption result (words_of (map (λ w. w.now) words.now) ≡ None) (λ command. words_of (map (λ w. w.now) words.now) ≡ command_with (options_of (drop 1 (map (λ w. w.now) words.now))) command) }
    ensures clean { IsSome result → has_refused (map (λ w. w.now) words.now) ≡ false }
{
    let word = words.first()?;
    if has_refused(words) {
        return None;
    }
    CommandName::of(word)
}

/// Audit logs, then lists of changes, then table lines.
#[tactic(auto, unfolding(crate::specs::Commands::sources_of, crate::specs::Names::takes))]
fn sources_of(alloc: Global, options: &GivenOptions<'_>) -> Result<SourceNameList, NoMemory>
    ensures { IfOk result (λ sources. sources ≡ sources_of (options_in options.now)) }
{
    let mut sources = Sequence::new(alloc);
    options.add_sources(alloc, Name::Audit, SourceKind::Audit, &mut sources)?;
    options.add_sources(alloc, Name::Changes, SourceKind::Changes, &mut sources)?;
    options.add_sources(alloc, Name::Tables, SourceKind::Tables, &mut sources)?;
    Ok(sources)
}

#[tactic(auto, unfolding(crate::specs::Commands::replay_of, crate::specs::Names::takes))]
fn replay_of(alloc: Global, options: &GivenOptions<'_>) -> Result<ReplayWords, NoMemory>
    ensures { IfOk result (λ words. words ≡ replay_of (options_in options.now)) }
{
    Ok(ReplayWords {
        config: options.text_or(alloc, "", Name::Config)?,
        host: options.text_or(alloc, "", Name::Host)?,
        platform: options.text_or(alloc, PLATFORM, Name::Platform)?,
        agent: options.text_or(alloc, AGENT, Name::Agent)?,
        sources: sources_of(alloc, options)?,
        store: options.text_of(alloc, Name::Store)?,
        start: options.number_of(Name::Start),
        step: options.number_or(STEP, Name::Step),
        ticks: options.number_or(60, Name::Ticks),
        records: options.number_or(RECORDS, Name::Records),
        link: options.link_of(alloc)?,
    })
}

#[tactic(auto, unfolding(crate::specs::Commands::daemon_of, crate::specs::Names::takes), using(crate::proofs::Within::few_workers))]
fn daemon_of(alloc: Global, options: &GivenOptions<'_>) -> Result<DaemonWords, NoMemory>
    ensures { IfOk result (λ words. words ≡ daemon_of (options_in options.now)) }
{
    Ok(DaemonWords {
        run: replay_of(alloc, options)?,
        workers: options.number_or(WORKERS, Name::Workers) as u32,
    })
}

#[tactic(auto, unfolding(crate::specs::Commands::query_of, crate::specs::Names::takes))]
fn query_of(alloc: Global, options: &GivenOptions<'_>) -> Result<QueryWords, NoMemory>
    ensures { IfOk result (λ words. words ≡ query_of (options_in options.now)) }
{
    Ok(QueryWords {
        text: options.text_or(alloc, "", Name::Text)?,
        config: options.text_of(alloc, Name::Config)?,
        sources: sources_of(alloc, options)?,
        store: options.text_of(alloc, Name::Store)?,
        start: options.number_of(Name::Start),
        step: options.number_or(STEP, Name::Step),
        ticks: options.number_or(ROUNDS, Name::Ticks),
        records: options.number_or(RECORDS, Name::Records),
        explain: options.has_flag(Name::Explain),
    })
}

#[tactic(auto, unfolding(crate::specs::Commands::check_of, crate::specs::Names::takes))]
fn check_of(alloc: Global, options: &GivenOptions<'_>) -> Result<CheckWords, NoMemory>
    ensures { IfOk result (λ words. words ≡ check_of (options_in options.now)) }
{
    Ok(CheckWords {
        config: options.text_or(alloc, "", Name::Config)?,
        host: options.text_or(alloc, "", Name::Host)?,
        platform: options.text_or(alloc, PLATFORM, Name::Platform)?,
        agent: options.text_or(alloc, AGENT, Name::Agent)?,
    })
}

#[tactic(auto, unfolding(crate::specs::Commands::collect_of, crate::specs::Names::takes))]
fn collect_of(alloc: Global, options: &GivenOptions<'_>) -> Result<CollectWords, NoMemory>
    ensures { IfOk result (λ words. words ≡ collect_of (options_in options.now)) }
{
    let mut sources = Sequence::new(alloc);
    sources.push(SourceName {
        kind: SourceKind::Changes,
        name: options.text_or(alloc, "", Name::Frames)?,
    })?;
    Ok(CollectWords {
        sources,
        ledger: options.text_or(alloc, "", Name::Ledger)?,
        ticks: options.number_or(ROUNDS, Name::Ticks),
    })
}

#[tactic(auto, unfolding(crate::specs::Commands::generate_of, crate::specs::Names::takes))]
fn generate_of(options: &GivenOptions<'_>) -> GenerateWords
    ensures { result ≡ generate_of (options_in options.now) }
{
    GenerateWords {
        from: options.number_or(0, Name::From),
        count: options.number_or(1, Name::Count),
    }
}

#[tactic(auto, unfolding(crate::specs::Commands::report_of, crate::specs::Names::takes))]
fn report_of(alloc: Global, options: &GivenOptions<'_>) -> Result<ReportWords, NoMemory>
    ensures { IfOk result (λ words. words ≡ report_of (options_in options.now)) }
{
    Ok(ReportWords {
        store: options.text_or(alloc, "", Name::Store)?,
    })
}

#[tactic(auto, unfolding(crate::specs::Commands::fleet_of, crate::specs::Names::takes))]
fn fleet_of(alloc: Global, options: &GivenOptions<'_>) -> Result<FleetWords, NoMemory>
    ensures { IfOk result (λ words. words ≡ fleet_of (options_in options.now)) }
{
    Ok(FleetWords {
        ledger: options.text_or(alloc, "", Name::Ledger)?,
        host: options.text_or(alloc, "", Name::Host)?,
        text: options.text_or(alloc, "", Name::Text)?,
    })
}

fn asked_by(alloc: Global, options: &GivenOptions<'_>) -> Result<CommandWords, NoMemory>
    ensures { IfOk result (λ words. words ≡ asked_by options.now.command (options_in options.now)) }
{
    match options.command {
        CommandName::Replay => Ok(CommandWords::Replay(replay_of(alloc, options)?)),
        CommandName::Daemon => Ok(CommandWords::Daemon(daemon_of(alloc, options)?)),
        CommandName::Query => Ok(CommandWords::Query(query_of(alloc, options)?)),
        CommandName::Check => Ok(CommandWords::Check(check_of(alloc, options)?)),
        CommandName::Collect => Ok(CommandWords::Collect(collect_of(alloc, options)?)),
        CommandName::Generate => Ok(CommandWords::Generate(generate_of(options))),
        CommandName::SelfTest => Ok(CommandWords::SelfTest(generate_of(options))),
        CommandName::Report => Ok(CommandWords::Report(report_of(alloc, options)?)),
        CommandName::Fleet => Ok(CommandWords::Fleet(fleet_of(alloc, options)?)),
    }
}

/// What the options ask of their command; Usage where they aren't those of a run of it.
fn command_by(alloc: Global, options: &GivenOptions<'_>) -> Result<CommandWords, WordsError>
    ensures command { IfOk result (λ words. command_with (options_in options.now) options.now.command ≡ Some words) }
    ensures usage { result ≡ Err WordsError.Usage → command_with (options_in options.now) options.now.command ≡ None }
{
    if !options.are_right(alloc)? {
        return Err(WordsError::Usage);
    }
    Ok(asked_by(alloc, options)?)
}

/// Reads the words of a command. The answer is Usage only where they are those of no command, and there it is Usage, or memory was wanting.
#[tactic(auto, using(crate::proofs::Within::words_bounded))]
pub fn read_words(alloc: Global, words: &[&str]) -> Result<CommandWords, WordsError>
    ensures command { IfOk result (λ command. words_of (map (λ w. w.now) words.now) ≡ Some command) }
    ensures usage { result ≡ Err WordsError.Usage → words_of (map (λ w. w.now) words.now) ≡ None }
    ensures refused { words_of (map (λ w. w.now) words.now) ≡ None → (result ≡ Err WordsError.Usage) ⊎ (result ≡ Err WordsError.NoMemory) }
    ensures bounds { IfOk result IsBounded }
{
    let Some(command) = command_in(words) else {
        return Err(WordsError::Usage);
    };
    let options = GivenOptions::read(alloc, command, words)?;
    command_by(alloc, &options)
}

/// The words begin with the word of a session by threads. It takes no memory.
pub fn is_by_threads(words: &[&str]) -> bool
    ensures word { result ≡ is_by_threads (map (λ w. w.now) words.now) }
    ensures command { (command : CommandWords) → words_of (map (λ w. w.now) words.now) ≡ Some command → by_threads command ≡ result }
{
    match words.first() {
        Some(word) => *word == "daemon",
        None => false,
    }
}

/// Reads what the program opens for the words of a command. The answer is Usage only where they are those of no command, and there it is
/// Usage, or memory was wanting.
///
/// ```
/// let words = ["replay", "--config", "c", "--host", "h1", "--audit", "a.log", "--start", "5", "--step", "9"];
/// let paths = paths_of(alloc, &words)?;
/// paths.sources.len()       // 1: the audit log `a.log`
/// paths.start               // Some(5)
/// paths.step                // 9
/// paths_of(alloc, &["replay"])   // Err(WordsError::Usage)
/// ```
#[tactic(auto, using(crate::proofs::Within::paths_bounded))]
pub fn paths_of(alloc: Global, words: &[&str]) -> Result<Paths, WordsError>
    ensures paths { IfOk result (λ paths. paths_of (map (λ w. w.now) words.now) ≡ Some paths) }
    ensures usage { result ≡ Err WordsError.Usage → paths_of (map (λ w. w.now) words.now) ≡ None }
    ensures refused { paths_of (map (λ w. w.now) words.now) ≡ None → (result ≡ Err WordsError.Usage) ⊎ (result ≡ Err WordsError.NoMemory) }
    ensures bounds { IfOk result ArePathsBounded }
{
    match read_words(alloc, words) {
        Ok(command) => Ok(command.into_paths(alloc)),
        Err(error) => Err(error),
    }
}
