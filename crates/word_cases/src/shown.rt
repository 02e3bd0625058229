//! Commands as text.

use osq_value::{NoMemory, SourceKind, SourceNameList, Str};
use program_words::{
    CheckWords, CollectWords, CommandWords, DaemonWords, FleetWords, GenerateWords, LinkPaths,
    Paths, QueryWords, ReplayWords, ReportWords,
};

/// The most sources that are named.
const MOST: usize = 8;

fn kind_word(kind: SourceKind) -> &'static str {
    match kind {
        SourceKind::Audit => "audit",
        SourceKind::Changes => "changes",
        SourceKind::Tables => "tables",
    }
}

/// Adds the first sources, and how many others there are.
fn push_sources(text: &mut String, sources: &SourceNameList) -> Result<(), NoMemory> {
    for source in sources.as_slice().iter().take(MOST) {
        write!(text, " {} {}", kind_word(source.kind), source.name.as_str())?;
    }
    if MOST < sources.len() {
        write!(text, " and {} more", sources.len() - MOST)?;
    }
    Ok(())
}

/// Adds the readings of the clock: the first, which a dash stands for where the machine's clock is read, and the seconds between two.
fn push_clock(text: &mut String, start: Option<u64>, step: u64) -> Result<(), NoMemory> {
    match start {
        Some(start) => write!(text, " start {start} step {step}")?,
        None => write!(text, " start - step {step}")?,
    }
    Ok(())
}

fn push_counts(text: &mut String, ticks: u64, records: u64) -> Result<(), NoMemory> {
    write!(text, " ticks {ticks} records {records}")?;
    Ok(())
}

/// Adds the path of the store, where one is named.
fn push_store(text: &mut String, store: &Option<Str>) -> Result<(), NoMemory> {
    if let Some(path) = store {
        write!(text, " store {}", path.as_str())?;
    }
    Ok(())
}

/// Adds the files of the link, where the words name them.
fn push_link(text: &mut String, link: &Option<LinkPaths>) -> Result<(), NoMemory> {
    if let Some(link) = link {
        write!(
            text,
            " frames {} answers {}",
            link.frames.as_str(),
            link.answers.as_str()
        )?;
    }
    Ok(())
}

fn push_host(text: &mut String, host: &str, platform: &str, agent: &str) -> Result<(), NoMemory> {
    write!(text, " host {host} platform {platform} agent {agent}")?;
    Ok(())
}

/// Adds the words of a session, behind those of its command.
fn push_session(text: &mut String, words: &ReplayWords) -> Result<(), NoMemory> {
    write!(text, " config {}", words.config.as_str())?;
    push_host(
        text,
        words.host.as_str(),
        words.platform.as_str(),
        words.agent.as_str(),
    )?;
    push_clock(text, words.start, words.step)?;
    push_counts(text, words.ticks, words.records)?;
    push_store(text, &words.store)?;
    push_link(text, &words.link)?;
    push_sources(text, &words.sources)
}

fn push_replay(text: &mut String, words: &ReplayWords) -> Result<(), NoMemory> {
    text.push_str("replay")?;
    push_session(text, words)
}

fn push_daemon(text: &mut String, words: &DaemonWords) -> Result<(), NoMemory> {
    write!(text, "daemon workers {}", words.workers)?;
    push_session(text, &words.run)
}

fn push_query(text: &mut String, words: &QueryWords) -> Result<(), NoMemory> {
    let config = match &words.config {
        Some(config) => config.as_str(),
        None => "-",
    };
    let form = if words.explain { "plan" } else { "answer" };
    write!(
        text,
        "query text {} config {config} {form}",
        words.text.as_str()
    )?;
    push_clock(text, words.start, words.step)?;
    push_counts(text, words.ticks, words.records)?;
    push_store(text, &words.store)?;
    push_sources(text, &words.sources)
}

fn push_check(text: &mut String, words: &CheckWords) -> Result<(), NoMemory> {
    write!(text, "check config {}", words.config.as_str())?;
    push_host(
        text,
        words.host.as_str(),
        words.platform.as_str(),
        words.agent.as_str(),
    )
}

fn push_collect(text: &mut String, words: &CollectWords) -> Result<(), NoMemory> {
    write!(
        text,
        "collect ledger {} ticks {}",
        words.ledger.as_str(),
        words.ticks
    )?;
    push_sources(text, &words.sources)
}

/// Adds the words of a load, which a command of that name asks for.
fn push_load(text: &mut String, name: &str, words: &GenerateWords) -> Result<(), NoMemory> {
    write!(text, "{name} from {} count {}", words.from, words.count)?;
    Ok(())
}

fn push_report(text: &mut String, words: &ReportWords) -> Result<(), NoMemory> {
    write!(text, "report store {}", words.store.as_str())?;
    Ok(())
}

fn push_fleet(text: &mut String, words: &FleetWords) -> Result<(), NoMemory> {
    write!(
        text,
        "fleet ledger {} host {} text {}",
        words.ledger.as_str(),
        words.host.as_str(),
        words.text.as_str()
    )?;
    Ok(())
}

/// Adds a command, without an end of the line.
pub(crate) fn push_command(text: &mut String, command: &CommandWords) -> Result<(), NoMemory> {
    match command {
        CommandWords::Replay(words) => push_replay(text, words),
        CommandWords::Daemon(words) => push_daemon(text, words),
        CommandWords::Query(words) => push_query(text, words),
        CommandWords::Check(words) => push_check(text, words),
        CommandWords::Collect(words) => push_collect(text, words),
        CommandWords::Generate(words) => push_load(text, "generate", words),
        CommandWords::SelfTest(words) => push_load(text, "selftest", words),
        CommandWords::Report(words) => push_report(text, words),
        CommandWords::Fleet(words) => push_fleet(text, words),
    }
}

/// Ends the line of a command by the number of its sources.
pub(crate) fn push_count(text: &mut String, sources: usize) -> Result<(), NoMemory> {
    Ok(writeln!(text, "; {sources} sources")?)
}

/// Adds a line for what is opened.
pub(crate) fn push_paths(text: &mut String, paths: &Paths) -> Result<(), NoMemory> {
    text.push_str("opens")?;
    push_clock(text, paths.start, paths.step)?;
    push_store(text, &paths.store)?;
    push_sources(text, &paths.sources)?;
    if let Some(ledger) = &paths.ledger {
        write!(text, " ledger {}", ledger.as_str())?;
    }
    push_link(text, &paths.link)?;
    text.push_str("\n")?;
    Ok(())
}
