//! How much there was in stories.

use osq_value::NoMemory;

/// How often there was what.
#[derive(Clone, Copy)]
pub(crate) struct Counts {
    /// Sessions of hosts.
    pub(crate) sessions: u64,
    /// Those of them that a fault of the keeper ended.
    pub(crate) kills: u64,
    /// Frames that hosts sent.
    pub(crate) sent: u64,
    /// Batches that are acknowledged at the end.
    pub(crate) acked: u64,
    /// Runs of the collector.
    pub(crate) collects: u64,
    /// Those of them that a fault of a sink ended.
    pub(crate) stops: u64,
    /// Lines that were delivered to it.
    pub(crate) delivered: u64,
    /// Batches that its ledger has at the end.
    pub(crate) recorded: u64,
    /// Its answers that a frame is repeated.
    pub(crate) repeats: u64,
    /// Its answers that a frame leaves a gap.
    pub(crate) gaps: u64,
    /// Its answers that a line is no frame.
    pub(crate) bad: u64,
}

impl Counts {
    pub(crate) const NOTHING: Counts = Counts {
        sessions: 0,
        kills: 0,
        sent: 0,
        acked: 0,
        collects: 0,
        stops: 0,
        delivered: 0,
        recorded: 0,
        repeats: 0,
        gaps: 0,
        bad: 0,
    };
}

/// Counts so many more.
pub(crate) fn add(count: &mut u64, more: usize) {
    *count = count.saturating_add(more as u64);
}

/// Counts one more where that is so.
pub(crate) fn add_if(count: &mut u64, is_so: bool) {
    if is_so {
        add(count, 1);
    }
}

/// Counts a session with this status, which sent so many frames.
pub(crate) fn count_session(counts: &mut Counts, status: u8, sent: usize) {
    add(&mut counts.sessions, 1);
    add_if(&mut counts.kills, status == 4);
    add(&mut counts.sent, sent);
}

/// Counts a run of the collector with this status, to which so many lines came.
pub(crate) fn count_collect(counts: &mut Counts, lines: usize, status: u8) {
    add(&mut counts.collects, 1);
    add(&mut counts.delivered, lines);
    add_if(&mut counts.stops, status == 8);
}

/// Adds a line for what the hosts did.
fn push_hosts(text: &mut String, counts: &Counts) -> Result<(), NoMemory> {
    write!(text, "{} sessions, ", counts.sessions)?;
    write!(text, "{} killed, ", counts.kills)?;
    write!(text, "{} frames sent, ", counts.sent)?;
    writeln!(text, "{} batches acknowledged", counts.acked)?;
    Ok(())
}

/// Adds a line for what the collector did.
fn push_collector(text: &mut String, counts: &Counts) -> Result<(), NoMemory> {
    write!(text, "{} collected, ", counts.collects)?;
    write!(text, "{} stopped, ", counts.stops)?;
    write!(text, "{} lines delivered, ", counts.delivered)?;
    write!(text, "{} recorded, ", counts.recorded)?;
    write!(text, "{} repeats, ", counts.repeats)?;
    write!(text, "{} gaps, ", counts.gaps)?;
    writeln!(text, "{} bad", counts.bad)?;
    Ok(())
}

/// Adds lines for the counts.
pub(crate) fn push_counts(text: &mut String, counts: &Counts) -> Result<(), NoMemory> {
    push_hosts(text, counts)?;
    push_collector(text, counts)
}
