//! What a session tells on the status stream.

ghost use Rattle.std.specs.Prelude.{◌≡◌, ◌≢◌, ◌⊎◌, ◌≤◌, ◌++◌, length, Err, IfOk, OnOk};
ghost use Rattle.osq_value.specs.declared.moment.TheConstants.{LAST_MOMENT};
ghost use Rattle.osq_outside.specs.Causes.{FaultHasCause, Rose};
ghost use Rattle.schedule_notes.specs.Notes.{AreNotes};
ghost use Rattle.daemon_rounds.specs.Configuring.{found_now};
ghost use Rattle.replay_rounds.specs.Noting.{IsGrown, IsNoted, TellsSkipped, skipped_end, skipped_line, skipped_lines, skipped_of};
ghost use Rattle.replay_rounds.specs.declared.noting.NoteError.{NoteError};

use crate::basis::Basis;
use crate::refused::Refused;
use control_escapes::push_text;
use daemon_rounds::discover;
use osq_outside::{Sink, write_all};
use osq_value::{Bytes, NoMemory, Str};
use schedule_notes::schedule_notes;
use session_state::State;
use source_feeds::Feed;
use std::alloc::Global;

/// Why lines of the status stream aren't written.
#[derive(Clone, Copy)]
pub(crate) enum NoteError {
    /// The sink failed.
    SinkFault,
    NoMemory,
}

/// Writes these lines.
fn write_lines<O: Sink>(status: &mut O, lines: &Bytes) -> Result<(), NoteError>
    ensures text { O.tells → OnOk result (O.written status.new ≡ O.written status.old ++ lines.now) }
    ensures grown { O.tells → IsGrown (O.written status.old) (O.written status.new) }
    ensures made { result ≢ Err NoteError.NoMemory }
    ensures cause { FaultHasCause NoteError.SinkFault (O.faults status.old) (O.faults status.new) result }
{
    match write_all(status, lines.as_slice()) {
        Ok(()) => Ok(()),
        Err(_) => Err(NoteError::SinkFault),
    }
}

/// The lines that tell of a configuration, of whose packs these are meant for the host.
fn notes_by(basis: &Basis, found: &[bool], state: &State) -> Result<Bytes, NoMemory>
    requires { length found.now ≡ length basis.now.configured.config.packs }
    ensures { IfOk result (AreNotes basis.now.configured.config basis.now.setup.host found.now basis.now.configured.notes) }
{
    let config = &basis.configured.config;
    let host = &basis.setup.host;
    let left_out = basis.configured.notes.as_slice();
    schedule_notes(basis.alloc, config, host, found, state.queries(), left_out)
}

/// Writes the lines that tell of a configuration, of whose packs these are meant for the host.
pub(crate) fn write_notes<O: Sink>(
    basis: &Basis,
    found: &[bool],
    state: &State,
    status: &mut O,
) -> Result<(), NoteError>
    requires { length found.now ≡ length basis.now.configured.config.packs }
    ensures noted { O.tells → OnOk result (IsNoted basis.now.configured.config basis.now.setup.host found.now basis.now.configured.notes (O.written status.old) (O.written status.new)) }
    ensures grown { O.tells → IsGrown (O.written status.old) (O.written status.new) }
    ensures unmade { result ≡ Err NoteError.NoMemory → status.new ≡ status.old }
    ensures cause { FaultHasCause NoteError.SinkFault (O.faults status.old) (O.faults status.new) result }
{
    let Ok(lines) = notes_by(basis, found, state) else {
        return Err(NoteError::NoMemory);
    };
    write_lines(status, &lines)
}

/// Writes the lines that tell of the configuration which the tick at this moment begins with, before that tick: its Ticked changes no table that discovery
/// sees.
pub(crate) fn note_again<O: Sink>(
    basis: &Basis,
    state: &State,
    status: &mut O,
    moment: u64,
) -> Result<(), NoteError>
    requires { moment ≤ LAST_MOMENT }
    ensures noted { O.tells → OnOk result (IsNoted basis.now.configured.config basis.now.setup.host (found_now basis.now.configured.config state.now moment) basis.now.configured.notes (O.written status.old) (O.written status.new)) }
    ensures grown { O.tells → IsGrown (O.written status.old) (O.written status.new) }
    ensures unmade { result ≡ Err NoteError.NoMemory → status.new ≡ status.old }
    ensures cause { FaultHasCause NoteError.SinkFault (O.faults status.old) (O.faults status.new) result }
{
    let Ok(found) = discover(basis.alloc, state, &basis.configured.config, moment) else {
        return Err(NoteError::NoMemory);
    };
    write_notes(basis, found.as_slice(), state, status)
}

/// Adds how many lines were skipped.
fn push_count(alloc: Global, lines: &mut Bytes, count: u64) -> Result<(), NoMemory>
    ensures { OnOk result (lines.new ≡ lines.old ++ skipped_end count) }
{
    let count = count.to_string(alloc)?;
    lines.extend(b" skipped ")?;
    lines.extend(count.as_bytes())?;
    lines.extend(b" lines\n")
}

/// Adds the line that tells how many lines of the source of this name were skipped.
fn push_named(alloc: Global, lines: &mut Bytes, name: &Str, count: u64) -> Result<(), NoMemory>
    ensures { OnOk result (lines.new ≡ lines.old ++ skipped_of name.now count) }
{
    lines.extend(b"osqd: source ")?;
    push_text(lines, name.as_str().as_bytes())?;
    push_count(alloc, lines, count)?;
    Ok(())
}

/// Adds the line that tells how many lines of a source were skipped, where some were.
fn push_skipped(alloc: Global, lines: &mut Bytes, feed: &Feed) -> Result<(), NoMemory>
    ensures { OnOk result (lines.new ≡ lines.old ++ skipped_line feed.now) }
{
    if feed.skipped() == 0 {
        Ok(())
    } else {
        push_named(alloc, lines, feed.name(), feed.skipped())
    }
}

/// A line for each source of which lines were skipped, in the order of the sources. Control characters of a name are escaped.
pub fn skipped_lines(alloc: Global, feeds: &[Feed]) -> Result<Bytes, NoMemory>
    ensures { IfOk result (λ lines. lines ≡ skipped_lines feeds.now) }
{
    let mut lines = Bytes::new(alloc);
    for feed in feeds {
        push_skipped(alloc, &mut lines, feed)?;
    }
    Ok(lines)
}

/// Writes a line for each source of which lines were skipped.
pub(crate) fn write_skipped<O: Sink>(
    alloc: Global,
    feeds: &[Feed],
    status: &mut O,
) -> Result<(), NoteError>
    ensures skipped { O.tells → OnOk result (O.written status.new ≡ O.written status.old ++ skipped_lines feeds.now) }
    ensures grown { O.tells → IsGrown (O.written status.old) (O.written status.new) }
    ensures unmade { result ≡ Err NoteError.NoMemory → status.new ≡ status.old }
    ensures cause { FaultHasCause NoteError.SinkFault (O.faults status.old) (O.faults status.new) result }
{
    let Ok(lines) = skipped_lines(alloc, feeds) else {
        return Err(NoteError::NoMemory);
    };
    write_lines(status, &lines)
}

/// The same refusal. Before it a line is written for each source of which lines were skipped, as far as the sink and memory allow.
pub(crate) fn told<O: Sink>(
    alloc: Global,
    feeds: &[Feed],
    status: &mut O,
    refused: Refused,
) -> Refused
    ensures same { result ≡ refused }
    ensures skipped { O.tells → TellsSkipped feeds.now (O.written status.old) (O.written status.new) ⊎ Rose (O.faults status.old) (O.faults status.new) }
    ensures grown { O.tells → IsGrown (O.written status.old) (O.written status.new) }
    ensures later { O.faults status.old ≤ O.faults status.new }
{
    let _written = write_skipped(alloc, feeds, status);
    refused
}
