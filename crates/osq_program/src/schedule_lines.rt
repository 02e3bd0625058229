//! The lines that show a schedule.

ghost use Rattle.std.specs.Prelude.{◌≡◌, ◌++◌, IfOk, OnOk};
ghost use Rattle.osq_program.specs.Checking.{mode_text, query_line, schedule_lines};

use osq_value::{Bytes, NoMemory};
use pack_rules::schedule::{Mode, Scheduled};
use std::alloc::Global;

/// The word for a mode.
fn word_of(mode: Mode) -> &'static str
    ensures { result.now ≡ mode_text mode }
{
    match mode {
        Mode::Evented => "evented",
        Mode::Snapshot => "snapshot",
    }
}

/// Adds the line of a query: its name, the seconds between its batches, and its mode.
fn push_line(alloc: Global, lines: &mut Bytes, scheduled: &Scheduled) -> Result<(), NoMemory>
    ensures { OnOk result (lines.new ≡ lines.old ++ query_line scheduled.now) }
{
    let interval = scheduled.interval.to_string(alloc)?;
    lines.extend(scheduled.key.name.as_str().as_bytes())?;
    lines.extend(b" ")?;
    lines.extend(interval.as_bytes())?;
    lines.extend(b" ")?;
    lines.extend(word_of(scheduled.key.mode).as_bytes())?;
    lines.extend(b"\n")
}

/// A line for each query, in their order.
pub(crate) fn lines_of(alloc: Global, queries: &[Scheduled]) -> Result<Bytes, NoMemory>
    ensures { IfOk result (λ lines. lines ≡ schedule_lines queries.now) }
{
    let mut lines = Bytes::new(alloc);
    for scheduled in queries {
        push_line(alloc, &mut lines, scheduled)?;
    }
    Ok(lines)
}
