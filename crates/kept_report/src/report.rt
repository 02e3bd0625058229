//! The lines of a kept list's values.

ghost use Rattle.std.specs.Prelude.{◌≡◌, ◌++◌, IfOk, OnOk};
ghost use Rattle.std.specs.Fmt.{decimal};
ghost use Rattle.kept_report.specs.Reports.{IsReport, counts_text, field_line, floors_text, run_line, run_lines};

use crate::order::{ordered, word_of};
use entry_model::restored::{Restored, Run};
use itoa::Buffer;
use osq_value::{Bytes, NoMemory};
use std::alloc::Global;

/// Adds a label and a number.
pub(crate) fn push_number(text: &mut Bytes, label: &str, number: u64) -> Result<(), NoMemory>
    ensures { OnOk result (text.new ≡ text.old ++ (label.now ++ decimal number)) }
{
    let mut buffer = Buffer::new();
    text.extend(label.as_bytes())?;
    text.extend(buffer.format(number).as_bytes())
}

/// Adds a line of a label and a number.
#[tactic(auto, unfolding(crate::specs::Reports::field_line))]
fn push_field(text: &mut Bytes, label: &str, number: u64) -> Result<(), NoMemory>
    ensures { OnOk result (text.new ≡ text.old ++ field_line label.now number) }
{
    push_number(text, label, number)?;
    text.extend(b"\n")
}

/// Adds a line for each evented table: up to which number its events are gone.
#[tactic(auto, unfolding(crate::specs::Reports::floors_text))]
fn push_floors(text: &mut Bytes, floors: [u64; 3]) -> Result<(), NoMemory>
    ensures { OnOk result (text.new ≡ text.old ++ floors_text floors) }
{
    push_field(text, "floor process_events ", floors[0])?;
    push_field(text, "floor socket_events ", floors[1])?;
    push_field(text, "floor file_events ", floors[2])
}

/// Adds the lines of what is counted, and between them those of the floors.
#[tactic(auto, unfolding(crate::specs::Reports::counts_text))]
fn push_counts(text: &mut Bytes, values: &Restored) -> Result<(), NoMemory>
    ensures { OnOk result (text.new ≡ text.old ++ counts_text values.now) }
{
    push_field(text, "sessions ", values.sessions)?;
    push_field(text, "events ", values.last)?;
    push_floors(text, values.floors)?;
    push_field(text, "batches ", values.batches)?;
    push_field(text, "acknowledged ", values.acked)
}

/// Adds the line of a query.
#[tactic(auto, unfolding(crate::specs::Reports::field_line))]
fn push_run(text: &mut Bytes, run: &Run) -> Result<(), NoMemory>
    ensures { OnOk result (text.new ≡ text.old ++ run_line run.now) }
{
    text.extend(b"query ")?;
    text.extend(run.key.name.as_str().as_bytes())?;
    text.extend(b" ")?;
    text.extend(word_of(run.key.mode).as_bytes())?;
    push_number(text, " cursor ", run.hi)?;
    push_number(text, " batch ", run.number)?;
    push_field(text, " moment ", run.moment)
}

/// Adds a line for each query.
fn push_runs(text: &mut Bytes, runs: &[Run]) -> Result<(), NoMemory>
    ensures { OnOk result (text.new ≡ text.old ++ run_lines runs.now) }
{
    for run in runs {
        push_run(text, run)?;
    }
    Ok(())
}

/// The values of a kept list as lines of text: how many sessions and events it has, up to which number the events of each evented table are gone,
/// how many batches there are and how many of them a collector acknowledged, and for each query that has a batch, in byte order of names, texts and
/// modes, its mode, its cursor, and the number and the moment of its last batch.
///
/// ```
/// let text = report_text(alloc, keeper.load(alloc)?)?;
/// // sessions 1
/// // events 2
/// // floor process_events 0
/// // floor socket_events 0
/// // floor file_events 0
/// // batches 2
/// // acknowledged 0
/// // query fe evented cursor 2 batch 2 moment 1060
/// ```
pub fn report_text(alloc: Global, values: Restored) -> Result<Bytes, NoMemory>
    ensures { IfOk result (IsReport values) }
{
    let mut text = Bytes::new(alloc);
    push_counts(&mut text, &values)?;
    let runs = ordered(values.runs)?;
    push_runs(&mut text, runs.as_slice())?;
    Ok(text)
}
