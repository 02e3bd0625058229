//! Result lines, as osquery's filesystem logger writes them.

ghost use Rattle.std.specs.Prelude.{◌≡◌, ◌≤◌, ◌++◌, IfOk, OnOk};
ghost use Rattle.std.specs.Fmt.{decimal};
ghost use Rattle.osq_value.specs.declared.moment.TheConstants.{LAST_MOMENT};
ghost use Rattle.result_batches.specs.Labels.{labelled, labelled_rows};
ghost use Rattle.result_batches.specs.Lines.{AreLines, added_line, added_lines, difference_line, difference_text, end_text, head_text, lines_text, snapshot_line};

use crate::escape::push_quoted;
use crate::labels::{Labels, labels_of};
use crate::object::{push_array, push_object};
use calendar_text::calendar_of;
use entry_model::entry::Batch;
use itoa::Buffer;
use osq_value::{Bytes, NoMemory, Row, TextList};
use pack_rules::schedule::{Form, Mode};
use std::alloc::Global;

/// Adds a decimal number.
fn push_number(line: &mut Bytes, number: u64) -> Result<(), NoMemory>
    ensures { OnOk result (line.new ≡ line.old ++ decimal number) }
{
    let mut buffer = Buffer::new();
    line.extend(buffer.format(number).as_bytes())
}

/// What each line of a batch begins with.
fn head_of(alloc: Global, batch: &Batch, host: &str, calendar: &str) -> Result<Bytes, NoMemory>
    ensures { IfOk result (λ head. head ≡ head_text host.now calendar.now batch.now) }
{
    let mut head = Bytes::new(alloc);
    head.extend(b"{\"name\":")?;
    push_quoted(&mut head, batch.query.name.as_str().as_bytes())?;
    head.extend(b",\"hostIdentifier\":")?;
    push_quoted(&mut head, host.as_bytes())?;
    head.extend(b",\"calendarTime\":")?;
    push_quoted(&mut head, calendar.as_bytes())?;
    head.extend(b",\"unixTime\":")?;
    push_number(&mut head, batch.moment)?;
    head.extend(b",\"batch\":")?;
    push_number(&mut head, batch.number)?;
    Ok(head)
}

/// Adds the end of a line: what decorates it, before the brace that closes it.
fn push_end(line: &mut Bytes, decoration: &Bytes) -> Result<(), NoMemory>
    ensures { OnOk result (line.new ≡ line.old ++ end_text decoration.now) }
{
    line.extend(decoration.as_slice())?;
    line.extend(b"}\n")
}

/// Adds the line of an added row.
fn push_line(
    lines: &mut Bytes,
    head: &Bytes,
    labels: &Labels,
    decoration: &Bytes,
    row: &Row,
) -> Result<(), NoMemory>
    ensures { OnOk result (lines.new ≡ lines.old ++ added_line head.now decoration.now (labelled labels.now row.now)) }
{
    lines.extend(head.as_slice())?;
    lines.extend(b",\"action\":\"added\",\"columns\":")?;
    push_object(lines, labels, row)?;
    push_end(lines, decoration)?;
    Ok(())
}

/// A line for each added row.
fn added(
    alloc: Global,
    head: &Bytes,
    labels: &Labels,
    decoration: &Bytes,
    rows: &[Row],
) -> Result<Bytes, NoMemory>
    ensures { IfOk result (λ lines. lines ≡ added_lines head.now decoration.now (labelled_rows labels.now rows.now)) }
{
    let mut lines = Bytes::new(alloc);
    for row in rows {
        push_line(&mut lines, head, labels, decoration, row)?;
    }
    Ok(lines)
}

/// One line for the added rows.
fn difference(
    alloc: Global,
    head: &Bytes,
    labels: &Labels,
    decoration: &Bytes,
    rows: &[Row],
) -> Result<Bytes, NoMemory>
    ensures { IfOk result (λ line. line ≡ difference_text head.now decoration.now (labelled_rows labels.now rows.now)) }
{
    let mut line = Bytes::new(alloc);
    line.extend(head.as_slice())?;
    line.extend(b",\"diffResults\":{\"added\":")?;
    push_array(&mut line, labels, rows)?;
    line.extend(b",\"removed\":[]}")?;
    push_end(&mut line, decoration)?;
    Ok(line)
}

/// One line for the added rows, where there are some.
fn difference_of_some(
    alloc: Global,
    head: &Bytes,
    labels: &Labels,
    decoration: &Bytes,
    rows: &[Row],
) -> Result<Bytes, NoMemory>
    ensures { IfOk result (λ line. line ≡ difference_line head.now decoration.now (labelled_rows labels.now rows.now)) }
{
    if rows.is_empty() {
        Ok(Bytes::new(alloc))
    } else {
        difference(alloc, head, labels, decoration, rows)
    }
}

/// One line for all rows.
fn snapshot(
    alloc: Global,
    head: &Bytes,
    labels: &Labels,
    decoration: &Bytes,
    rows: &[Row],
) -> Result<Bytes, NoMemory>
    ensures { IfOk result (λ line. line ≡ snapshot_line head.now decoration.now (labelled_rows labels.now rows.now)) }
{
    let mut line = Bytes::new(alloc);
    line.extend(head.as_slice())?;
    line.extend(b",\"action\":\"snapshot\",\"snapshot\":")?;
    push_array(&mut line, labels, rows)?;
    push_end(&mut line, decoration)?;
    Ok(line)
}

/// The lines of a batch by its mode and the form.
fn lines_of(
    alloc: Global,
    batch: &Batch,
    form: Form,
    head: &Bytes,
    labels: &Labels,
    decoration: &Bytes,
) -> Result<Bytes, NoMemory>
    ensures { IfOk result (λ lines. lines ≡ lines_text batch.now.query.mode form head.now decoration.now (labelled_rows labels.now batch.now.rows)) }
{
    let rows = batch.rows.as_slice();
    match batch.query.mode {
        Mode::Evented => match form {
            Form::Event => added(alloc, head, labels, decoration, rows),
            Form::Batch => difference_of_some(alloc, head, labels, decoration, rows),
        },
        Mode::Snapshot => snapshot(alloc, head, labels, decoration, rows),
    }
}

/// The lines of a batch, each ended by a line feed. `names` are the names of the result's columns, and `host` is the host's
/// identifier. A batch of an evented query has a line for each row, or in the form `Batch` one line for all its rows where it
/// has some; a batch of a snapshot always has one line. Each value is a string and Null the empty one, and of equal names the
/// last alone is written. The moment is shown in UTC. The rows are as wide as the names: a name or a value that has no
/// partner isn't written. `decoration` stands before the brace that closes each line: it is empty, or a comma and a field with its value.
///
/// The fields are those of osquery's result lines, and `batch` beside them.
///
/// ```
/// let lines = result_lines(alloc, &batch, &names, "h1", Form::Event, &Bytes::new(alloc))?;
/// // of the first batch of the evented query `u`, at the moment 1000, with the name `username` and the one row of `root`:
/// // {"name":"u","hostIdentifier":"h1","calendarTime":"Thu Jan 01 00:16:40 1970 UTC","unixTime":1000,"batch":1,
/// // "action":"added","columns":{"username":"root"}}, in one line
/// ```
pub fn result_lines(
    alloc: Global,
    batch: &Batch,
    names: &TextList,
    host: &str,
    form: Form,
    decoration: &Bytes,
) -> Result<Bytes, NoMemory>
    requires { batch.now.moment ≤ LAST_MOMENT }
    ensures { IfOk result (AreLines form host.now names.now decoration.now batch.now) }
{
    let calendar = calendar_of(alloc, batch.moment)?;
    let head = head_of(alloc, batch, host, calendar.as_str())?;
    let labels = labels_of(alloc, names)?;
    lines_of(alloc, batch, form, &head, &labels, decoration)
}
