//! The lines of the status stream.

ghost use Rattle.std.specs.Prelude.{◌≡◌, ◌++◌, None, IfSome, IfOk, OnOk};
ghost use Rattle.std.specs.Fmt.{decimal};
ghost use Rattle.control_escapes.specs.Escapes.{escaped_controls};
ghost use Rattle.osq_program.specs.Answers.{status_number};
ghost use Rattle.osq_program.specs.Report.{HasFields, failed_line, fault_line, final_line, late_line, next_of, refusal_line, refused_line, shrank_line, unread_line};
ghost use Rattle.osq_program.specs.declared.status.Status.TheVariants.{FilesFault};

use crate::status::Status;
use control_escapes::push_text;
use osq_value::{Bytes, NoMemory, Str};
use replay_rounds::Numbers;
use std::alloc::Global;

/// What is written where the words are refused.
pub const USAGE: &str = "usage: osqd COMMAND [OPTIONS]\n";

/// What is written where memory is wanting, which takes none.
pub(crate) const WANTING: &str = "osqd: status 20 OutOfMemory\n";

/// Adds a label and a number.
fn push_field(alloc: Global, line: &mut Bytes, label: &str, number: u64) -> Result<(), NoMemory>
    ensures { OnOk result (line.new ≡ line.old ++ label.now ++ decimal number) }
{
    let text = number.to_string(alloc)?;
    line.extend(label.as_bytes())?;
    line.extend(text.as_bytes())?;
    Ok(())
}

/// Of so many batches the first that the collector has not acknowledged, or 0 where it has them all.
fn next_batch(acknowledged: u64, batches: u64) -> u64
    ensures { result ≡ next_of acknowledged batches }
{
    if acknowledged < batches {
        acknowledged + 1
    } else {
        0
    }
}

/// The final line of a run with this status's number, over a kept list of these numbers, whose link failed so often.
pub fn final_line(alloc: Global, number: u8, kept: Numbers, faults: u64) -> Result<Bytes, NoMemory>
    ensures { IfOk result (λ line. line ≡ final_line number kept faults) }
{
    let next = next_batch(kept.acknowledged, kept.batches);
    let mut line = Bytes::new(alloc);
    push_field(alloc, &mut line, "osqd: done ", u64::from(number))?;
    push_field(alloc, &mut line, " events=", kept.events)?;
    push_field(alloc, &mut line, " batches=", kept.batches)?;
    push_field(alloc, &mut line, " acknowledged=", kept.acknowledged)?;
    push_field(alloc, &mut line, " next=", next)?;
    push_field(alloc, &mut line, " linkfaults=", faults)?;
    line.extend(b"\n")?;
    Ok(line)
}

/// Adds a label and a name, whose control characters are escaped.
fn push_named(line: &mut Bytes, label: &str, name: &Str) -> Result<(), NoMemory>
    ensures { OnOk result (line.new ≡ line.old ++ label.now ++ escaped_controls name.now) }
{
    line.extend(label.as_bytes())?;
    push_text(line, name.as_str().as_bytes())
}

/// The line of a status that has no fields.
pub(crate) fn plain_line(status: &Status) -> Option<&'static str>
    ensures line { IfSome result (λ line. line.now ≡ refusal_line status.now) }
    ensures fields { result ≡ None → HasFields status.now }
{
    match status {
        Status::Ok => Some("osqd: status 0 Ok\n"),
        Status::Usage => Some("osqd: status 64 Usage\n"),
        Status::FilesFault => Some("osqd: status 3 FilesFault\n"),
        Status::ConfigRefused { kind: _, key: _ } => None,
        Status::KeeperFault => Some("osqd: status 4 KeeperFault\n"),
        Status::KeeperRefused => Some("osqd: status 5 KeeperRefused\n"),
        Status::MomentTooLarge { moment: _ } => None,
        Status::SourceFault { source: _ } => None,
        Status::SourceShrank {
            source: _,
            kept: _,
            found: _,
        } => None,
        Status::NumbersSpent => Some("osqd: status 10 NumbersSpent\n"),
        Status::SinkFault => Some("osqd: status 8 SinkFault\n"),
        Status::TicksSpent => Some("osqd: status 11 TicksSpent\n"),
        Status::QueryRefused { place: _, kind: _ } => None,
        Status::OutOfMemory => Some(WANTING),
    }
}

/// Adds the line of a configuration that is refused.
fn push_refused(line: &mut Bytes, kind: &str, key: &Str) -> Result<(), NoMemory>
    ensures { OnOk result (line.new ≡ line.old ++ refused_line kind.now key.now) }
{
    line.extend(b"osqd: status 2 ConfigRefused kind=")?;
    line.extend(kind.as_bytes())?;
    push_named(line, " key=", key)?;
    line.extend(b"\n")?;
    Ok(())
}

/// Adds the line of a moment that is too large.
fn push_late(alloc: Global, line: &mut Bytes, moment: u64) -> Result<(), NoMemory>
    ensures { OnOk result (line.new ≡ line.old ++ late_line moment) }
{
    push_field(alloc, line, "osqd: status 9 MomentTooLarge moment=", moment)?;
    line.extend(b"\n")?;
    Ok(())
}

/// Adds the line of a source that failed.
fn push_failed(line: &mut Bytes, source: &Str) -> Result<(), NoMemory>
    ensures { OnOk result (line.new ≡ line.old ++ failed_line source.now) }
{
    push_named(line, "osqd: status 7 SourceFault source=", source)?;
    line.extend(b"\n")?;
    Ok(())
}

/// Adds the line of a text that is refused.
fn push_fault(alloc: Global, line: &mut Bytes, place: u64, kind: &str) -> Result<(), NoMemory>
    ensures { OnOk result (line.new ≡ line.old ++ fault_line place kind.now) }
{
    push_field(alloc, line, "osqd: status 12 QueryRefused place=", place)?;
    line.extend(b" kind=")?;
    line.extend(kind.as_bytes())?;
    line.extend(b"\n")?;
    Ok(())
}

/// Adds the line of a source that shrank.
fn push_shrank(
    alloc: Global,
    line: &mut Bytes,
    source: &Str,
    kept: u64,
    found: u64,
) -> Result<(), NoMemory>
    ensures { OnOk result (line.new ≡ line.old ++ shrank_line source.now kept found) }
{
    push_named(line, "osqd: status 6 SourceShrank source=", source)?;
    push_field(alloc, line, " kept=", kept)?;
    push_field(alloc, line, " found=", found)?;
    line.extend(b"\n")?;
    Ok(())
}

/// Adds the line of a status that has fields.
fn push_fields(alloc: Global, line: &mut Bytes, status: &Status) -> Result<(), NoMemory>
    requires { HasFields status.now }
    ensures { OnOk result (line.new ≡ line.old ++ refusal_line status.now) }
{
    match status {
        Status::ConfigRefused { kind, key } => push_refused(line, kind, key)?,
        Status::MomentTooLarge { moment } => push_late(alloc, line, *moment)?,
        Status::QueryRefused { place, kind } => push_fault(alloc, line, *place, kind)?,
        Status::SourceFault { source } => push_failed(line, source)?,
        Status::SourceShrank {
            source,
            kept,
            found,
        } => push_shrank(alloc, line, source, *kept, *found)?,
        Status::Ok => unreachable!(),
        Status::Usage => unreachable!(),
        Status::FilesFault => unreachable!(),
        Status::KeeperFault => unreachable!(),
        Status::KeeperRefused => unreachable!(),
        Status::NumbersSpent => unreachable!(),
        Status::SinkFault => unreachable!(),
        Status::TicksSpent => unreachable!(),
        Status::OutOfMemory => unreachable!(),
    }
    Ok(())
}

/// Adds the line of a status.
fn push_status(alloc: Global, line: &mut Bytes, status: &Status) -> Result<(), NoMemory>
    ensures { OnOk result (line.new ≡ line.old ++ refusal_line status.now) }
{
    match plain_line(status) {
        Some(plain) => line.extend(plain.as_bytes()),
        None => push_fields(alloc, line, status),
    }
}

/// The line of a status.
pub(crate) fn refusal_line(alloc: Global, status: &Status) -> Result<Bytes, NoMemory>
    ensures { IfOk result (λ line. line ≡ refusal_line status.now) }
{
    let mut line = Bytes::new(alloc);
    push_status(alloc, &mut line, status)?;
    Ok(line)
}

/// The line of a status, and behind it the final line over a kept list of these numbers, after so many faults of the link.
pub(crate) fn stop_text(
    alloc: Global,
    status: &Status,
    kept: Numbers,
    faults: u64,
) -> Result<Bytes, NoMemory>
    ensures { IfOk result (λ text. text ≡ refusal_line status.now ++ final_line (status_number status.now) kept faults) }
{
    let mut text = refusal_line(alloc, status)?;
    let last = final_line(alloc, status.number(), kept, faults)?;
    text.append(last)?;
    Ok(text)
}

/// The line that tells that the file of this path can't be read, and behind it that of the status.
pub(crate) fn unread_text(alloc: Global, file: &Str) -> Result<Bytes, NoMemory>
    ensures { IfOk result (λ text. text ≡ unread_line file.now ++ refusal_line FilesFault) }
{
    let mut text = Bytes::new(alloc);
    push_named(&mut text, "osqd: file ", file)?;
    text.extend(b" can't be read\n")?;
    push_status(alloc, &mut text, &Status::FilesFault)?;
    Ok(text)
}
