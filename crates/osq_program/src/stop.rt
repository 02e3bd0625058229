//! Runs that end before their command is done, and what the status stream then has.

ghost use Rattle.std.specs.Prelude.{◌≡◌, ◌≤◌, ◌⊎◌};
ghost use Rattle.osq_outside.specs.Causes.{Rose};
ghost use Rattle.osq_program.specs.Report.{EndsAs, IsRefusedAs, IsUnread, Tells, TellsStop, refusal_line, unread_text};
ghost use Rattle.osq_program.specs.Unconfigured.{IsAnswered, unconfigured_text};

use crate::configuration::Unconfigured;
use crate::report::{WANTING, plain_line, refusal_line, stop_text, unread_text};
use crate::status::Status;
use osq_outside::{Sink, write_all};
use osq_value::Str;
use replay_rounds::Numbers;
use std::alloc::Global;

/// Writes these bytes, as far as the sink allows.
pub(crate) fn write<O: Sink>(sink: &mut O, text: &[u8])
    ensures told { O.tells → Tells (Rose (O.faults sink.old) (O.faults sink.new)) (O.written sink.old) (O.written sink.new) text.now }
    ensures later { O.faults sink.old ≤ O.faults sink.new }
{
    let _written = write_all(sink, text);
}

/// Tells that memory was wanting, which takes none.
pub(crate) fn starve<O: Sink>(sink: &mut O) -> Status
    ensures same { result ≡ Status.OutOfMemory }
    ensures told { O.tells → Tells (Rose (O.faults sink.old) (O.faults sink.new)) (O.written sink.old) (O.written sink.new) (refusal_line Status.OutOfMemory) }
    ensures later { O.faults sink.old ≤ O.faults sink.new }
{
    write(sink, WANTING.as_bytes());
    Status::OutOfMemory
}

/// Tells of a status that has fields.
fn tell_fields<O: Sink>(alloc: Global, sink: &mut O, status: Status) -> Status
    ensures same { (result ≡ status) ⊎ (result ≡ Status.OutOfMemory) }
    ensures told { O.tells → Tells (Rose (O.faults sink.old) (O.faults sink.new)) (O.written sink.old) (O.written sink.new) (refusal_line result) }
    ensures later { O.faults sink.old ≤ O.faults sink.new }
{
    let Ok(line) = refusal_line(alloc, &status) else {
        return starve(sink);
    };
    write(sink, line.as_slice());
    status
}

/// Tells on the status stream why a command isn't done. Memory is wanted for what the status carries alone.
pub(crate) fn refuse<O: Sink>(alloc: Global, sink: &mut O, status: Status) -> Status
    ensures same { IsRefusedAs status result }
    ensures told { O.tells → Tells (Rose (O.faults sink.old) (O.faults sink.new)) (O.written sink.old) (O.written sink.new) (refusal_line result) }
    ensures later { O.faults sink.old ≤ O.faults sink.new }
{
    let Some(line) = plain_line(&status) else {
        return tell_fields(alloc, sink, status);
    };
    write(sink, line.as_bytes());
    status
}

/// Tells why a session isn't done, and of its kept list, which has these numbers.
fn stop_loaded<O: Sink>(
    alloc: Global,
    sink: &mut O,
    status: Status,
    kept: Numbers,
    faults: u64,
) -> Status
    ensures same { (result ≡ status) ⊎ (result ≡ Status.OutOfMemory) }
    ensures told { O.tells → EndsAs (O.written sink.old) (O.written sink.new) status result kept faults ⊎ Rose (O.faults sink.old) (O.faults sink.new) }
    ensures later { O.faults sink.old ≤ O.faults sink.new }
{
    let Ok(text) = stop_text(alloc, &status, kept, faults) else {
        return starve(sink);
    };
    write(sink, text.as_slice());
    status
}

/// Tells on the status stream why a session isn't done, and behind that the final line, where it has the numbers of its kept list. The link failed so
/// often.
pub(crate) fn stop<O: Sink>(
    alloc: Global,
    sink: &mut O,
    status: Status,
    kept: Option<Numbers>,
    faults: u64,
) -> Status
    ensures same { (result ≡ status) ⊎ (result ≡ Status.OutOfMemory) }
    ensures told { O.tells → TellsStop (Rose (O.faults sink.old) (O.faults sink.new)) (O.written sink.old) (O.written sink.new) status result kept faults }
    ensures later { O.faults sink.old ≤ O.faults sink.new }
{
    match kept {
        Some(kept) => stop_loaded(alloc, sink, status, kept, faults),
        None => refuse(alloc, sink, status),
    }
}

/// Tells of the file that can't be read.
pub(crate) fn refuse_unread<O: Sink>(alloc: Global, sink: &mut O, file: &Str) -> Status
    ensures unread { IsUnread result }
    ensures told { O.tells → Tells (Rose (O.faults sink.old) (O.faults sink.new)) (O.written sink.old) (O.written sink.new) (unread_text file.now result) }
{
    let Ok(text) = unread_text(alloc, file) else {
        return starve(sink);
    };
    write(sink, text.as_slice());
    Status::FilesFault
}

/// Tells on the status stream why a command has no configuration, and of the file that can't be read, where it is that.
pub(crate) fn refuse_unconfigured<O: Sink>(
    alloc: Global,
    sink: &mut O,
    refused: Unconfigured,
) -> Status
    ensures same { IsAnswered refused result }
    ensures told { O.tells → Tells (Rose (O.faults sink.old) (O.faults sink.new)) (O.written sink.old) (O.written sink.new) (unconfigured_text refused result) }
{
    match refused {
        Unconfigured::Unread { file } => refuse_unread(alloc, sink, &file),
        Unconfigured::Refused { status } => refuse(alloc, sink, status),
    }
}
