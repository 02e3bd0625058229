//! The frames of a host that a ledger's file records.

ghost use Rattle.std.specs.Prelude.{◌≡◌, ◌+◌, ◌==◌, ◌&&◌, ℕ, List, length, bytes_eq, if◌then◌else◌, ◌∷◌, ◌++◌, [], IfOk, OnOk};
ghost use Rattle.osq_outside.specs.Causes.{FaultHasCause};
ghost use Rattle.osq_outside.specs.declared.files.FilesError.{FilesError};
ghost use Rattle.collector_ledger.specs.Frames.{AreOpened, AreRecorded, OneRecord, TakesFrame};

use batch_frames::Frame;
use collector_answers::{Judged, judge};
use memchr::memchr;
use osq_outside::{Files, FilesError};
use osq_value::{Bytes, NoMemory, Sequence};
use std::alloc::Global;

/// Frames, one after another.
pub type FrameList = Sequence<Frame>;

/// The number is the next behind so many.
fn is_next(number: u64, count: u64) -> bool
    ensures { result ≡ (number == count + 1) }
{
    number > count && number - count == 1
}

/// Takes a frame where it is the next of the host.
fn take_frame(frames: &mut FrameList, frame: Frame, host: &str) -> Result<(), NoMemory>
    ensures { OnOk result (frames.new ≡ frames.old ++ (if bytes_eq frame.host host.now && frame.batch.number == length frames.old + 1 then frame ∷ [] else [])) }
{
    if frame.host.as_str() == host && is_next(frame.batch.number, frames.len() as u64) {
        frames.push(frame)
    } else {
        Ok(())
    }
}

/// Takes a line of the file: the next frame of the host, and nothing else.
fn take_line(alloc: Global, frames: &mut FrameList, line: &[u8], host: &str) -> Result<(), NoMemory>
    ensures { OnOk result (TakesFrame host.now frames.old line.now frames.new (length frames.old)) }
{
    match judge(alloc, line)? {
        Judged::Bad { kind: _ } => Ok(()),
        Judged::Framed { frame, digest: _ } => take_frame(frames, frame, host),
    }
}

/// The frames of the host that a file records, in their order: of the frames that its lines are those of the host, each where its number
/// is the count of those before it plus 1. What stands behind the last line feed is a line too. A line that is no frame is passed over,
/// and so is a frame of another host, one that repeats a number, and one that leaves a gap. No other frame is held, whatever the file
/// has.
pub fn frames_for(alloc: Global, file: &[u8], host: &str) -> Result<FrameList, NoMemory>
    ensures { IfOk result (AreRecorded file.now host.now) }
{
    let mut frames = FrameList::new(alloc);
    let mut rest = file;
    while let Some(at) = memchr(b'\n', rest) {
        let (line, behind) = rest.split_at(at);
        let (_, behind) = behind.split_at(1);
        take_line(alloc, &mut frames, line, host)?;
        rest = behind;
    }
    take_line(alloc, &mut frames, rest, host)?;
    Ok(frames)
}

/// The frames of the host that the file of this path records. Where there is no such file, there are none. The file is read whole, and let
/// go before the answer.
pub fn open_frames<F: Files>(
    alloc: Global,
    files: &mut F,
    path: &str,
    host: &str,
) -> Result<FrameList, FilesError>
    ensures opened { F.tells → IfOk result (AreOpened (F.file files.old path.now) host.now) }
    ensures same { F.tells → (path : List ℕ) → F.file files.new path ≡ F.file files.old path }
    ensures cause { FaultHasCause FilesError.Fault (F.faults files.old) (F.faults files.new) result }
{
    let file = files.read(alloc, path)?.unwrap_or(Bytes::new(alloc));
    Ok(frames_for(alloc, file.as_slice(), host)?)
}

/// The law that a file records one list of frames of a host.
pub fn one_record()
    ensures { OneRecord }
{}
