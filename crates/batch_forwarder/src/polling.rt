//! The answers of a collector are polled.

ghost use Rattle.std.specs.Prelude.{◌≡◌, ◌≤◌, ◌∷◌, [], ℕ, length, Option, IfOk, OnOk, OnErr};
ghost use Rattle.osq_outside.specs.Causes.{Rose};
ghost use Rattle.collector_answers.specs.Reads.{IsDigest, IsHeld, IsHeldTold};
ghost use Rattle.batch_forwarder.specs.Polling.{IsMark, Marks, PollsAll, PollsPart, mark_if, mark_of};

use crate::forwarder::Forwarder;
use crate::link::{Link, LinkError};
use collector_answers::{Answer, read_answer};
use osq_value::{NoMemory, Sequence, Str};
use std::alloc::Global;

/// The most answers that are polled at once.
const POLLS: u64 = 1000;

/// How many frames of this host are recorded, where it is the one told of.
fn mark_if(host: &str, told: &Str, recorded: u64) -> Option<u64>
    ensures { result ≡ mark_if host.now told.now recorded }
{
    if told.as_str().as_bytes() == host.as_bytes() {
        Some(recorded)
    } else {
        None
    }
}

/// How many frames of this host are recorded, where the answer tells of it.
fn mark_of(host: &str, answer: &Answer) -> Option<u64>
    ensures { result ≡ mark_of host.now answer.now }
{
    match answer {
        Answer::Recorded {
            host: told,
            number: _,
            recorded,
        } => mark_if(host, told, *recorded),
        Answer::Repeat {
            host: told,
            number: _,
            recorded,
        } => mark_if(host, told, *recorded),
        Answer::Gap {
            host: told,
            number: _,
            recorded,
        } => mark_if(host, told, *recorded),
        Answer::Conflict {
            host: told,
            number: _,
            recorded,
            kept: _,
            found: _,
        } => mark_if(host, told, *recorded),
        Answer::Bad { kind: _ } => None,
    }
}

/// What an answer tells of a frame can be held: its host is UTF-8, and its numbers have 64 bits.
fn held_told(host: &Str, number: u64, recorded: u64)
    ensures { IsHeldTold host.now number recorded }
{
    let _bytes = host.as_str().as_bytes();
}

/// A digest has 32 bytes.
fn held_digest(digest: &[u8])
    requires { length digest.now ≡ 32 }
    ensures { IsDigest digest.now }
{
    let _size = digest.len();
}

/// An answer can be held. What a line is read to is one alone for this.
fn held(answer: &Answer)
    ensures { IsHeld answer.now }
{
    match answer {
        Answer::Recorded {
            host,
            number,
            recorded,
        } => held_told(host, *number, *recorded),
        Answer::Repeat {
            host,
            number,
            recorded,
        } => held_told(host, *number, *recorded),
        Answer::Gap {
            host,
            number,
            recorded,
        } => held_told(host, *number, *recorded),
        Answer::Conflict {
            host,
            number,
            recorded,
            kept,
            found,
        } => {
            held_told(host, *number, *recorded);
            held_digest(kept);
            held_digest(found);
        }
        Answer::Bad { kind: _ } => {}
    }
}

/// The mark that a line gives this host.
fn mark_in(alloc: Global, host: &str, line: &[u8]) -> Result<Option<u64>, NoMemory>
    ensures { IfOk result (IsMark host.now line.now) }
{
    match read_answer(alloc, line)? {
        None => Ok(None),
        Some(answer) => {
            held(&answer);
            Ok(mark_of(host, &answer))
        }
    }
}

/// Takes a mark. It is added where it moves the forwarder's.
fn take_mark(
    forwarder: &mut Forwarder,
    mark: Option<u64>,
    marks: &mut Sequence<u64>,
) -> Result<(), NoMemory>
    ensures ok { OnOk result (Marks (mark ∷ []) forwarder.old forwarder.new marks.old marks.new) }
    ensures err { OnErr result ((forwarder.new ≡ forwarder.old) × (marks.new ≡ marks.old)) }
{
    let Some(recorded) = mark else {
        return Ok(());
    };
    if forwarder.moves(recorded) {
        marks.push(recorded)?;
        forwarder.on_answer(recorded);
    }
    Ok(())
}

/// Takes an answer: the mark that it gives this host is added where it moves the forwarder's.
fn take_answer(
    alloc: Global,
    forwarder: &mut Forwarder,
    host: &str,
    line: &[u8],
    marks: &mut Sequence<u64>,
) -> Result<(), NoMemory>
    ensures ok { OnOk result ((mark : Option ℕ) × IsMark host.now line.now mark × Marks (mark ∷ []) forwarder.old forwarder.new marks.old marks.new) }
    ensures err { OnErr result ((forwarder.new ≡ forwarder.old) × (marks.new ≡ marks.old)) }
{
    let mark = mark_in(alloc, host, line)?;
    take_mark(forwarder, mark, marks)
}

/// Polls answers until none waits, the link fails, or 1000 were polled. The marks of this host that move the forwarder's mark on are added,
/// in order. Want of memory may lose the one answer that was polled last; the marks that were added are the forwarder's all the same.
pub fn poll_marks<L: Link>(
    alloc: Global,
    forwarder: &mut Forwarder,
    link: &mut L,
    host: &str,
    marks: &mut Sequence<u64>,
) -> Result<(), NoMemory>
    ensures ok { OnOk result (PollsAll L.tells (Rose (L.faults link.old) (L.faults link.new)) host.now (L.waiting link.old) (L.waiting link.new) forwarder.old forwarder.new marks.old marks.new) }
    ensures err { OnErr result (PollsPart L.tells host.now (L.waiting link.old) (L.waiting link.new) forwarder.old forwarder.new marks.old marks.new) }
    ensures sent { L.tells → L.sent link.new ≡ L.sent link.old }
    ensures later { L.faults link.old ≤ L.faults link.new }
{
    for _ in 0..POLLS {
        match link.poll() {
            Ok(Some(line)) => take_answer(alloc, forwarder, host, line.as_slice(), marks)?,
            Ok(None) => return Ok(()),
            Err(LinkError::Fault) => return Ok(()),
            Err(LinkError::NoMemory) => return Err(NoMemory),
        }
    }
    Ok(())
}
