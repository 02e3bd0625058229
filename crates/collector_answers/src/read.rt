//! The reader of the one text of an answer.

ghost use Rattle.std.specs.Prelude.{◌≡◌, ℕ, ◌<◌, ◌^◌, List, ◌++◌, IfOk, Some, codes, option_map};
ghost use Rattle.std.specs.Fmt.{decimal};
ghost use Rattle.collector_answers.specs.Fields.{ShowsPlain, TakesBad, TakesCounted, TakesDigest, TakesTold};
ghost use Rattle.collector_answers.specs.Lines.{conflict_line, front_of, kind_name, told};
ghost use Rattle.collector_answers.specs.Reads.{IsDigest, IsHeldTold, Reads, Shows};
ghost use Rattle.collector_answers.specs.declared.answer.Answer.TheVariants as answer;
ghost use Rattle.collector_answers.specs.declared.answer.BadAnswer.{BadAnswer};

use crate::answer::{Answer, BadAnswer, Digest};
use crate::line::{BAD, CONFLICT, GAP, RECORDED, REPEAT, answer_line};
use batch_frames::spelled::Spelled;
use osq_value::{NoMemory, Str};
use std::alloc::Global;
use std::str;

/// What an answer tells of a frame before the count.
#[derive(Drop)]
pub(crate) struct Told {
    pub host: Str,
    pub number: u64,
}

/// What an answer tells of a frame.
#[derive(Drop)]
pub(crate) struct Counted {
    pub host: Str,
    pub number: u64,
    pub recorded: u64,
}

/// The host and the number behind a front, and what stands behind the key of the count.
fn take_told<'a>(
    alloc: Global,
    line: &'a [u8],
    front: &str,
) -> Result<Option<(Told, &'a [u8])>, NoMemory>
    ensures { IfOk result (λ taken. TakesTold line.now front.now (option_map (λ t. (t.0, t.1.now)) taken)) }
{
    let Some(rest) = line.strip_prefix(front.as_bytes()) else {
        return Ok(None);
    };
    let (host, rest) = Str::take(alloc, rest)?;
    let Some(rest) = rest.strip_prefix(b",\"number\":") else {
        return Ok(None);
    };
    let (number, rest) = u64::take(alloc, rest)?;
    match rest.strip_prefix(b",\"recorded\":") {
        Some(rest) => Ok(Some((Told { host, number }, rest))),
        None => Ok(None),
    }
}

/// The whole number that bytes spell. Of other bytes it may be any.
fn number_of(digits: &[u8]) -> Option<u64>
    ensures { (n : ℕ) → n < 2 ^ 64 → digits.now ≡ decimal n → result ≡ Some n }
{
    match str::from_utf8(digits) {
        Ok(text) => text.parse::<u64>().ok(),
        Err(_) => None,
    }
}

/// What a line tells of a frame, behind a front.
fn take_counted(alloc: Global, line: &[u8], front: &str) -> Result<Option<Counted>, NoMemory>
    ensures { IfOk result (λ counted. TakesCounted line.now front.now counted) }
{
    let Some((told, rest)) = take_told(alloc, line, front)? else {
        return Ok(None);
    };
    let Told { host, number } = told;
    let Some(digits) = rest.strip_suffix(b"}") else {
        return Ok(None);
    };
    match number_of(digits) {
        Some(recorded) => Ok(Some(Counted {
            host,
            number,
            recorded,
        })),
        None => Ok(None),
    }
}

/// A digest behind its key, and what stands behind its digits.
fn digest<'a>(bytes: &'a [u8], front: &str) -> Option<(Digest, &'a [u8])>
    ensures { TakesDigest bytes.now front.now (option_map (λ t. (t.0, t.1.now)) result) }
{
    let (digits, rest) = bytes.strip_prefix(front.as_bytes())?.split_at_checked(64)?;
    let mut digest = [0u8; 32];
    match hex::decode_to_slice(digits, &mut digest) {
        Ok(()) => Some((digest, rest)),
        Err(_) => None,
    }
}

/// Both digests of a conflict.
fn digests(bytes: &[u8]) -> Option<(Digest, Digest)>
    ensures { (kept found : List ℕ) → IsDigest kept → IsDigest found → bytes.now ≡ conflict_line kept found → result ≡ Some (kept, found) }
{
    let (kept, rest) = digest(bytes, ",\"kept\":\"")?;
    let (found, _) = digest(rest, "\",\"found\":\"")?;
    Some((kept, found))
}

/// The conflict that a line tells.
fn conflict(alloc: Global, line: &[u8]) -> Result<Option<Answer>, NoMemory>
    ensures { (host kept found : List ℕ) (number recorded : ℕ) → IsHeldTold host number recorded → IsDigest kept → IsDigest found
        → line.now ≡ told (front_of (codes "conflict")) host number recorded ++ conflict_line kept found
        → IfOk result (λ shown. shown ≡ Some (answer.Conflict host number recorded kept found)) }
{
    let Some((told, rest)) = take_told(alloc, line, CONFLICT)? else {
        return Ok(None);
    };
    let Told { host, number } = told;
    let (recorded, rest) = u64::take(alloc, rest)?;
    let Some(both) = digests(rest) else {
        return Ok(None);
    };
    let kept = both.0;
    let found = both.1;
    Ok(Some(Answer::Conflict {
        host,
        number,
        recorded,
        kept,
        found,
    }))
}

/// The kind of bad line with this name.
fn kind_named(name: &str) -> Option<BadAnswer>
    ensures { (kind : BadAnswer) → name.now ≡ kind_name kind → result ≡ Some kind }
{
    match name {
        "TooLong" => Some(BadAnswer::TooLong),
        "NotJson" => Some(BadAnswer::NotJson),
        "WrongShape" => Some(BadAnswer::WrongShape),
        "BadDigest" => Some(BadAnswer::BadDigest),
        "NotCanonical" => Some(BadAnswer::NotCanonical),
        _ => None,
    }
}

/// The kind of bad line that a line tells.
fn bad(line: &[u8]) -> Option<BadAnswer>
    ensures { TakesBad line.now result }
{
    let name = line.strip_prefix(BAD.as_bytes())?.strip_suffix(b"\"}")?;
    match str::from_utf8(name) {
        Ok(name) => kind_named(name),
        Err(_) => None,
    }
}

/// An answer that doesn't tell of digests.
fn plain(alloc: Global, line: &[u8]) -> Result<Option<Answer>, NoMemory>
    ensures { IfOk result (λ shown. ShowsPlain line.now shown) }
{
    if let Some(counted) = take_counted(alloc, line, RECORDED)? {
        return Ok(Some(Answer::Recorded {
            host: counted.host,
            number: counted.number,
            recorded: counted.recorded,
        }));
    }
    if let Some(counted) = take_counted(alloc, line, REPEAT)? {
        return Ok(Some(Answer::Repeat {
            host: counted.host,
            number: counted.number,
            recorded: counted.recorded,
        }));
    }
    if let Some(counted) = take_counted(alloc, line, GAP)? {
        return Ok(Some(Answer::Gap {
            host: counted.host,
            number: counted.number,
            recorded: counted.recorded,
        }));
    }
    match bad(line) {
        Some(kind) => Ok(Some(Answer::Bad { kind })),
        None => Ok(None),
    }
}

/// The answer that a line shows. Of a line that is no answer it may be any.
fn shown(alloc: Global, line: &[u8]) -> Result<Option<Answer>, NoMemory>
    ensures { IfOk result (λ shown. Shows line.now shown) }
{
    match plain(alloc, line)? {
        Some(answer) => Ok(Some(answer)),
        None => conflict(alloc, line),
    }
}

/// The answer whose text a line is, without its line feed. None exactly where the line is the text of no answer.
///
/// ```
/// read_answer(alloc, b"{\"answer\":\"bad\",\"kind\":\"NotJson\"}")?    // Some(Answer::Bad { kind: BadAnswer::NotJson })
/// read_answer(alloc, b"{\"answer\":\"bad\", \"kind\":\"NotJson\"}")?   // None
/// ```
pub fn read_answer(alloc: Global, line: &[u8]) -> Result<Option<Answer>, NoMemory>
    ensures { IfOk result (Reads line.now) }
{
    let Some(answer) = shown(alloc, line)? else {
        return Ok(None);
    };
    if answer_line(alloc, &answer)?.as_slice() == line {
        Ok(Some(answer))
    } else {
        Ok(None)
    }
}
