//! The text of a frame.

ghost use Rattle.std.specs.Prelude.{◌≡◌, ◌++◌, length, true, IfOk, OnOk};
ghost use Rattle.result_batches.specs.Frames.{frame_body, hexadecimal};
ghost use Rattle.batch_frames.specs.Parts.{digest_part, query_part, sender_part, slice_part, table_part};
ghost use Rattle.batch_frames.specs.Texts.{digest_of, text_of};
ghost use Rattle.batch_frames.specs.Valid.{is_valid};

use crate::field::push_field;
use crate::frame::Frame;
use entry_model::entry::Batch;
use osq_value::{Bytes, NoMemory, RowList, Str, TextList};
use pack_rules::schedule::QueryKey;
use result_batches::escape::push_quoted;
use sha2::{Digest, Sha256};
use std::alloc::Global;

/// Room for most frames, in bytes, so that a text isn't copied while it grows.
pub(crate) const ROOM: usize = 2048;

#[tactic(auto, unfolding(crate::specs::Parts::sender_part))]
fn push_sender(line: &mut Bytes, host: &Str, number: u64) -> Result<(), NoMemory>
    ensures { OnOk result (line.new ≡ line.old ++ sender_part host.now number) }
{
    push_field(line, "{\"frame\":1,\"host\":", host)?;
    push_field(line, ",\"number\":", &number)
}

#[tactic(auto, unfolding(crate::specs::Parts::query_part))]
fn push_query(line: &mut Bytes, query: &QueryKey) -> Result<(), NoMemory>
    ensures { OnOk result (line.new ≡ line.old ++ query_part query.now) }
{
    push_field(line, ",\"name\":", &query.name)?;
    line.extend(b",\"text\":")?;
    push_quoted(line, query.text.as_str().as_bytes())?;
    push_field(line, ",\"mode\":", &query.mode)
}

#[tactic(auto, unfolding(crate::specs::Parts::slice_part))]
fn push_slice(line: &mut Bytes, batch: &Batch) -> Result<(), NoMemory>
    ensures { OnOk result (line.new ≡ line.old ++ slice_part batch.now.lo batch.now.hi batch.now.cut batch.now.moment) }
{
    push_field(line, ",\"lo\":", &batch.lo)?;
    push_field(line, ",\"hi\":", &batch.hi)?;
    push_field(line, ",\"cut\":", &batch.cut)?;
    push_field(line, ",\"moment\":", &batch.moment)
}

#[tactic(auto, unfolding(crate::specs::Parts::table_part))]
fn push_table(line: &mut Bytes, names: &TextList, rows: &RowList) -> Result<(), NoMemory>
    ensures { OnOk result (line.new ≡ line.old ++ table_part names.now rows.now) }
{
    push_field(line, ",\"names\":", names)?;
    push_field(line, ",\"rows\":", rows)
}

/// The digits of a digest, in lower-case hexadecimal.
fn digits_of(digest: &[u8]) -> [u8; 64]
    requires { length digest.now ≡ 32 }
    ensures { result ≡ hexadecimal digest.now }
{
    let mut digits = [0u8; 64];
    match hex::encode_to_slice(digest, &mut digits) {
        Ok(()) => digits,
        Err(_) => unreachable!(),
    }
}

/// Adds what stands behind the body of a frame: its digest, and the end.
fn push_digest(line: &mut Bytes, digest: &[u8]) -> Result<(), NoMemory>
    requires { length digest.now ≡ 32 }
    ensures { OnOk result (line.new ≡ line.old ++ digest_part digest.now) }
{
    let digits = digits_of(digest);
    line.extend(b",\"sha256\":\"")?;
    line.extend(&digits)?;
    line.extend(b"\"}")
}

/// What the digest of a frame is made from, in room for so many bytes, or for more where it has more.
fn body_of(alloc: Global, frame: &Frame, room: usize) -> Result<Bytes, NoMemory>
    ensures { IfOk result (λ body. body ≡ frame_body frame.now.host frame.now.names frame.now.batch) }
{
    let mut body = Bytes::with_capacity(alloc, room)?;
    push_sender(&mut body, &frame.host, frame.batch.number)?;
    push_query(&mut body, &frame.batch.query)?;
    push_slice(&mut body, &frame.batch)?;
    push_table(&mut body, &frame.names, &frame.batch.rows)?;
    Ok(body)
}

/// The text of any frame, also of one that isn't valid, in room for so many bytes, and its digest, which is made once.
pub(crate) fn encoded(
    alloc: Global,
    frame: &Frame,
    room: usize,
) -> Result<(Bytes, [u8; 32]), NoMemory>
    ensures { IfOk result (λ made. (made.0 ≡ text_of frame.now) × (made.1 ≡ digest_of frame.now)) }
{
    let mut text = body_of(alloc, frame, room)?;
    let digest = Sha256::digest(text.as_slice());
    push_digest(&mut text, &digest)?;
    Ok((text, digest))
}

/// The digits of any frame's digest, as its text shows them.
pub(crate) fn digits_in_text(alloc: Global, frame: &Frame) -> Result<[u8; 64], NoMemory>
    ensures { IfOk result (λ digits. digits ≡ hexadecimal (digest_of frame.now)) }
{
    let body = body_of(alloc, frame, ROOM)?;
    Ok(digits_of(&Sha256::digest(body.as_slice())))
}

/// The text of a frame, without a line feed.
///
/// ```
/// encode_frame(alloc, &frame)?
/// // of the first batch of the query `u` on the host `h1`, with one row of `root`, in one line:
/// // {"frame":1,"host":"h1","number":1,"name":"u","text":"SELECT username FROM users","mode":"evented","lo":0,"hi":0,"cut":4,
/// // "moment":1000,"names":["username"],"rows":[["root"]],"sha256":"…"}
/// ```
pub fn encode_frame(alloc: Global, frame: &Frame) -> Result<Bytes, NoMemory>
    requires { is_valid frame.now ≡ true }
    ensures { IfOk result (λ text. text ≡ text_of frame.now) }
{
    let (text, _) = encoded(alloc, frame, ROOM)?;
    Ok(text)
}

/// The digest of a frame: the SHA-256 of its text before the last `,"sha256"`.
pub fn digest_of(alloc: Global, frame: &Frame) -> Result<[u8; 32], NoMemory>
    requires { is_valid frame.now ≡ true }
    ensures { IfOk result (λ digest. digest ≡ digest_of frame.now) }
{
    Ok(Sha256::digest(body_of(alloc, frame, ROOM)?.as_slice()))
}
