//! The parts of a frame's text, as they are read. The reader looks at the values alone, and passes over what has to stand between
//! them: whether a text is a frame's is told by the text of what was read.

ghost use Rattle.std.specs.Prelude.{◌≡◌, IfOk};
ghost use Rattle.batch_frames.specs.Parts.{IsHeldSender, IsHeldSlice, IsHeldTable, query_part, sender_text, slice_text, table_text};
ghost use Rattle.batch_frames.specs.Shapes.{frame};
ghost use Rattle.batch_frames.specs.Takes.{Takes};
ghost use Rattle.batch_frames.specs.Texts.{IsHeldQuery};

use crate::field::take_field;
use crate::frame::Frame;
use entry_model::entry::Batch;
use osq_value::{NoMemory, RowList, Str, TextList};
use pack_rules::schedule::QueryKey;
use std::alloc::Global;

/// The host, and the number of its batch.
#[derive(Drop)]
pub(crate) struct Sender {
    pub host: Str,
    pub number: u64,
}

/// The slice of a batch and its moment.
#[derive(Drop)]
pub(crate) struct Slice {
    pub lo: u64,
    pub hi: u64,
    pub cut: u64,
    pub moment: u64,
}

/// The names and the rows.
#[derive(Drop)]
pub(crate) struct Table {
    pub names: TextList,
    pub rows: RowList,
}

pub(crate) fn take_sender(alloc: Global, bytes: &[u8]) -> Result<(Sender, &[u8]), NoMemory>
    ensures { IfOk result (λ taken. Takes sender_text IsHeldSender bytes.now taken.0 taken.1.now) }
{
    let (host, rest) = take_field(alloc, bytes, "{\"frame\":1,\"host\":")?;
    let (number, rest) = take_field(alloc, rest, ",\"number\":")?;
    Ok((Sender { host, number }, rest))
}

pub(crate) fn take_query(alloc: Global, bytes: &[u8]) -> Result<(QueryKey, &[u8]), NoMemory>
    ensures { IfOk result (λ taken. Takes query_part IsHeldQuery bytes.now taken.0 taken.1.now) }
{
    let (name, rest) = take_field(alloc, bytes, ",\"name\":")?;
    let (text, rest) = take_field(alloc, rest, ",\"text\":")?;
    let (mode, rest) = take_field(alloc, rest, ",\"mode\":")?;
    Ok((QueryKey::read(name, text, mode), rest))
}

pub(crate) fn take_slice(alloc: Global, bytes: &[u8]) -> Result<(Slice, &[u8]), NoMemory>
    ensures { IfOk result (λ taken. Takes slice_text IsHeldSlice bytes.now taken.0 taken.1.now) }
{
    let (lo, rest) = take_field(alloc, bytes, ",\"lo\":")?;
    let (hi, rest) = take_field(alloc, rest, ",\"hi\":")?;
    let (cut, rest) = take_field(alloc, rest, ",\"cut\":")?;
    let (moment, rest) = take_field(alloc, rest, ",\"moment\":")?;
    Ok((
        Slice {
            lo,
            hi,
            cut,
            moment,
        },
        rest,
    ))
}

pub(crate) fn take_table(alloc: Global, bytes: &[u8]) -> Result<(Table, &[u8]), NoMemory>
    ensures { IfOk result (λ taken. Takes table_text IsHeldTable bytes.now taken.0 taken.1.now) }
{
    let (names, rest) = take_field(alloc, bytes, ",\"names\":")?;
    let (rows, rest) = take_field(alloc, rest, ",\"rows\":")?;
    Ok((Table { names, rows }, rest))
}

/// The frame of its parts.
pub(crate) fn frame_of_parts(sender: Sender, query: QueryKey, slice: Slice, table: Table) -> Frame
    ensures { result ≡ frame sender.host sender.number query slice table }
{
    let batch = Batch {
        number: sender.number,
        query,
        lo: slice.lo,
        hi: slice.hi,
        cut: slice.cut,
        moment: slice.moment,
        rows: table.rows,
    };
    Frame {
        host: sender.host,
        batch,
        names: table.names,
    }
}
