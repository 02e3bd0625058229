//! The frame of a batch, as it is sent.

ghost use Rattle.std.specs.Prelude.{◌≡◌, true, IfOk};
ghost use Rattle.sql_texts.specs.Meaning.{is_accepted, names_of};
ghost use Rattle.batch_forwarder.specs.Frames.{frame_for, names_in};

use batch_frames::{Frame, encode_frame};
use entry_model::entry::Batch;
use osq_value::{Bytes, Copied, NoMemory, Str, TextList};
use sql_texts::text::TextError;
use sql_texts::{AcceptedQuery, QueryText};
use std::alloc::Global;

/// The names of the columns of an accepted text's result.
#[tactic(auto, unfolding(sql_texts::specs::Meaning::is_accepted))]
fn copied_names(alloc: Global, query: &AcceptedQuery) -> Result<TextList, NoMemory>
    ensures accepted { is_accepted query.now ≡ true }
    ensures names { IfOk result (λ names. names ≡ names_of query.now) }
{
    let _asked = query.query();
    query.names().copy(alloc)
}

/// The names of the columns of a text's result, which is read for them, and nothing where it isn't accepted.
#[tactic(auto, unfolding(sql_texts::specs::Meaning::is_accepted))]
fn read_names(alloc: Global, text: &str) -> Result<Option<TextList>, NoMemory>
    ensures { IfOk result (λ names. names ≡ names_in text.now) }
{
    match AcceptedQuery::of(alloc, text) {
        Ok(query) => Ok(Some(copied_names(alloc, &query)?)),
        Err(TextError::NoMemory) => Err(NoMemory),
        Err(_) => Ok(None),
    }
}

/// The names of the columns of a text's result, and nothing where it isn't accepted. A text that was accepted before isn't read again.
fn names_for(alloc: Global, text: &QueryText) -> Result<Option<TextList>, NoMemory>
    ensures { IfOk result (λ names. names ≡ names_in text.now) }
{
    match text.query() {
        Some(query) => Ok(Some(copied_names(alloc, query)?)),
        None => read_names(alloc, text.as_str()),
    }
}

/// The text of a host's frame of a batch, without a line feed. None exactly where the batch's text isn't accepted, or the frame isn't
/// valid. The batch is moved, and its rows aren't copied.
pub fn frame_for(alloc: Global, host: &str, batch: Batch) -> Result<Option<Bytes>, NoMemory>
    ensures { IfOk result (λ frame. frame ≡ frame_for host.now batch) }
{
    let Some(names) = names_for(alloc, &batch.query.text)? else {
        return Ok(None);
    };
    let host = Str::of(alloc, host)?;
    let frame = Frame { host, batch, names };
    if frame.is_valid() {
        Ok(Some(encode_frame(alloc, &frame)?))
    } else {
        Ok(None)
    }
}
