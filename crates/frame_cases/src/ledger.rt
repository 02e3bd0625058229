//! What a ledger answers to frames.

ghost use Rattle.std.specs.Prelude.{◌≡◌, true};
ghost use Rattle.batch_frames.specs.Valid.{is_valid};

use crate::made::frame_of;
use crate::shown::push_digest;
use batch_frames::{Frame, digest_of};
use case_text::items_of;
use collector_core::{Ledger, Receipt};
use osq_value::NoMemory;
use serde_json::Value as Json;
use std::alloc::Global;

/// Adds the digests of two frames of one number.
fn push_digests(
    alloc: Global,
    text: &mut String,
    kept: &[u8; 32],
    found: &[u8; 32],
) -> Result<(), NoMemory> {
    push_digest(alloc, text, "kept ", kept)?;
    push_digest(alloc, text, "found", found)
}

/// Adds a receipt.
fn push_receipt(alloc: Global, text: &mut String, receipt: Receipt) -> Result<(), NoMemory> {
    match receipt {
        Receipt::Recorded => Ok(text.push_str("recorded\n")?),
        Receipt::Repeat => Ok(text.push_str("repeat\n")?),
        Receipt::Gap { recorded } => Ok(writeln!(text, "gap behind {recorded}")?),
        Receipt::Conflict {
            number,
            kept,
            found,
        } => {
            writeln!(text, "conflict at {number}")?;
            push_digests(alloc, text, &kept, &found)
        }
    }
}

/// Gives a valid frame to the ledger.
fn received(alloc: Global, ledger: &mut Ledger, frame: &Frame) -> Result<Receipt, NoMemory>
    requires { is_valid frame.now ≡ true }
{
    let digest = digest_of(alloc, frame)?;
    ledger.receive(alloc, frame, digest)
}

/// Gives a valid frame to the ledger, and adds the receipt.
fn push_received(
    alloc: Global,
    text: &mut String,
    ledger: &mut Ledger,
    frame: &Frame,
) -> Result<(), NoMemory>
    requires { is_valid frame.now ≡ true }
{
    let receipt = received(alloc, ledger, frame)?;
    push_receipt(alloc, text, receipt)?;
    let (host, recorded) = (frame.host.as_str(), ledger.recorded(&frame.host));
    Ok(writeln!(text, "{host} {recorded}")?)
}

/// Gives a frame to the ledger, and adds the receipt.
fn push_frame(
    alloc: Global,
    text: &mut String,
    ledger: &mut Ledger,
    frame: &Frame,
) -> Result<(), NoMemory> {
    if frame.is_valid() {
        push_received(alloc, text, ledger, frame)
    } else {
        Ok(text.push_str("not valid\n")?)
    }
}

/// The text at a place of an array; the empty one where none is there.
fn text_at(items: &[Json], at: usize) -> &str {
    items.get(at).and_then(Json::as_str).unwrap_or("")
}

/// Gives the frame of an item to the ledger.
fn push_item(
    alloc: Global,
    text: &mut String,
    ledger: &mut Ledger,
    item: &Json,
) -> Result<(), NoMemory> {
    let parts = items_of(Some(item));
    let number = parts.get(1).and_then(Json::as_u64).unwrap_or(0);
    let frame = frame_of(alloc, text_at(parts, 0), number, text_at(parts, 2))?;
    push_frame(alloc, text, ledger, &frame)
}

/// Gives the frames of items to the ledger, one after another.
fn push_items(
    alloc: Global,
    text: &mut String,
    ledger: &mut Ledger,
    items: &[Json],
) -> Result<(), NoMemory> {
    for item in items {
        push_item(alloc, text, ledger, item)?;
    }
    Ok(())
}

/// Adds what a ledger that had no frames answers to these, one after another.
pub(crate) fn push_receipts(
    alloc: Global,
    text: &mut String,
    items: &[Json],
) -> Result<(), NoMemory> {
    let mut ledger = Ledger::empty(alloc);
    push_items(alloc, text, &mut ledger, items)
}
