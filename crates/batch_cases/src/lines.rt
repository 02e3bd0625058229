//! Lines of batches, and objects of rows.

ghost use Rattle.std.specs.Prelude.{◌≡◌, IfOk};

use crate::answer::push_text;
use case_text::{items_of, member_text, row_of, rows_of};
use entry_model::entry::Batch;
use osq_value::{Bytes, NoMemory, RowList, Str, TextList};
use pack_rules::schedule::{Form, Mode, QueryKey};
use result_batches::{result_lines, row_object};
use serde_json::Value as Json;
use std::alloc::Global;

/// The texts of an array.
fn names_of(alloc: Global, names: Option<&Json>) -> Result<TextList, NoMemory> {
    let mut list = TextList::new(alloc);
    for item in items_of(names) {
        if let Some(name) = item.as_str() {
            list.push(Str::of(alloc, name)?)?;
        }
    }
    Ok(list)
}

/// The first batch of the query `u`, at the moment 1000.
fn batch_of(alloc: Global, mode: Mode, rows: RowList) -> Result<Batch, NoMemory>
    ensures { IfOk result (λ batch. batch.moment ≡ 1000) }
{
    Ok(Batch {
        number: 1,
        query: QueryKey::read(
            Str::of(alloc, "u")?,
            Str::of(alloc, "SELECT username FROM users")?,
            mode,
        ),
        lo: 0,
        hi: 0,
        cut: 4,
        moment: 1000,
        rows,
    })
}

/// The mode and the form that words name.
fn mode_and_form(words: &str) -> Option<(Mode, Form)> {
    match words {
        "evented event" => Some((Mode::Evented, Form::Event)),
        "evented batch" => Some((Mode::Evented, Form::Batch)),
        "snapshot event" => Some((Mode::Snapshot, Form::Event)),
        "snapshot batch" => Some((Mode::Snapshot, Form::Batch)),
        _ => None,
    }
}

/// Tells the lines of a batch with the row's names and rows, and what decorates them.
fn push_lines(
    alloc: Global,
    text: &mut String,
    row: &Json,
    mode: Mode,
    form: Form,
) -> Result<(), NoMemory> {
    let names = names_of(alloc, row.get("names"))?;
    let batch = batch_of(alloc, mode, rows_of(alloc, items_of(row.get("rows")))?)?;
    let decoration = Bytes::of(alloc, member_text(row, "decoration").as_bytes())?;
    let lines = result_lines(alloc, &batch, &names, "h1", form, &decoration)?;
    push_text(text, lines.as_slice())
}

/// Tells the lines of a batch of the row's mode and form.
pub(crate) fn push_batch(alloc: Global, text: &mut String, row: &Json) -> Result<(), NoMemory> {
    match mode_and_form(member_text(row, "lines")) {
        Some((mode, form)) => push_lines(alloc, text, row, mode, form),
        None => Ok(text.push_str("no such mode and form\n")?),
    }
}

/// Tells the object of a row.
pub(crate) fn push_object(alloc: Global, text: &mut String, row: &Json) -> Result<(), NoMemory> {
    let names = names_of(alloc, row.get("names"))?;
    let values = row_of(alloc, row.get("object").unwrap_or(row))?;
    push_text(text, row_object(alloc, &names, &values)?.as_slice())?;
    text.push_str("\n")?;
    Ok(())
}
