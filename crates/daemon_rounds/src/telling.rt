//! The result lines of entries.

ghost use Rattle.std.specs.Prelude.{◌≡◌, ◌++◌, ◌≤◌, ℕ, List, [], false, IfOk, IfSome, OnOk, Ok, None};
ghost use Rattle.osq_value.specs.declared.moment.TheConstants.{LAST_MOMENT};
ghost use Rattle.sql_texts.specs.Meaning.{names_of as names_in};
ghost use Rattle.result_batches.specs.Lines.{AreLines};
ghost use Rattle.daemon_rounds.specs.Answering.{IsTellable};
ghost use Rattle.daemon_rounds.specs.Telling.{AreTellable, AreLinesOf, IsTold, Tells, form_after};

use entry_model::entry::{Batch, Entry};
use osq_value::{Bytes, NoMemory, TextList};
use pack_rules::schedule::Form;
use query_answers::names;
use result_batches::result_lines;
use std::alloc::Global;

/// The lines of a batch. Nothing decorates them.
fn plain_lines(
    alloc: Global,
    batch: &Batch,
    names: &TextList,
    host: &str,
    form: Form,
) -> Result<Bytes, NoMemory>
    requires { batch.now.moment ≤ LAST_MOMENT }
    ensures { IfOk result (AreLines form host.now names.now [] batch.now) }
{
    result_lines(alloc, batch, names, host, form, &Bytes::new(alloc))
}

/// The lines of a batch whose text is to be read.
fn read_lines(alloc: Global, host: &str, form: Form, batch: &Batch) -> Result<Bytes, NoMemory>
    requires { IsTellable batch.now }
    ensures { IfOk result (AreLines form host.now (names_in batch.now.query.text) [] batch.now) }
{
    match names(alloc, batch.query.text.as_str())? {
        Some(names) => plain_lines(alloc, batch, &names, host, form),
        None => unreachable!(),
    }
}

/// The lines of a batch. The text of a scheduled query was accepted before, with its names.
fn batch_lines(alloc: Global, host: &str, form: Form, batch: &Batch) -> Result<Bytes, NoMemory>
    requires { IsTellable batch.now }
    ensures { IfOk result (AreLines form host.now (names_in batch.now.query.text) [] batch.now) }
{
    match batch.query.text.query() {
        Some(query) => plain_lines(alloc, batch, query.names(), host, form),
        None => read_lines(alloc, host, form, batch),
    }
}

/// Adds the lines of an entry.
fn push_lines(
    alloc: Global,
    text: &mut Bytes,
    host: &str,
    form: Form,
    entry: &Entry,
) -> Result<(), NoMemory>
    requires { IsTold entry.now }
    ensures { OnOk result ((lines : List ℕ) × Tells host.now form entry.now lines × (text.new ≡ text.old ++ lines)) }
{
    match entry {
        Entry::Committed { batch } => text.append(batch_lines(alloc, host, form, batch)?),
        _ => Ok(()),
    }
}

/// The form of lines that runs behind an entry.
fn form_behind(form: Form, entry: &Entry) -> Form
    ensures { result ≡ form_after form entry.now }
{
    match entry {
        Entry::Opened {
            session: _,
            rules: _,
        } => Form::Event,
        Entry::Configured {
            document: _,
            schedule,
            moment: _,
        } => schedule.form,
        _ => form,
    }
}

/// The result lines of the batches among these entries, in order, each in the form of the schedule that runs there; before the first
/// entry this form runs. `host` is the host's identifier.
pub fn lines_of_entries(
    alloc: Global,
    host: &str,
    form: Form,
    entries: &[Entry],
) -> Result<Bytes, NoMemory>
    requires { AreTellable entries.now }
    ensures { IfOk result (AreLinesOf host.now form entries.now) }
{
    let mut text = Bytes::new(alloc);
    let mut form = form;
    for entry in entries {
        push_lines(alloc, &mut text, host, form, entry)?;
        form = form_behind(form, entry);
    }
    Ok(text)
}
