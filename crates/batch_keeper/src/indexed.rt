//! Entries in memory, with the places of their batches as far as these were asked for.

ghost use Rattle.std.specs.Prelude.{◌≡◌, ◌+◌, ◌<◌, ◌++◌, IfOk, IfSome, List, OnErr, OnOk, Some, length, option_copied, slice_get};
ghost use Rattle.batch_keeper.specs.Fetching.{fetched};
ghost use Rattle.batch_keeper.specs.Indexing.{IsIndex, stands_as};
ghost use Rattle.entry_model.specs.declared.entry.Batch.{Batch as BatchOf};
ghost use Rattle.entry_model.specs.declared.entry.Entry.{Entry as EntryOf};

use entry_model::entry::{Batch, Entry, EntryList};
use osq_value::{Copied, NoMemory};
use std::alloc::Global;
use std::marker::Model;

/// Where the batches of a list stand, as far as it was looked through.
#[derive(Drop)]
pub struct Index {
    /// The number of entries that were looked at.
    seen: usize,
    /// The places of the batches among these.
    places: Vec<usize>,
    /// The number up to which these have the batches acknowledged.
    acked: u64,
}

/// The index; an empty one where there is none yet.
fn begun(alloc: Global, index: Option<Index>) -> Index
    ensures { (entries : List EntryOf) → IfSome index (IsIndex entries) → IsIndex entries result }
{
    match index {
        Some(index) => index,
        None => Index {
            seen: 0,
            places: Vec::new(alloc),
            acked: 0,
        },
    }
}

/// Looks at one more entry. Where there is no memory for its place, it was not looked at.
fn look_at_next(index: &mut Index, entries: &[Entry]) -> Result<(), NoMemory>
    requires within { index.old.seen < length entries.now }
    requires is_index { IsIndex entries.now index.old }
    ensures is_index { IsIndex entries.now index.new }
    ensures ok { OnOk result (index.new.seen ≡ index.old.seen + 1) }
{
    match &entries[index.seen] {
        Entry::Committed { batch: _ } => index.places.push(index.seen)?,
        Entry::Acked { upto } => index.acked = *upto,
        _ => {}
    }
    index.seen += 1;
    Ok(())
}

/// Looks at all entries that were not looked at yet, up to the first whose place finds no memory.
fn look_at_rest(index: &mut Index, entries: &[Entry]) -> Result<(), NoMemory>
    requires { IsIndex entries.now index.old }
    ensures is_index { IsIndex entries.now index.new }
    ensures ok { OnOk result (index.new.seen ≡ length entries.now) }
{
    while index.seen < entries.len() {
        look_at_next(index, entries)?;
    }
    Ok(())
}

/// The place of the batch of this count, from 0.
fn place_of(index: &Index, at: usize) -> Option<usize>
    ensures { result ≡ slice_get index.now.places.items at }
{
    match index.places.get(at) {
        Some(place) => Some(*place),
        None => None,
    }
}

/// The batch at this place.
fn batch_at(entries: &[Entry], place: usize) -> Option<&Batch>
    requires { place < length entries.now }
    ensures { (batch : BatchOf) → slice_get entries.now place ≡ stands_as batch → option_copied result ≡ Some batch }
{
    match &entries[place] {
        Entry::Committed { batch } => Some(batch),
        _ => None,
    }
}

/// The batch of this number, by the index of the whole list.
fn find<'a>(index: &Index, entries: &'a [Entry], number: u64) -> Option<&'a Batch>
    requires is_index { IsIndex entries.now index.now }
    requires whole { index.now.seen ≡ length entries.now }
    ensures { option_copied result ≡ fetched entries.now number }
{
    if number <= index.acked {
        return None;
    }
    match place_of(index, (number - 1) as usize) {
        Some(place) => batch_at(entries, place),
        None => None,
    }
}

/// A copy of the batch, if there is one.
fn copy_of(alloc: Global, batch: Option<&Batch>) -> Result<Option<Batch>, NoMemory>
    ensures { IfOk result (λ copy. copy ≡ option_copied batch.entry) }
{
    match batch {
        Some(batch) => Ok(Some(batch.copy(alloc)?)),
        None => Ok(None),
    }
}

/// The batch of this number, by the index, which is brought up to the end of the list.
fn fetch_from(
    alloc: Global,
    index: &mut Index,
    entries: &[Entry],
    number: u64,
) -> Result<Option<Batch>, NoMemory>
    requires { IsIndex entries.now index.old }
    ensures is_index { IsIndex entries.now index.new }
    ensures batch { IfOk result (λ batch. batch ≡ fetched entries.now number) }
{
    look_at_rest(index, entries)?;
    copy_of(alloc, find(index, entries, number))
}

/// A list of entries that knows where its batches stand. It looks for them when one is fetched, and at no entry twice.
#[derive(Drop)]
pub struct IndexedEntries {
    entries: EntryList,
    index: Option<Index>,
}

impl Model for IndexedEntries {
    ghost use Rattle.std.specs.Prelude.{IfSome, List};
    ghost use Rattle.entry_model.specs.declared.entry.Entry.{Entry};
    ghost use Rattle.batch_keeper.specs.Indexing.{IsIndex};

    ghost Value = { List Entry };

    ghost view = { λ s. s.entries };

    ghost invariant = { λ s. IfSome s.index (IsIndex s.entries) };
}

impl IndexedEntries {
    /// These entries, of which none was looked at.
    pub fn new(entries: EntryList) -> IndexedEntries
        ensures { result ≡ entries }
    {
        IndexedEntries {
            entries,
            index: None,
        }
    }

    /// The entries.
    pub fn as_list(&self) -> &EntryList
        ensures { result.now ≡ self.now }
    {
        &self.entries
    }

    /// Adds the entries of another list at the end, or none of them.
    pub fn append(&mut self, added: EntryList) -> Result<(), NoMemory>
        ensures ok { OnOk result (self.new ≡ self.old ++ added) }
        ensures err { OnErr result (self.new ≡ self.old) }
    {
        self.entries.append(added)?;
        Ok(())
    }

    /// The batch of this number, counted from 1, among the batches of the list, where it is above what is acknowledged.
    pub fn fetch(&mut self, alloc: Global, number: u64) -> Result<Option<Batch>, NoMemory>
        ensures same { self.new ≡ self.old }
        ensures batch { IfOk result (λ batch. batch ≡ fetched self.old number) }
    {
        let mut index = begun(alloc, self.index.take());
        let fetched = fetch_from(alloc, &mut index, self.entries.as_slice(), number);
        self.index = Some(index);
        fetched
    }
}
