//! The changes of a seal.

ghost use Rattle.std.specs.Prelude.{◌≡◌, ◌+◌, [], ◌∷◌, ◌++◌, fold, length, map, slice_set, IfOk, OnOk};
ghost use Rattle.std.specs.Fmt.{decimal};
ghost use Rattle.result_batches.specs.Json.{array};
ghost use Rattle.entry_model.specs.declared.entry.Entry.TheVariants as entered;
ghost use Rattle.kept_tables.specs.declared.changes.Parameter.TheVariants as given;
ghost use Rattle.kept_tables.specs.Counting.{numbers_of};
ghost use Rattle.kept_tables.specs.Edits.{behind, change, edits_of, event_edits, keyed, last_in, number, rows_text, seal_edits, set_groups, spelled};
ghost use Rattle.kept_tables.specs.Edits as edit;
ghost use Rattle.kept_tables.specs.Rows.{mode_number};
ghost use Rattle.kept_tables.specs.Sealing.{at_entry, comes_to, event_change, set_change, with_batch_part, with_changes, with_edits, with_entry};

use crate::changes::{Change, ChangeList, Statement};
use crate::counts::{Counts, after};
use crate::parts::{EventPart, event_parts, row_texts};
use batch_frames::spelled::Spelled;
use entry_model::entry::{Batch, Entry, EntryList};
use osq_value::{Bytes, EventList, NoMemory, Row, RowList, Sequence, Str, TableId};
use pack_rules::schedule::{Mode, QueryKey};
use std::alloc::Global;

/// What a seal has come to.
#[derive(Drop)]
struct Sealing {
    counts: Counts,
    changes: ChangeList,
}

/// The changes that add these entries to tables with these counts. Where a count reaches 2^63, it is want of memory.
pub fn changes_of(
    alloc: Global,
    counts: Counts,
    entries: &EntryList,
) -> Result<ChangeList, NoMemory>
    ensures { IfOk result (λ changes. changes ≡ map spelled (seal_edits counts entries.now)) }
{
    let mut sealing = Sealing {
        counts,
        changes: Sequence::new(alloc),
    };
    for entry in entries.as_slice() {
        sealing.add_next(alloc, entry)?;
    }
    sealing.close(alloc)
}

/// The counts, as `WriteCounts` has its parameters.
fn numbers_of(counts: &Counts) -> [u64; 10]
    ensures { result ≡ numbers_of counts.now }
{
    let [first, second, third] = counts.floors;
    [
        counts.position,
        counts.sessions,
        counts.moment,
        counts.last,
        first,
        second,
        third,
        counts.batches,
        counts.acked,
        counts.parts,
    ]
}

fn mode_number(mode: Mode) -> u64
    ensures { result ≡ mode_number mode }
{
    match mode {
        Mode::Evented => 0,
        Mode::Snapshot => 1,
    }
}

/// The last of these numbers, 0 where there is none.
fn last_of(numbers: &[u64]) -> u64
    ensures { result ≡ last_in numbers.now }
{
    match numbers.last() {
        Some(number) => *number,
        None => 0,
    }
}

/// The text of these numbers.
fn numbers_text(alloc: Global, numbers: &Sequence<u64>) -> Result<Bytes, NoMemory>
    ensures { IfOk result (λ text. text ≡ array (map decimal numbers.now)) }
{
    let mut text = Bytes::new(alloc);
    numbers.push_to(&mut text)?;
    Ok(text)
}

/// The floors with this one of a table.
fn with_floor(floors: [u64; 3], table: TableId, floor: u64) -> [u64; 3]
    ensures { result ≡ slice_set floors table.0 floor }
{
    let mut floors = floors;
    let at = usize::from(table.0);
    if at < 3 {
        floors[at] = floor;
    }
    floors
}

impl Sealing {
    /// All changes, with those of the counts behind the others.
    fn close(self, alloc: Global) -> Result<ChangeList, NoMemory>
        ensures { IfOk result (λ changes. changes ≡ self.changes ++ spelled (edit.write_counts self.counts) ∷ []) }
    {
        let Sealing {
            counts,
            mut changes,
        } = self;
        let numbers = numbers_of(&counts);
        changes.push(Change::of(alloc, Statement::WriteCounts, &numbers)?)?;
        Ok(changes)
    }

    fn change(
        &mut self,
        alloc: Global,
        statement: Statement,
        numbers: &[u64],
    ) -> Result<(), NoMemory>
        ensures { OnOk result (self.new ≡ with_changes self.old (change statement (map number numbers.now) ∷ [])) }
    {
        self.changes.push(Change::of(alloc, statement, numbers)?)
    }

    /// Adds the next entry.
    fn add_next(&mut self, alloc: Global, entry: &Entry) -> Result<(), NoMemory>
        ensures { OnOk result (self.new ≡ with_entry self.old entry.now) }
    {
        self.counts.position = after(self.counts.position)?;
        self.add_entry(alloc, entry)
    }

    fn add_entry(&mut self, alloc: Global, entry: &Entry) -> Result<(), NoMemory>
        ensures { OnOk result (self.new ≡ at_entry self.old entry.now) }
    {
        match entry {
            Entry::Opened {
                session: _,
                rules: _,
            } => self.open_session(),
            Entry::Configured {
                document: _,
                schedule: _,
                moment,
            } => self.configure(alloc, *moment),
            Entry::Ticked { moment } => self.tick(*moment),
            Entry::Appended {
                source,
                taken,
                events,
                skipped: _,
                moment,
            } => self.append(alloc, source, *taken, events, *moment),
            Entry::TableSet {
                source,
                table,
                rows,
                taken,
            } => self.set_table(alloc, source, *taken, *table, rows),
            Entry::Expired {
                table,
                floor,
                moment: _,
            } => self.expire(alloc, *table, *floor),
            Entry::Committed { batch } => self.commit(alloc, batch),
            Entry::Acked { upto } => self.acknowledge(alloc, *upto),
        }
    }

    fn open_session(&mut self) -> Result<(), NoMemory>
        ensures { OnOk result (self.new ≡ comes_to self.old (record self.old.counts { sessions = self.old.counts.sessions + 1 }) []) }
    {
        self.counts.sessions = after(self.counts.sessions)?;
        Ok(())
    }

    fn configure(&mut self, alloc: Global, moment: u64) -> Result<(), NoMemory>
        ensures { OnOk result (self.new ≡ comes_to self.old (record self.old.counts { moment = moment }) (edit.add_configured self.old.counts.position ∷ [])) }
    {
        self.counts.moment = moment;
        let place = self.counts.position;
        self.change(alloc, Statement::AddConfigured, &[place])
    }

    fn tick(&mut self, moment: u64) -> Result<(), NoMemory>
        ensures { OnOk result (self.new ≡ comes_to self.old (record self.old.counts { moment = moment }) []) }
    {
        self.counts.moment = moment;
        Ok(())
    }

    fn acknowledge(&mut self, alloc: Global, upto: u64) -> Result<(), NoMemory>
        ensures { OnOk result (self.new ≡ comes_to self.old (record self.old.counts { acked = upto }) (edit.acknowledge upto ∷ [])) }
    {
        self.counts.acked = upto;
        self.change(alloc, Statement::Acknowledge, &[upto])
    }

    fn expire(&mut self, alloc: Global, table: TableId, floor: u64) -> Result<(), NoMemory>
        ensures { OnOk result (self.new ≡ comes_to self.old (record self.old.counts { floors = slice_set self.old.counts.floors table.0 floor }) (edit.expire table.0 floor ∷ [])) }
    {
        self.counts.floors = with_floor(self.counts.floors, table, floor);
        self.change(alloc, Statement::Expire, &[u64::from(table.0), floor])
    }

    fn note_taken(&mut self, alloc: Global, source: &Str, taken: u64) -> Result<(), NoMemory>
        ensures { OnOk result (self.new ≡ with_edits self.old (edit.note_taken source.now taken ∷ [])) }
    {
        let change = Change::of(alloc, Statement::NoteTaken, &[taken])?.with_text(
            alloc,
            source.as_str(),
        )?;
        self.changes.push(change)
    }

    /// Adds the events of each evented table.
    fn append(
        &mut self,
        alloc: Global,
        source: &Str,
        taken: u64,
        events: &EventList,
        moment: u64,
    ) -> Result<(), NoMemory>
        ensures { OnOk result (self.new ≡ comes_to self.old (record self.old.counts { last = self.old.counts.last + length events.now }) (edits_of self.old.counts (entered.Appended source.now taken events.now 0 moment))) }
    {
        self.note_taken(alloc, source, taken)?;
        self.add_events(alloc, TableId::PROCESS_EVENTS, events, moment)?;
        self.add_events(alloc, TableId::SOCKET_EVENTS, events, moment)?;
        self.add_events(alloc, TableId::FILE_EVENTS, events, moment)?;
        self.count_events(events)
    }

    fn count_events(&mut self, events: &EventList) -> Result<(), NoMemory>
        ensures { OnOk result (self.new ≡ record self.old { counts = record self.old.counts { last = self.old.counts.last + length events.now } }) }
    {
        let added = events.len() as u64;
        self.counts.last = self.counts.last.checked_add(added).ok_or(NoMemory)?;
        Ok(())
    }

    /// Adds the events of a table.
    fn add_events(
        &mut self,
        alloc: Global,
        table: TableId,
        events: &EventList,
        moment: u64,
    ) -> Result<(), NoMemory>
        ensures { OnOk result (self.new ≡ with_edits self.old (event_edits moment (behind self.old.counts.last moment events.now) table.0)) }
    {
        let parts = event_parts(alloc, self.counts.last, table.0, events.as_slice())?;
        self.add_event_parts(alloc, table, moment, parts)
    }

    fn add_event_parts(
        &mut self,
        alloc: Global,
        table: TableId,
        moment: u64,
        parts: Sequence<EventPart>,
    ) -> Result<(), NoMemory>
        ensures { OnOk result (self.new ≡ with_changes self.old (map (event_change table.0 moment) parts)) }
    {
        for part in parts.into_vec() {
            self.add_event_part(alloc, table, moment, part)?;
        }
        Ok(())
    }

    fn add_event_part(
        &mut self,
        alloc: Global,
        table: TableId,
        moment: u64,
        part: EventPart,
    ) -> Result<(), NoMemory>
        ensures { OnOk result (self.new ≡ with_changes self.old (event_change table.0 moment part ∷ [])) }
    {
        let EventPart { numbers, rows } = part;
        let last = last_of(numbers.as_slice());
        let columns = [last, u64::from(table.0), moment];
        let text = numbers_text(alloc, &numbers)?;
        let change = Change::of(alloc, Statement::AddEvents, &columns)?.with_list(text)?;
        self.changes.push(change.with_list(rows)?)
    }

    fn set_table(
        &mut self,
        alloc: Global,
        source: &Str,
        taken: u64,
        table: TableId,
        rows: &RowList,
    ) -> Result<(), NoMemory>
        ensures { OnOk result (self.new ≡ comes_to self.old self.old.counts (edits_of self.old.counts (entered.TableSet source.now table rows.now taken))) }
    {
        self.note_taken(alloc, source, taken)?;
        self.change(alloc, Statement::Unset, &[u64::from(table.0)])?;
        let texts = set_texts(alloc, rows.as_slice())?;
        self.add_set_parts(alloc, table, texts)
    }

    fn add_set_parts(
        &mut self,
        alloc: Global,
        table: TableId,
        texts: Sequence<Bytes>,
    ) -> Result<(), NoMemory>
        ensures { OnOk result (self.new ≡ with_changes self.old (map (set_change table.0) texts)) }
    {
        for text in texts.into_vec() {
            self.add_list(alloc, Statement::AddSetPart, &[u64::from(table.0)], text)?;
        }
        Ok(())
    }

    fn add_list(
        &mut self,
        alloc: Global,
        statement: Statement,
        numbers: &[u64],
        text: Bytes,
    ) -> Result<(), NoMemory>
        ensures { OnOk result (self.new ≡ with_changes self.old (change statement (map number numbers.now ++ given.List text ∷ []) ∷ [])) }
    {
        let change = Change::of(alloc, statement, numbers)?.with_list(text)?;
        self.changes.push(change)
    }

    fn commit(&mut self, alloc: Global, batch: &Batch) -> Result<(), NoMemory>
        ensures { OnOk result (self.new ≡ at_entry self.old (entered.Committed batch.now)) }
    {
        self.counts.batches = after(self.counts.batches)?;
        self.note_run(alloc, batch)?;
        self.add_batch(alloc, batch)?;
        let texts = row_texts(alloc, batch.rows.as_slice())?;
        self.add_batch_parts(alloc, batch.number, texts)
    }

    fn note_run(&mut self, alloc: Global, batch: &Batch) -> Result<(), NoMemory>
        ensures { OnOk result (self.new ≡ with_edits self.old (edit.note_run batch.now ∷ [])) }
    {
        let mode = mode_number(batch.query.mode);
        let run = [batch.number, batch.hi, batch.moment, mode];
        self.add_keyed(alloc, Statement::NoteRun, &run, &batch.query)
    }

    fn add_batch(&mut self, alloc: Global, batch: &Batch) -> Result<(), NoMemory>
        ensures { OnOk result (self.new ≡ with_edits self.old (edit.add_batch batch.now ∷ [])) }
    {
        let columns = [
            batch.number,
            batch.hi,
            batch.moment,
            batch.lo,
            batch.cut,
            mode_number(batch.query.mode),
        ];
        self.add_keyed(alloc, Statement::AddBatch, &columns, &batch.query)
    }

    /// Adds a change whose last parameters are what a query is known by, but for its mode.
    fn add_keyed(
        &mut self,
        alloc: Global,
        statement: Statement,
        numbers: &[u64],
        key: &QueryKey,
    ) -> Result<(), NoMemory>
        ensures { OnOk result (self.new ≡ with_changes self.old (change statement (map number numbers.now ++ keyed key.now) ∷ [])) }
    {
        let change = Change::of(alloc, statement, numbers)?;
        let named = change.with_text(alloc, key.name.as_str())?;
        self.changes
            .push(named.with_text(alloc, key.text.as_str())?)
    }

    fn add_batch_parts(
        &mut self,
        alloc: Global,
        batch: u64,
        texts: Sequence<Bytes>,
    ) -> Result<(), NoMemory>
        ensures { OnOk result (self.new ≡ fold (with_batch_part batch) self.old texts) }
    {
        for text in texts.into_vec() {
            self.add_batch_part(alloc, batch, text)?;
        }
        Ok(())
    }

    fn add_batch_part(&mut self, alloc: Global, batch: u64, text: Bytes) -> Result<(), NoMemory>
        ensures { OnOk result (self.new ≡ with_batch_part batch self.old text) }
    {
        self.counts.parts = after(self.counts.parts)?;
        let place = [self.counts.parts, batch];
        self.add_list(alloc, Statement::AddBatchPart, &place, text)
    }
}

/// The texts of the rows of a table. One that is set to no rows has a text too.
fn set_texts(alloc: Global, rows: &[Row]) -> Result<Sequence<Bytes>, NoMemory>
    ensures { IfOk result (λ texts. texts ≡ map rows_text (set_groups rows.now)) }
{
    if !rows.is_empty() {
        return row_texts(alloc, rows);
    }
    let mut texts = Sequence::new(alloc);
    texts.push(Bytes::of(alloc, b"[]")?)?;
    Ok(texts)
}
