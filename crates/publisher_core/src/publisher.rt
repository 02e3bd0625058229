//! Publishers.

ghost use Rattle.std.specs.Prelude.{◌≡◌, ◌≢◌, ◌≤◌, ◌<◌, ◌+◌, ◌⊎◌, ℕ, [], ◌∷◌, ◌++◌, length, List, map, true, false, Ok, Err, IfOk, OnOk, IfErr, MatchOption, vec_len};
ghost use Rattle.osq_outside.specs.Causes.{FaultHasCause};
ghost use Rattle.record_lines.specs.Limits.{LINE_LIMIT, PIECE_BYTES, STEP_BYTES};
ghost use Rattle.std.specs.List.{AllZip};
ghost use Rattle.publisher_core.specs.Stepping.{FindsNext, Goes, Grows, GrowsBy, IsDry, IsDrained, TakesCut, SameSource, Reads, StepFinds, Steps};
ghost use Rattle.publisher_core.specs.Readings.{readings_of};
ghost use Rattle.publisher_core.specs.Standing.{Reader, HasFound, HasPublished, is_at_end, limit_of};
ghost use Rattle.publisher_core.specs.Audit.{line_in};
ghost use Rattle.publisher_core.specs.Found.{IsFoundAs, IsGainOf, IsGiven, item_in, items_found};
ghost use Rattle.publisher_core.specs.Gathered.{Takes};
ghost use Rattle.record_lines.specs.Lines.{cut_of};
ghost use Rattle.publisher_core.specs.declared.error.StepError.{StepError};
ghost use Rattle.osq_value.specs.declared.source.SourceKind.TheVariants.{Tables};
ghost use Rattle.publisher_core.specs.declared.record.Found.{Found};
ghost use Rattle.publisher_core.specs.declared.record.Found.TheVariants as found;
ghost use Rattle.publisher_core.specs.declared.record.Raw.{Raw};
ghost use Rattle.publisher_core.specs.declared.record.ReadRecord.{ReadRecord};
ghost use Rattle.publisher_core.specs.declared.record.Record.{Record};
ghost use Rattle.publisher_core.specs.declared.record.Next.{Next};

use crate::error::StepError;
use crate::gaining::given;
use crate::gathering::{AuditRecord, Gathering};
use crate::line::{TABLE_LIMIT, audit_line, change_raw, table_gain};
use crate::readings::readings_of;
use crate::record::{Found, Next, Raw, ReadRecord, ReadRecordList, Record, RecordList};
use crate::subscription::{Callback, Subscription};
use crate::watching::{Unseen, Watcher};
use audit_records::AuditGroup;
use json::Scratch;
use osq_outside::{Source, SourceFault};
use osq_value::{NoMemory, ReadingList, SourceKind, Str};
use record_lines::{Cut, LINE_LIMIT, LineCutter, PIECE_BYTES, STEP_BYTES};
use std::alloc::{AllocError, Global};
use std::collections::VecDeque;
use std::marker::Model;

/// Reads one source, record by record, and gives what a callback makes of them.
///
/// ```
/// let subscription = Subscription::new(Recorded, CategoryList::new(alloc));
/// let mut publisher = Publisher::new(alloc, Str::of(alloc, "audit.log")?, SourceKind::Audit, 0, subscription)?;
/// publisher.start(&mut source)?;
/// let readings = publisher.step(&mut source, 100)?;   // the events of the next 100 records, in one reading or none
/// publisher.taken()         // the source's offset, in bytes, behind the last of them
/// ```
#[derive(Drop)]
pub struct Publisher<C> {
    alloc: Global,
    name: Str,
    kind: SourceKind,
    taken: u64,
    subscription: Subscription<C>,
    cutter: LineCutter,
    gathering: Gathering,
    ready: VecDeque<AuditRecord>,
    piece: Vec<u8>,
    scratch: Box<Scratch>,
    is_begun: bool,
    is_ended: bool,
    is_spent: bool,
}

impl<C> Model for Publisher<C> {
    ghost use Rattle.std.specs.Prelude.{◌≡◌, vec_len};
    ghost use Rattle.publisher_core.specs.Standing.{Reader};
    ghost use Rattle.record_lines.specs.Limits.{PIECE_BYTES};

    ghost Value = { Reader };

    ghost view = { λ s. record { kind = s.kind; paths = s.subscription.paths; taken = s.taken; cutter = s.cutter; gathering = s.gathering; ready = s.ready.items; is_begun = s.is_begun; is_ended = s.is_ended; is_spent = s.is_spent } };

    ghost invariant = { λ s. vec_len s.piece ≡ PIECE_BYTES };
}

/// Room for a piece.
fn room(alloc: Global, len: usize) -> Result<Vec<u8>, AllocError>
    ensures { IfOk result (λ piece. vec_len piece ≡ len) }
{
    vec![in alloc; 0u8; len]
}

/// Takes and drops so many bytes of a source, by pieces that have room here.
fn drop_kept<S: Source>(source: &mut S, kept: u64, piece: &mut [u8]) -> Result<(), StepError>
    requires room { length piece.old ≡ PIECE_BYTES }
    ensures dropped { OnOk result (S.tells → (front : List ℕ) × (length front ≡ kept) × (S.left source.old ≡ front ++ S.left source.new)) }
    ensures shrank { (told found : ℕ) → result ≡ Err (StepError.SourceShrank told found) → (told ≡ kept) × (found < kept) × (S.tells → length (S.left source.old) ≡ found) }
    ensures cause { FaultHasCause StepError.SourceFault (S.faults source.old) (S.faults source.new) result }
{
    let mut found = 0;
    while found < kept {
        let room = (kept - found).min(PIECE_BYTES as u64) as usize;
        let (front, _) = piece.split_at_mut(room);
        match source.read(front) {
            Err(SourceFault) => return Err(StepError::SourceFault),
            Ok(0) => return Err(StepError::SourceShrank { kept, found }),
            Ok(count) => found += count as u64,
        }
    }
    Ok(())
}

/// The most bytes of a line of such a source.
fn limit_of(kind: SourceKind) -> u64
    ensures { result ≡ limit_of kind }
{
    match kind {
        SourceKind::Audit => LINE_LIMIT,
        SourceKind::Changes => LINE_LIMIT,
        SourceKind::Tables => TABLE_LIMIT,
    }
}

/// The offset behind a line.
fn end_of(cut: &Cut) -> u64
    ensures { (limit end : ℕ) → (line : List ℕ) → cut.now ≡ cut_of limit end line → result ≡ end }
{
    match cut {
        Cut::Line(line) => line.end,
        Cut::Skipped { end } => *end,
    }
}

/// What a callback is given of a group; nothing of a skipped line by itself.
fn item_in(group: Option<AuditGroup>) -> Option<Record>
    ensures { result ≡ item_in group }
{
    match group {
        None => None,
        Some(group) => Some(Record::Group(group)),
    }
}

impl<C: Callback> Publisher<C> {
    /// A publisher of the source of this name, of which earlier runs took `kept` bytes.
    pub fn new(
        alloc: Global,
        name: Str,
        kind: SourceKind,
        kept: u64,
        subscription: Subscription<C>,
    ) -> Result<Self, NoMemory>
        ensures kind { IfOk result (λ made. made.kind ≡ kind) }
        ensures paths { IfOk result (λ made. made.paths ≡ subscription.paths) }
        ensures kept { IfOk result (λ made. made.taken ≡ kept) }
        ensures fresh { IfOk result (λ made. (made.is_begun ≡ false) × (made.is_ended ≡ false) × (made.is_spent ≡ false)) }
        ensures stands { IfOk result (λ made. HasPublished made [] kept []) }
    {
        Ok(Publisher {
            alloc,
            name,
            kind,
            taken: kept,
            subscription,
            cutter: LineCutter::new(alloc, limit_of(kind), kept),
            gathering: Gathering::new(alloc),
            ready: VecDeque::new(alloc),
            piece: room(alloc, PIECE_BYTES)?,
            scratch: Box::new(alloc, Scratch::new(alloc))?,
            is_begun: false,
            is_ended: false,
            is_spent: false,
        })
    }

    /// The source's name.
    pub fn name(&self) -> &Str {
        &self.name
    }

    /// A read gave no bytes, and no line that was read with its line feed is left untaken.
    pub fn at_end(&self) -> bool
        ensures end { result ≡ is_at_end self.now }
        ensures all { result ≡ true → (given : List ReadRecord) → (start : ℕ) → (stream : List ℕ) → HasPublished self.now given start stream → IsDry self.now given start stream }
    {
        self.has_nothing_left()
    }

    fn has_nothing_left(&self) -> bool
        ensures { result ≡ is_at_end self.now }
    {
        self.is_ended && self.ready.is_empty()
    }

    /// An earlier call on it refused.
    pub fn is_spent(&self) -> bool
        ensures { result ≡ self.now.is_spent }
    {
        self.is_spent
    }

    /// The source's offset behind the last record that was given.
    pub fn taken(&self) -> u64
        ensures { result ≡ self.now.taken }
    {
        self.taken
    }

    /// Takes and drops the bytes that earlier runs took of the source. It comes once, before the first step. The publisher is spent where it
    /// refuses: where the source failed, or ended before these bytes.
    pub fn start<S: Source>(&mut self, source: &mut S) -> Result<(), StepError>
        requires fresh { (self.old.is_begun ≡ false) × (self.old.is_spent ≡ false) }
        ensures dropped { OnOk result (S.tells → (front : List ℕ) × (length front ≡ self.old.taken) × (S.left source.old ≡ front ++ S.left source.new)) }
        ensures begun { OnOk result (self.new ≡ record self.old { is_begun = true }) }
        ensures stands { (given : List ReadRecord) → (start : ℕ) → (stream : List ℕ) → HasPublished self.old given start stream → OnOk result (HasPublished self.new given start stream) }
        ensures shrank { (kept found : ℕ) → result ≡ Err (StepError.SourceShrank kept found) → (kept ≡ self.old.taken) × (found < kept) × (S.tells → length (S.left source.old) ≡ found) }
        ensures spent { IfErr result (λ error. self.new ≡ record self.old { is_begun = true; is_spent = true }) }
        ensures cause { FaultHasCause StepError.SourceFault (S.faults source.old) (S.faults source.new) result }
    {
        self.is_begun = true;
        match drop_kept(source, self.taken, self.piece.as_mut_slice()) {
            Ok(()) => Ok(()),
            Err(error) => {
                self.is_spent = true;
                Err(error)
            }
        }
    }

    /// Takes whole records of the source: as many as `most`, or fewer where the source is at its end or this step has read 16777216 bytes.
    /// Its readings are those of the records; there are none exactly where the offset stands still. The publisher is spent where it refuses:
    /// where the source failed, or memory was wanting.
    pub fn step<S: Source>(&mut self, source: &mut S, most: u64) -> Result<ReadingList, StepError>
        requires begun { (self.old.is_begun ≡ true) × (self.old.is_spent ≡ false) }
        ensures steps { (given : List ReadRecord) → (start : ℕ) → (stream : List ℕ) → HasPublished self.old given start stream
            → IfOk result (λ readings. (pieces : List ReadRecord) × (readings ≡ readings_of self.old.kind pieces)
            × Steps S.tells (S.left source.old) (S.left source.new) self.new given start stream pieces most) }
        ensures grown { (given : List ReadRecord) → (start : ℕ) → (stream : List ℕ) → HasPublished self.old given start stream → IfOk result (λ readings. GrowsBy self.old.taken self.new.taken readings) }
        ensures same { OnOk result (SameSource self.old self.new) }
        ensures spent { IfErr result (λ error. self.new.is_spent ≡ true) }
        ensures shrank { (kept found : ℕ) → result ≢ Err (StepError.SourceShrank kept found) }
        ensures end { (S.tells → self.old.is_ended ≡ true → S.left source.old ≡ []) → OnOk result (S.tells → self.new.is_ended ≡ true → S.left source.new ≡ []) }
        ensures cause { FaultHasCause StepError.SourceFault (S.faults source.old) (S.faults source.new) result }
    {
        self.step_seen(source, most, &mut Unseen)
    }

    /// Takes a step, and shows each of its records to the watcher, in order, before the callback is asked about it. All else is as `step` has it.
    pub fn step_seen<S: Source, W: Watcher>(
        &mut self,
        source: &mut S,
        most: u64,
        watcher: &mut W,
    ) -> Result<ReadingList, StepError>
        requires begun { (self.old.is_begun ≡ true) × (self.old.is_spent ≡ false) }
        ensures steps { (given : List ReadRecord) → (start : ℕ) → (stream : List ℕ) → HasPublished self.old given start stream
            → IfOk result (λ readings. (pieces : List ReadRecord) × (readings ≡ readings_of self.old.kind pieces)
            × Steps S.tells (S.left source.old) (S.left source.new) self.new given start stream pieces most) }
        ensures seen { (before : List Found) → (start : ℕ) → (stream : List ℕ) → (seen : List Record) → HasFound self.old before start stream → W.saw watcher.old seen
            → IfOk result (λ readings. (found : List Found) × (pieces : List ReadRecord) × AllZip (IsGiven self.old.paths) found pieces × (readings ≡ readings_of self.old.kind pieces)
            × StepFinds S.tells (S.left source.old) (S.left source.new) self.new before start stream found most × W.saw watcher.new (seen ++ items_found found)) }
        ensures grown { (given : List ReadRecord) → (start : ℕ) → (stream : List ℕ) → HasPublished self.old given start stream → IfOk result (λ readings. GrowsBy self.old.taken self.new.taken readings) }
        ensures same { OnOk result (SameSource self.old self.new) }
        ensures spent { IfErr result (λ error. self.new.is_spent ≡ true) }
        ensures shrank { (kept found : ℕ) → result ≢ Err (StepError.SourceShrank kept found) }
        ensures end { (S.tells → self.old.is_ended ≡ true → S.left source.old ≡ []) → OnOk result (S.tells → self.new.is_ended ≡ true → S.left source.new ≡ []) }
        ensures cause { FaultHasCause StepError.SourceFault (S.faults source.old) (S.faults source.new) result }
    {
        match self.take_readings(source, most, watcher) {
            Ok(readings) => Ok(readings),
            Err(error) => {
                self.is_spent = true;
                Err(error)
            }
        }
    }

    /// Takes the records of a step, as many and as far as `step` does, and asks no callback about them: it gives each as it was found. What is
    /// wanted of memory or of the source spends the publisher, as in `step`. A source of tables has no such records.
    pub fn records<S: Source>(&mut self, source: &mut S, max: u64) -> Result<RecordList, StepError>
        requires begun { (self.old.is_begun ≡ true) × (self.old.is_spent ≡ false) }
        requires kind { self.old.kind ≢ Tables }
        ensures records { (given : List ReadRecord) → (start : ℕ) → (stream : List ℕ) → HasPublished self.old given start stream
            → IfOk result (λ raws. (pieces : List ReadRecord) → AllZip (IsGainOf self.old.paths) raws pieces
            → Steps S.tells (S.left source.old) (S.left source.new) self.new given start stream pieces max) }
        ensures found { (before : List Found) → (start : ℕ) → (stream : List ℕ) → HasFound self.old before start stream
            → IfOk result (λ raws. StepFinds S.tells (S.left source.old) (S.left source.new) self.new before start stream (map found.Record raws) max) }
        ensures grown { (given : List ReadRecord) → (start : ℕ) → (stream : List ℕ) → HasPublished self.old given start stream → IfOk result (λ raws. GrowsBy self.old.taken self.new.taken raws) }
        ensures same { OnOk result (SameSource self.old self.new) }
        ensures spent { IfErr result (λ error. self.new.is_spent ≡ true) }
        ensures shrank { (kept found : ℕ) → result ≢ Err (StepError.SourceShrank kept found) }
        ensures end { (S.tells → self.old.is_ended ≡ true → S.left source.old ≡ []) → OnOk result (S.tells → self.new.is_ended ≡ true → S.left source.new ≡ []) }
        ensures cause { FaultHasCause StepError.SourceFault (S.faults source.old) (S.faults source.new) result }
    {
        match self.take_raws(source, max) {
            Ok(raws) => Ok(raws),
            Err(error) => {
                self.is_spent = true;
                Err(error)
            }
        }
    }

    /// Takes the records of a step, as they are found.
    fn take_raws<S: Source>(&mut self, source: &mut S, max: u64) -> Result<RecordList, StepError>
        requires kind { self.old.kind ≢ Tables }
        ensures found { (before : List Found) → (start : ℕ) → (stream : List ℕ) → HasFound self.old before start stream
            → IfOk result (λ raws. StepFinds S.tells (S.left source.old) (S.left source.new) self.new before start stream (map found.Record raws) max) }
        ensures grown { (before : List Found) → (start : ℕ) → (stream : List ℕ) → HasFound self.old before start stream → IfOk result (λ raws. GrowsBy self.old.taken self.new.taken raws) }
        ensures same { SameSource self.old self.new }
        ensures shrank { (kept found : ℕ) → result ≢ Err (StepError.SourceShrank kept found) }
        ensures end { (S.tells → self.old.is_ended ≡ true → S.left source.old ≡ []) → OnOk result (S.tells → self.new.is_ended ≡ true → S.left source.new ≡ []) }
        ensures cause { FaultHasCause StepError.SourceFault (S.faults source.old) (S.faults source.new) result }
    {
        let mut raws = RecordList::new(self.alloc);
        let mut read = 0;
        while (raws.len() as u64) < max {
            match self.next_found(source, &mut read) {
                Err(error) => return Err(error),
                Ok(None) => return Ok(raws),
                // No line of tables is found here.
                Ok(Some(Found::Table(_own))) => return Ok(raws),
                Ok(Some(Found::Record(raw))) => {
                    let Ok(()) = raws.push(raw) else {
                        return Err(StepError::NoMemory);
                    };
                }
            }
        }
        Ok(raws)
    }

    fn take_readings<S: Source, W: Watcher>(
        &mut self,
        source: &mut S,
        most: u64,
        watcher: &mut W,
    ) -> Result<ReadingList, StepError>
        ensures seen { (before : List Found) → (start : ℕ) → (stream : List ℕ) → HasFound self.old before start stream
            → IfOk result (λ readings. (found : List Found) × (pieces : List ReadRecord) × AllZip (IsGiven self.old.paths) found pieces × (readings ≡ readings_of self.old.kind pieces)
            × StepFinds S.tells (S.left source.old) (S.left source.new) self.new before start stream found most
            × ((seen : List Record) → W.saw watcher.old seen → W.saw watcher.new (seen ++ items_found found))) }
        ensures grown { (before : List Found) → (start : ℕ) → (stream : List ℕ) → HasFound self.old before start stream → IfOk result (λ readings. GrowsBy self.old.taken self.new.taken readings) }
        ensures same { SameSource self.old self.new }
        ensures shrank { (kept found : ℕ) → result ≢ Err (StepError.SourceShrank kept found) }
        ensures end { (S.tells → self.old.is_ended ≡ true → S.left source.old ≡ []) → OnOk result (S.tells → self.new.is_ended ≡ true → S.left source.new ≡ []) }
        ensures cause { FaultHasCause StepError.SourceFault (S.faults source.old) (S.faults source.new) result }
    {
        let pieces = match self.take_records(source, most, watcher) {
            Ok(pieces) => pieces,
            Err(error) => return Err(error),
        };
        let Ok(readings) = readings_of(self.alloc, self.kind, pieces) else {
            return Err(StepError::NoMemory);
        };
        Ok(readings)
    }

    /// Takes the records of a step, and gives what the callback makes of each. The watcher sees each before the callback is asked.
    fn take_records<S: Source, W: Watcher>(
        &mut self,
        source: &mut S,
        most: u64,
        watcher: &mut W,
    ) -> Result<ReadRecordList, StepError>
        ensures seen { (before : List Found) → (start : ℕ) → (stream : List ℕ) → HasFound self.old before start stream
            → IfOk result (λ pieces. (many : List Found) × AllZip (IsGiven self.old.paths) many pieces
            × StepFinds S.tells (S.left source.old) (S.left source.new) self.new before start stream many most
            × ((seen : List Record) → W.saw watcher.old seen → W.saw watcher.new (seen ++ items_found many))) }
        ensures grown { (before : List Found) → (start : ℕ) → (stream : List ℕ) → HasFound self.old before start stream → IfOk result (λ pieces. GrowsBy self.old.taken self.new.taken pieces) }
        ensures same { SameSource self.old self.new }
        ensures shrank { (kept found : ℕ) → result ≢ Err (StepError.SourceShrank kept found) }
        ensures end { (S.tells → self.old.is_ended ≡ true → S.left source.old ≡ []) → OnOk result (S.tells → self.new.is_ended ≡ true → S.left source.new ≡ []) }
        ensures cause { FaultHasCause StepError.SourceFault (S.faults source.old) (S.faults source.new) result }
    {
        let mut pieces = ReadRecordList::new(self.alloc);
        let mut read = 0;
        while (pieces.len() as u64) < most {
            match self.next_found(source, &mut read) {
                Err(error) => return Err(error),
                Ok(None) => return Ok(pieces),
                Ok(Some(one)) => {
                    let Ok(piece) = given(self.alloc, &self.subscription, watcher, one) else {
                        return Err(StepError::NoMemory);
                    };
                    let Ok(()) = pieces.push(piece) else {
                        return Err(StepError::NoMemory);
                    };
                }
            }
        }
        Ok(pieces)
    }

    /// The next of what a step finds. Where no line is left of those read before it reads on, up to the source's end or until the step has
    /// read 16777216 bytes; `read` counts them.
    fn next_found<S: Source>(
        &mut self,
        source: &mut S,
        read: &mut u64,
    ) -> Result<Option<Found>, StepError>
        requires within { read.old ≤ STEP_BYTES + PIECE_BYTES }
        ensures found { (before : List Found) → (start : ℕ) → (stream : List ℕ) → HasFound self.old before start stream
            → IfOk result (λ found. FindsNext S.tells (S.left source.old) (S.left source.new) self.new before start stream read.old read.new found) }
        ensures grown { (before : List Found) → (start : ℕ) → (stream : List ℕ) → HasFound self.old before start stream
            → IfOk result (λ found. MatchOption found (self.new.taken ≡ self.old.taken) (λ one. self.old.taken < self.new.taken)) }
        ensures within { read.new ≤ STEP_BYTES + PIECE_BYTES }
        ensures same { SameSource self.old self.new }
        ensures shrank { (kept found : ℕ) → result ≢ Err (StepError.SourceShrank kept found) }
        ensures end { (S.tells → self.old.is_ended ≡ true → S.left source.old ≡ []) → OnOk result (S.tells → self.new.is_ended ≡ true → S.left source.new ≡ []) }
        ensures cause { FaultHasCause StepError.SourceFault (S.faults source.old) (S.faults source.new) result }
    {
        loop {
            match self.next_piece() {
                Err(NoMemory) => return Err(StepError::NoMemory),
                Ok(Some(one)) => return Ok(Some(one)),
                Ok(None) => {
                    if self.is_ended || *read >= STEP_BYTES {
                        return Ok(None);
                    }
                    match self.read_piece(source) {
                        Ok(count) => *read += count,
                        Err(error) => return Err(error),
                    }
                }
            }
        }
    }

    /// What was found ends at this offset.
    fn give(&mut self, end: u64, found: Found) -> Next
        ensures given { result ≡ Next.Whole found }
        ensures taken { self.new ≡ record self.old { taken = end } }
    {
        self.taken = end;
        Next::Whole(found)
    }

    /// Finds a record of an audit log.
    fn give_audit(&mut self, made: AuditRecord) -> Found
        ensures given { IsFoundAs made result }
        ensures taken { self.new ≡ record self.old { taken = made.end } }
    {
        let AuditRecord {
            group,
            skipped,
            end,
        } = made;
        self.taken = end;
        let item = item_in(group);
        Found::Record(Raw { item, skipped, end })
    }

    /// The next record of the lines that were read, or none where no whole one is left.
    fn next_piece(&mut self) -> Result<Option<Found>, NoMemory>
        ensures found { (given : List Found) → (start : ℕ) → (stream : List ℕ) → HasFound self.old given start stream
            → IfOk result (λ found. MatchOption found (IsDrained self.new given start stream) (λ piece. HasFound self.new (given ++ piece ∷ []) start stream)) }
        ensures grown { (given : List Found) → (start : ℕ) → (stream : List ℕ) → HasFound self.old given start stream
            → IfOk result (λ found. MatchOption found (self.new.taken ≡ self.old.taken) (λ piece. self.old.taken < self.new.taken)) }
        ensures same { self.new ≡ record self.old { taken = self.new.taken; cutter = self.new.cutter; gathering = self.new.gathering; ready = self.new.ready } }
    {
        loop {
            match self.next_record() {
                Err(NoMemory) => return Err(NoMemory),
                Ok(Next::More) => {}
                Ok(Next::Nothing) => return Ok(None),
                Ok(Next::Whole(piece)) => return Ok(Some(piece)),
            }
        }
    }

    /// What becomes of the next line that was read.
    fn next_record(&mut self) -> Result<Next, NoMemory>
        ensures goes { (given : List Found) → (start : ℕ) → (stream : List ℕ) → HasFound self.old given start stream → IfOk result (λ next. Goes self.new given start stream next) }
        ensures grown { (given : List Found) → (start : ℕ) → (stream : List ℕ) → HasFound self.old given start stream → IfOk result (λ next. Grows self.old.taken self.new.taken next) }
        ensures fewer { result ≡ Ok Next.More → length self.new.cutter.ready < length self.old.cutter.ready }
        ensures same { self.new ≡ record self.old { taken = self.new.taken; cutter = self.new.cutter; gathering = self.new.gathering; ready = self.new.ready } }
    {
        if let Some(made) = self.ready.pop_front() {
            return Ok(Next::Whole(self.give_audit(made)));
        }
        let Some(cut) = self.cutter.take_line() else {
            return Ok(Next::Nothing);
        };
        match self.take_line(&cut) {
            Err(NoMemory) => Err(NoMemory),
            Ok(next) => Ok(next),
        }
    }

    /// What becomes of a line.
    fn take_line(&mut self, cut: &Cut) -> Result<Next, NoMemory>
        requires none { self.old.ready ≡ [] }
        ensures goes { (before : Reader) → (given : List Found) → (start : ℕ) → (stream : List ℕ) → TakesCut before self.old given start stream cut.now → IfOk result (λ next. Goes self.new given start stream next) }
        ensures grown { (before : Reader) → (given : List Found) → (start : ℕ) → (stream : List ℕ) → TakesCut before self.old given start stream cut.now → IfOk result (λ next. Grows self.old.taken self.new.taken next) }
        ensures nothing { result ≢ Ok Next.Nothing }
        ensures same { self.new ≡ record self.old { taken = self.new.taken; gathering = self.new.gathering; ready = self.new.ready } }
    {
        let end = end_of(cut);
        match self.kind {
            SourceKind::Audit => match self.gather(cut, end) {
                Err(NoMemory) => Err(NoMemory),
                Ok(()) => Ok(Next::More),
            },
            SourceKind::Changes => match change_raw(self.alloc, &mut self.scratch, cut, end) {
                Err(NoMemory) => Err(NoMemory),
                Ok(raw) => Ok(self.give(end, Found::Record(raw))),
            },
            SourceKind::Tables => match table_gain(self.alloc, cut) {
                Err(NoMemory) => Err(NoMemory),
                Ok(gain) => Ok(self.give(end, Found::Table(ReadRecord { gain, end }))),
            },
        }
    }

    /// Takes in a line of an audit log, which ends at this offset.
    fn gather(&mut self, cut: &Cut, end: u64) -> Result<(), NoMemory>
        ensures gathered { (line : List ℕ) → (at : ℕ) → cut.now ≡ cut_of LINE_LIMIT at line
            → OnOk result (Takes (record { line = line_in line; end = end }) self.old.gathering self.new.gathering self.old.ready self.new.ready) }
        ensures same { self.new ≡ record self.old { gathering = self.new.gathering; ready = self.new.ready } }
    {
        let Ok(line) = audit_line(self.alloc, cut) else {
            return Err(NoMemory);
        };
        let Ok(()) = self.gathering.take(line, end, &mut self.ready) else {
            return Err(NoMemory);
        };
        Ok(())
    }

    /// Reads one more piece of the source, where no line is left of those read before. Answers how many bytes it has: none at the source's
    /// end, where the records of an audit log that could go on are whole.
    fn read_piece<S: Source>(&mut self, source: &mut S) -> Result<u64, StepError>
        requires more { self.old.is_ended ≡ false }
        ensures read { (given : List Found) → (start : ℕ) → (stream : List ℕ) → IsDrained self.old given start stream → IfOk result (λ count. Reads S.tells (S.left source.old) (S.left source.new) self.new given start stream count) }
        ensures count { IfOk result (λ count. count ≤ PIECE_BYTES) }
        ensures end { IfOk result (λ count. (count ≡ 0 → self.new.is_ended ≡ true) × (count ≢ 0 → self.new.is_ended ≡ false)) }
        ensures left { S.tells → result ≡ Ok 0 → S.left source.new ≡ [] }
        ensures same { self.new ≡ record self.old { cutter = self.new.cutter; gathering = self.new.gathering; ready = self.new.ready; is_ended = self.new.is_ended } }
        ensures cause { FaultHasCause StepError.SourceFault (S.faults source.old) (S.faults source.new) result }
        ensures reads { (kept found : ℕ) → result ≢ Err (StepError.SourceShrank kept found) }
    {
        let Ok(count) = source.read(self.piece.as_mut_slice()) else {
            return Err(StepError::SourceFault);
        };
        if count == 0 {
            let Ok(()) = self.end() else {
                return Err(StepError::NoMemory);
            };
            return Ok(0);
        }
        let (fresh, _) = self.piece.as_slice().split_at(count);
        let Ok(()) = self.cutter.feed(fresh) else {
            return Err(StepError::NoMemory);
        };
        Ok(count as u64)
    }

    /// The source is at its end.
    fn end(&mut self) -> Result<(), NoMemory>
        requires more { self.old.is_ended ≡ false }
        ensures ended { (given : List Found) → (start : ℕ) → (stream : List ℕ) → IsDrained self.old given start stream → OnOk result (HasFound self.new given start stream) }
        ensures same { self.new ≡ record self.old { gathering = self.new.gathering; ready = self.new.ready; is_ended = true } }
    {
        self.is_ended = true;
        match self.kind {
            SourceKind::Audit => {
                let Ok(()) = self.gathering.finish(&mut self.ready) else {
                    return Err(NoMemory);
                };
                Ok(())
            }
            SourceKind::Changes => Ok(()),
            SourceKind::Tables => Ok(()),
        }
    }
}
