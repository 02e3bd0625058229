//! A source of a session.

ghost use Rattle.std.specs.Prelude.{◌≡◌, ◌≢◌, ◌<◌, ◌++◌, ℕ, [], length, List, true, false, All, Err, IfOk, OnOk, IfErr};
ghost use Rattle.osq_outside.specs.Causes.{FaultHasCause};
ghost use Rattle.publisher_core.specs.declared.error.StepError.{StepError};
ghost use Rattle.publisher_core.specs.declared.record.ReadRecord.{ReadRecord};
ghost use Rattle.publisher_core.specs.declared.record.Record.{Record};
ghost use Rattle.publisher_core.specs.Standing.{is_at_end};
ghost use Rattle.publisher_core.specs.Stepping.{GrowsBy};
ghost use Rattle.source_feeds.specs.Feeding.{Fed, IsOpen, SameFeed};
ghost use Rattle.source_feeds.specs.Joining.{Rise};
ghost use Rattle.source_feeds.specs.Readings.{IsReading};
ghost use Rattle.source_feeds.specs.Stepping.{IsShown, IsStep};

use crate::skips::skipped_with;
use osq_outside::Source;
use osq_value::{CategoryList, Copied, NoMemory, ReadingList, SourceKind, Str};
use publisher_core::error::StepError;
use publisher_core::publisher::Publisher;
use publisher_core::subscription::{Recorded, Subscription};
use publisher_core::watching::{Unseen, Watcher};
use std::alloc::Global;
use std::marker::Model;

/// A source of a session: it goes on behind the bytes that earlier sessions took, and gives its readings step by step.
#[derive(Drop)]
pub struct Feed {
    name: Str,
    kind: SourceKind,
    skipped: u64,
    publisher: Publisher<Recorded>,
}

impl Model for Feed {
    ghost use Rattle.std.specs.Prelude.{◌≡◌, false};
    ghost use Rattle.source_feeds.specs.Feeding.{Feeding, HasRead};

    ghost Value = { Feeding };

    ghost view = { λ s. record { name = s.name; kind = s.kind; skipped = s.skipped; reader = s.publisher } };

    ghost invariant = { λ s. s.publisher.is_spent ≡ false → HasRead s.kind s.publisher };
}

impl Feed {
    /// A feed of the source of this name, of which earlier sessions took `kept` bytes. Nothing is read yet.
    pub fn open(
        alloc: Global,
        name: Str,
        kind: SourceKind,
        kept: u64,
        paths: CategoryList,
    ) -> Result<Feed, NoMemory>
        ensures source { IfOk result (λ feed. (feed.name ≡ name) × (feed.kind ≡ kind) × (feed.reader.paths ≡ paths)) }
        ensures kept { IfOk result (λ feed. feed.reader.taken ≡ kept) }
        ensures fresh { IfOk result (λ feed. IsOpen feed) }
    {
        let subscription = Subscription::new(Recorded, paths);
        let publisher = Publisher::new(alloc, name.copy(alloc)?, kind, kept, subscription)?;
        Ok(Feed {
            name,
            kind,
            skipped: 0,
            publisher,
        })
    }

    /// The source's name.
    pub fn name(&self) -> &Str
        ensures { result.now ≡ self.now.name }
    {
        &self.name
    }

    /// What the source's lines are.
    pub fn kind(&self) -> SourceKind
        ensures { result ≡ self.now.kind }
    {
        self.kind
    }

    /// The source's offset behind the last record that was taken.
    pub fn taken(&self) -> u64
        ensures { result ≡ self.now.reader.taken }
    {
        self.publisher.taken()
    }

    /// How many lines were skipped in this session. The count stops at the last value of its type.
    pub fn skipped(&self) -> u64
        ensures { result ≡ self.now.skipped }
    {
        self.skipped
    }

    /// A read gave no bytes, and no line that was read with its line feed is left untaken.
    pub fn at_end(&self) -> bool
        ensures { result ≡ is_at_end self.now.reader }
    {
        self.publisher.at_end()
    }

    /// Drops the bytes that earlier sessions took of the source. It comes once, before the first step. The feed is spent where it refuses:
    /// where the source failed, or ended before these bytes.
    pub fn start<S: Source>(&mut self, source: &mut S) -> Result<(), StepError>
        requires fresh { IsOpen self.old }
        ensures fed { OnOk result (Fed S.tells (S.left source.old) (S.left source.new) self.new self.old.reader.taken []) }
        ensures begun { OnOk result (self.new ≡ record self.old { reader = record self.old.reader { is_begun = true } }) }
        ensures shrank { (kept found : ℕ) → result ≡ Err (StepError.SourceShrank kept found) → (kept ≡ self.old.reader.taken) × (found < kept) × (S.tells → length (S.left source.old) ≡ found) }
        ensures spent { IfErr result (λ error. self.new.reader.is_spent ≡ true) }
        ensures source { (self.new.name ≡ self.old.name) × (self.new.kind ≡ self.old.kind) }
        ensures cause { FaultHasCause StepError.SourceFault (S.faults source.old) (S.faults source.new) result }
    {
        self.publisher.start(source)
    }

    /// Takes whole records of the source: as many as `most`, or fewer where the source is at its end or this step has read 16777216 bytes.
    /// Its readings are those of the records; there are none exactly where the offset stands still. The feed is spent where it refuses:
    /// where the source failed, or memory was wanting; its count stays.
    pub fn step<S: Source>(&mut self, source: &mut S, most: u64) -> Result<ReadingList, StepError>
        requires begun { (self.old.reader.is_begun ≡ true) × (self.old.reader.is_spent ≡ false) }
        ensures steps { (before : List ℕ) → (kept : ℕ) → (given : List ReadRecord) → Fed S.tells before (S.left source.old) self.old kept given
            → IfOk result (λ readings. IsStep S.tells before (S.left source.old) (S.left source.new) self.old self.new kept given most readings) }
        ensures each { IfOk result (λ readings. All IsReading readings) }
        ensures rise { IfOk result (λ readings. Rise self.old.reader.taken readings self.new.reader.taken) }
        ensures grown { IfOk result (λ readings. GrowsBy self.old.reader.taken self.new.reader.taken readings) }
        ensures same { OnOk result (SameFeed self.old self.new) }
        ensures spent { IfErr result (λ error. self.new.reader.is_spent ≡ true) }
        ensures source { (self.new.name ≡ self.old.name) × (self.new.kind ≡ self.old.kind) }
        ensures uncounted { IfErr result (λ error. self.new.skipped ≡ self.old.skipped) }
        ensures shrank { (kept found : ℕ) → result ≢ Err (StepError.SourceShrank kept found) }
        ensures cause { FaultHasCause StepError.SourceFault (S.faults source.old) (S.faults source.new) result }
    {
        self.step_seen(source, most, &mut Unseen)
    }

    /// Takes a step, and shows the records from which its readings come to the watcher, once each and in order. All else is as `step` has it.
    /// What a watcher has seen in a step that is refused is not promised.
    pub fn step_seen<S: Source, W: Watcher>(
        &mut self,
        source: &mut S,
        most: u64,
        watcher: &mut W,
    ) -> Result<ReadingList, StepError>
        requires begun { (self.old.reader.is_begun ≡ true) × (self.old.reader.is_spent ≡ false) }
        ensures steps { (before : List ℕ) → (kept : ℕ) → (given : List ReadRecord) → Fed S.tells before (S.left source.old) self.old kept given
            → IfOk result (λ readings. IsStep S.tells before (S.left source.old) (S.left source.new) self.old self.new kept given most readings) }
        ensures seen { (before : List ℕ) → (kept : ℕ) → (given : List ReadRecord) → (seen : List Record) → Fed S.tells before (S.left source.old) self.old kept given → W.saw watcher.old seen
            → IfOk result (λ readings. (shown : List Record) × IsShown S.tells before (S.left source.old) (S.left source.new) self.old self.new kept given most readings shown × W.saw watcher.new (seen ++ shown)) }
        ensures each { IfOk result (λ readings. All IsReading readings) }
        ensures rise { IfOk result (λ readings. Rise self.old.reader.taken readings self.new.reader.taken) }
        ensures grown { IfOk result (λ readings. GrowsBy self.old.reader.taken self.new.reader.taken readings) }
        ensures same { OnOk result (SameFeed self.old self.new) }
        ensures spent { IfErr result (λ error. self.new.reader.is_spent ≡ true) }
        ensures source { (self.new.name ≡ self.old.name) × (self.new.kind ≡ self.old.kind) }
        ensures uncounted { IfErr result (λ error. self.new.skipped ≡ self.old.skipped) }
        ensures shrank { (kept found : ℕ) → result ≢ Err (StepError.SourceShrank kept found) }
        ensures cause { FaultHasCause StepError.SourceFault (S.faults source.old) (S.faults source.new) result }
    {
        match self.publisher.step_seen(source, most, watcher) {
            Ok(readings) => {
                self.skipped = skipped_with(self.skipped, readings.as_slice());
                Ok(readings)
            }
            Err(error) => Err(error),
        }
    }
}
