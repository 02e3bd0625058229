//! The records of an audit log, gathered from its lines.

ghost use Rattle.std.specs.Prelude.{◌≡◌, ◌+◌, [], ◌∷◌, ◌++◌, length, Some, None, true, false, OnOk, IfNone, IfSome};
ghost use Rattle.publisher_core.specs.Gathered.{lone, ended_records, Closes, Finishes, Gains, HasGathered, Takes};

use audit_records::{AuditGroup, AuditLine, GroupBuilder};
use osq_value::NoMemory;
use std::alloc::Global;
use std::collections::VecDeque;

/// A record of an audit log: a group with the number of skipped lines that stand between its lines, or one skipped line by itself, which
/// is None and 1. `end` is the stream's offset behind its last line.
#[derive(Drop)]
pub struct AuditRecord {
    /// The group, none for a skipped line by itself.
    pub group: Option<AuditGroup>,
    /// How many lines of the record were skipped.
    pub skipped: u64,
    /// In bytes of the stream.
    pub end: u64,
}

/// Gathers the lines of an audit log into records. A skipped line neither ends nor begins a group: one that stands between two lines of
/// one group belongs to the group's record, and any other is a record by itself. Each record is given as soon as it is known to be whole.
#[derive(Drop)]
pub struct Gathering {
    builder: GroupBuilder,
    /// A group is being built.
    holds: bool,
    /// The stream's offset behind the last line of that group.
    last: u64,
    /// The number of skipped lines that stand between its lines.
    inside: u64,
    /// The offsets behind the skipped lines that follow its last line so far.
    behind: Vec<u64>,
}

impl Gathering {
    /// A gathering that no line was put into. It takes no memory until a line is.
    pub fn new(alloc: Global) -> Self
        ensures stands { HasGathered [] [] result }
    {
        Gathering {
            builder: GroupBuilder::new(alloc),
            holds: false,
            last: 0,
            inside: 0,
            behind: Vec::new(alloc),
        }
    }

    /// Takes the next line of the log, which ends at this offset of the stream (None: a line that is skipped). The records that it
    /// completes are added behind the others, in the order of the log. Where memory is wanting, or a group has 2^64 skipped lines, the
    /// gathering is of no further use.
    pub fn take(
        &mut self,
        line: Option<AuditLine>,
        end: u64,
        records: &mut VecDeque<AuditRecord>,
    ) -> Result<(), NoMemory>
        ensures ok { OnOk result (Takes (record { line = line; end = end }) self.old self.new records.old.items records.new.items) }
        ensures grown { Gains (λ gained. Unit {0}) records.old.items records.new.items }
    {
        match line {
            Some(line) => self.take_line(line, end, records),
            None => self.skip(end, records),
        }
    }

    /// The log is at its end: what is held are records. Then the gathering holds nothing, and is as a new one.
    pub fn finish(&mut self, records: &mut VecDeque<AuditRecord>) -> Result<(), NoMemory>
        ensures ok { OnOk result (Finishes self.old self.new records.old.items records.new.items) }
        ensures grown { Gains (λ gained. Unit {0}) records.old.items records.new.items }
    {
        match self.builder.finish() {
            Some(group) => self.give(group, records),
            None => Ok(()),
        }
    }

    /// Takes a line that is skipped.
    fn skip(&mut self, end: u64, records: &mut VecDeque<AuditRecord>) -> Result<(), NoMemory>
        ensures ok { OnOk result (Takes (record { line = None; end = end }) self.old self.new records.old.items records.new.items) }
        ensures grown { Gains (λ gained. Unit {0}) records.old.items records.new.items }
    {
        if self.holds {
            self.behind.push(end)?;
        } else {
            give_lone(end, records)?;
        }
        Ok(())
    }

    /// Takes a line of the grammar.
    fn take_line(
        &mut self,
        line: AuditLine,
        end: u64,
        records: &mut VecDeque<AuditRecord>,
    ) -> Result<(), NoMemory>
        ensures ok { OnOk result (Takes (record { line = Some line; end = end }) self.old self.new records.old.items records.new.items) }
        ensures grown { Gains (λ gained. Unit {0}) records.old.items records.new.items }
    {
        let Ok(before) = self.builder.push(line) else {
            return Err(NoMemory);
        };
        let Ok(()) = self.settle(before, end, records) else {
            return Err(NoMemory);
        };
        self.end_own(records)
    }

    /// The builder has taken a line that ends at this offset, and has given this group before it: where it is none, the line goes on with
    /// the group, and the skipped lines that waited stand inside it.
    fn settle(
        &mut self,
        before: Option<AuditGroup>,
        end: u64,
        records: &mut VecDeque<AuditRecord>,
    ) -> Result<(), NoMemory>
        ensures some { IfSome before (λ group. OnOk result ((records.new.items ≡ records.old.items ++ ended_records self.old group) × (self.new.inside ≡ 0))) }
        ensures none { IfNone before (OnOk result ((records.new.items ≡ records.old.items) × (self.new.inside ≡ self.old.inside + length self.old.behind.items))) }
        ensures behind { OnOk result (self.new.behind.items ≡ []) }
        ensures last { OnOk result (self.new.last ≡ end) }
        ensures holds { OnOk result (self.new.holds ≡ true) }
        ensures builder { self.new.builder ≡ self.old.builder }
        ensures grown { Gains (λ gained. Unit {0}) records.old.items records.new.items }
    {
        match before {
            Some(group) => self.give(group, records)?,
            None => self.take_behind_in()?,
        }
        self.last = end;
        self.holds = true;
        Ok(())
    }

    /// Gives the group that the line put in last ended itself, if it did.
    fn end_own(&mut self, records: &mut VecDeque<AuditRecord>) -> Result<(), NoMemory>
        ensures ok { OnOk result (Closes self.old self.new records.old.items records.new.items) }
        ensures grown { Gains (λ gained. Unit {0}) records.old.items records.new.items }
    {
        match self.builder.finish_own() {
            Some(group) => self.give(group, records),
            None => Ok(()),
        }
    }

    /// This group has ended, which was held: it is a record, and so is each skipped line that waits behind it.
    fn give(
        &mut self,
        group: AuditGroup,
        records: &mut VecDeque<AuditRecord>,
    ) -> Result<(), NoMemory>
        ensures records { OnOk result (records.new.items ≡ records.old.items ++ ended_records self.old group) }
        ensures behind { OnOk result (self.new.behind.items ≡ []) }
        ensures inside { OnOk result (self.new.inside ≡ 0) }
        ensures holds { OnOk result (self.new.holds ≡ false) }
        ensures builder { self.new.builder ≡ self.old.builder }
        ensures grown { Gains (λ gained. Unit {0}) records.old.items records.new.items }
    {
        records.push_back(AuditRecord {
            group: Some(group),
            skipped: self.inside,
            end: self.last,
        })?;
        for end in &self.behind {
            give_lone(*end, records)?;
        }
        self.behind.clear();
        self.inside = 0;
        self.holds = false;
        Ok(())
    }

    /// The skipped lines that waited stand inside the group.
    fn take_behind_in(&mut self) -> Result<(), NoMemory>
        ensures inside { OnOk result (self.new.inside ≡ self.old.inside + length self.old.behind.items) }
        ensures behind { OnOk result (self.new.behind.items ≡ []) }
        ensures builder { self.new.builder ≡ self.old.builder }
    {
        let Some(inside) = self.inside.checked_add(self.behind.len() as u64) else {
            return Err(NoMemory);
        };
        self.inside = inside;
        self.behind.clear();
        Ok(())
    }
}

/// A skipped line that stands in no group is a record by itself.
fn give_lone(end: u64, records: &mut VecDeque<AuditRecord>) -> Result<(), NoMemory>
    ensures ok { OnOk result (records.new.items ≡ records.old.items ++ lone end ∷ []) }
    ensures grown { Gains (λ gained. Unit {0}) records.old.items records.new.items }
{
    records.push_back(AuditRecord {
        group: None,
        skipped: 1,
        end,
    })?;
    Ok(())
}
