//! The groups of consecutive lines that one audit event wrote.
ghost use Rattle.std.specs.Prelude.{◌≡◌, if◌then◌else◌, ◌∷◌, ◌++◌, [], List, OnOk, OnErr, IfOk, Some, None};
ghost use Rattle.std.specs.Option.{option_to_list};
ghost use Rattle.audit_records.specs.declared.line.AuditLine.{AuditLine};
ghost use Rattle.audit_records.specs.Groups.{HasGrouped, ends_by_kind, goes_on, groups_behind, groups_of, is_ended, own_group, whole};
ghost use Rattle.audit_records.specs.Runs.{AreRunsOf};

use crate::line::AuditLine;
use osq_value::{NoMemory, Sequence};
use std::alloc::Global;
use std::marker::Model;
use std::mem;

/// No group has more lines.
const MOST_LINES: usize = 4096;

/// Consecutive lines with one id, in their order.
pub type AuditGroup = Sequence<AuditLine>;

/// Gathers lines into groups: runs of consecutive lines with the same id. A group ends before a line with another id, after a line of
/// type EOE or PROCTITLE, after its 4096th line, and at the end of input. Contracts see the lines that the builder holds, which are those
/// of the group that is being built.
#[derive(Drop)]
pub struct GroupBuilder {
    alloc: Global,
    held: AuditGroup,
}

impl Model for GroupBuilder {
    ghost use Rattle.std.specs.Prelude.{List};
    ghost use Rattle.audit_records.specs.declared.line.AuditLine.{AuditLine};

    ghost Value = { List AuditLine };

    ghost view = { λ s. s.held };
}

impl GroupBuilder {
    /// A builder that holds no line. It takes no memory until a line is pushed.
    pub fn new(alloc: Global) -> Self
        ensures empty { result ≡ [] }
        ensures stands { HasGrouped [] [] result }
    {
        GroupBuilder {
            alloc,
            held: AuditGroup::new(alloc),
        }
    }

    /// Takes the next line, and gives the group before it where the line doesn't go on with that. A line that ends its own group stays
    /// held until `finish_own`, or the next push, gives that group. Where memory is wanting the line is dropped and the builder stays as
    /// it was.
    pub fn push(&mut self, line: AuditLine) -> Result<Option<AuditGroup>, NoMemory>
        ensures step { (coming : List AuditLine) → IfOk result (λ group. option_to_list group ++ groups_behind self.new coming ≡ groups_behind self.old (line ∷ coming)) }
        ensures stands { (given : List (List AuditLine)) → (pushed : List AuditLine) → HasGrouped given pushed self.old → IfOk result (λ group. HasGrouped (given ++ option_to_list group) (pushed ++ line ∷ []) self.new) }
        ensures before { IfOk result (λ group. group ≡ (if goes_on self.old line then None else Some self.old)) }
        ensures held { OnOk result (self.new ≡ (if goes_on self.old line then self.old ++ line ∷ [] else line ∷ [])) }
        ensures err { OnErr result (self.new ≡ self.old) }
    {
        if goes_on(self.held.as_slice(), &line) {
            self.held.push(line)?;
            return Ok(None);
        }
        let mut begun = AuditGroup::new(self.alloc);
        begun.push(line)?;
        Ok(Some(mem::replace(&mut self.held, begun)))
    }

    /// Gives the group that the line pushed last ended itself, by its type or as the 4096th; None where it ended none. It takes no memory.
    pub fn finish_own(&mut self) -> Option<AuditGroup>
        ensures own { result ≡ own_group self.old }
        ensures held { self.new ≡ (if is_ended self.old then [] else self.old) }
        ensures stands { (given : List (List AuditLine)) → (pushed : List AuditLine) → HasGrouped given pushed self.old → HasGrouped (given ++ option_to_list result) pushed self.new }
    {
        if is_ended(self.held.as_slice()) {
            Some(self.take_held())
        } else {
            None
        }
    }

    /// Ends the input: gives the group that was being built, and None where no line is held. Then the builder holds no line. It takes no
    /// memory.
    pub fn finish(&mut self) -> Option<AuditGroup>
        ensures group { option_to_list result ≡ whole self.old }
        ensures empty { self.new ≡ [] }
        ensures all { (given : List (List AuditLine)) → (pushed : List AuditLine) → HasGrouped given pushed self.old → given ++ option_to_list result ≡ groups_of pushed }
        ensures runs { (given : List (List AuditLine)) → (pushed : List AuditLine) → HasGrouped given pushed self.old → AreRunsOf pushed (given ++ option_to_list result) }
    {
        if self.held.as_slice().is_empty() {
            None
        } else {
            Some(self.take_held())
        }
    }

    fn take_held(&mut self) -> AuditGroup
        ensures group { result ≡ self.old }
        ensures empty { self.new ≡ [] }
    {
        mem::replace(&mut self.held, AuditGroup::new(self.alloc))
    }
}

/// The group goes on with this line.
fn goes_on(lines: &[AuditLine], line: &AuditLine) -> bool
    ensures { result ≡ goes_on lines.now line.now }
{
    match lines.first() {
        Some(first) => first.id == line.id && !is_ended(lines),
        None => true,
    }
}

/// The last of these lines ends their group.
fn is_ended(lines: &[AuditLine]) -> bool
    ensures { result ≡ is_ended lines.now }
{
    match lines.last() {
        Some(line) => MOST_LINES <= lines.len() || ends_by_kind(line),
        None => false,
    }
}

/// Lines of these types are the last of their events.
fn ends_by_kind(line: &AuditLine) -> bool
    ensures { result ≡ ends_by_kind line.now }
{
    line.kind.as_str() == "EOE" || line.kind.as_str() == "PROCTITLE"
}
