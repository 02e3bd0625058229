//! What one line of a source of changes or tables gives.

ghost use Rattle.std.specs.Prelude.{◌≡◌, ℕ, List, IfOk};
ghost use Rattle.record_lines.specs.Lines.{cut_of};
ghost use Rattle.publisher_core.specs.Audit.{line_in};
ghost use Rattle.record_lines.specs.Limits.{LINE_LIMIT};
ghost use Rattle.publisher_core.specs.Found.{IsChangeRaw};
ghost use Rattle.publisher_core.specs.Records.{TableGives, skipped_line, TABLE_LIMIT};

use crate::record::{Gain, Raw, Record};
use audit_records::{AuditLine, AuditLineError, read_line};
use change_records::{JsonLineError, read_change, read_table};
use json::Scratch;
use osq_value::{NoMemory, Reading};
use record_lines::Cut;
use std::alloc::Global;

/// A table line has at most so many bytes.
pub const TABLE_LIMIT: u64 = 16_777_216;

/// A line that is skipped and counted.
const SKIPPED: Gain = Gain::Event {
    event: None,
    skipped: 1,
};

/// A skipped line of a source of changes, which ends at this offset.
fn skipped(end: u64) -> Raw
    ensures { result ≡ record { item = None; skipped = 1; end = end } }
{
    Raw {
        item: None,
        skipped: 1,
        end,
    }
}

/// The record that a line of a source of changes is, which ends at this offset.
pub fn change_raw(
    alloc: Global,
    scratch: &mut Scratch,
    cut: &Cut,
    end: u64,
) -> Result<Raw, NoMemory>
    ensures { (line : List ℕ) → (at : ℕ) → cut.now ≡ cut_of LINE_LIMIT at line → IfOk result (λ raw. IsChangeRaw line end raw) }
{
    let Cut::Line(line) = cut else {
        return Ok(skipped(end));
    };
    match read_change(alloc, scratch, line.text.as_slice()) {
        Err(JsonLineError::NoMemory) => Err(NoMemory),
        Err(JsonLineError::BadLine) => Ok(skipped(end)),
        Ok(change) => Ok(Raw {
            item: Some(Record::Change(change)),
            skipped: 0,
            end,
        }),
    }
}

/// What a line of a source of tables gives.
pub fn table_gain(alloc: Global, cut: &Cut) -> Result<Gain, NoMemory>
    ensures { (line : List ℕ) → (end : ℕ) → cut.now ≡ cut_of TABLE_LIMIT end line → IfOk result (λ gain. TableGives line gain) }
{
    let Cut::Line(line) = cut else {
        return Ok(SKIPPED);
    };
    match read_table(alloc, line.text.as_slice()) {
        Err(JsonLineError::NoMemory) => Err(NoMemory),
        Err(JsonLineError::BadLine) => Ok(SKIPPED),
        Ok(
            Reading::Table {
                taken: _,
                table,
                rows,
            },
        ) => Ok(Gain::Table { table, rows }),
        Ok(Reading::Events { .. }) => Ok(SKIPPED),
    }
}

/// The line of an audit log, or none where it is skipped.
pub fn audit_line(alloc: Global, cut: &Cut) -> Result<Option<AuditLine>, NoMemory>
    ensures { (line : List ℕ) → (end : ℕ) → cut.now ≡ cut_of LINE_LIMIT end line → IfOk result (λ found. found ≡ line_in line) }
{
    let Cut::Line(line) = cut else {
        return Ok(None);
    };
    match read_line(alloc, line.text.as_slice()) {
        Ok(line) => Ok(Some(line)),
        Err(AuditLineError::BadLine) => Ok(None),
        Err(AuditLineError::NoMemory) => Err(NoMemory),
    }
}
