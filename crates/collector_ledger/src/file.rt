//! The lines of a ledger's file.

ghost use Rattle.std.specs.Prelude.{◌≡◌, ℕ, List, IfOk, OnOk, OnErr};
ghost use Rattle.collector_answers.specs.declared.judging.Judged.{Judged};
ghost use Rattle.collector_answers.specs.Judging.{IsJudged};
ghost use Rattle.collector_core.specs.Ledgers.{digests_of};
ghost use Rattle.collector_ledger.specs.Files.{IsLedgerOf};
ghost use Rattle.collector_ledger.specs.Takes.{TakesLine};

use collector_answers::{Judged, judge};
use collector_core::Ledger;
use memchr::memchr;
use osq_value::NoMemory;
use std::alloc::Global;

/// Takes a line of the file: a frame as it is received, and nothing else.
fn take_line(alloc: Global, ledger: &mut Ledger, line: &[u8]) -> Result<(), NoMemory>
    ensures { OnOk result (TakesLine (digests_of ledger.old) line.now (digests_of ledger.new)) }
{
    match judge(alloc, line)? {
        Judged::Bad { kind: _ } => Ok(()),
        Judged::Framed { frame, digest } => {
            let _receipt = ledger.receive(alloc, &frame, digest)?;
            Ok(())
        }
    }
}

/// The ledger of a file: its lines are received as frames, one after another, from the ledger without frames on. What stands behind the
/// last line feed is a line too. A line that is no frame is passed over, whatever it holds, and so is one that is too long, one that
/// repeats a frame, leaves a gap or conflicts.
pub fn ledger_of(alloc: Global, file: &[u8]) -> Result<Ledger, NoMemory>
    ensures { IfOk result (λ ledger. IsLedgerOf file.now (digests_of ledger)) }
{
    let mut ledger = Ledger::empty(alloc);
    let mut rest = file;
    while let Some(at) = memchr(b'\n', rest) {
        let (line, behind) = rest.split_at(at);
        let (_, behind) = behind.split_at(1);
        take_line(alloc, &mut ledger, line)?;
        rest = behind;
    }
    take_line(alloc, &mut ledger, rest)?;
    Ok(ledger)
}
