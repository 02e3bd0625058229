//! The ledger that a file has.

ghost use Rattle.std.specs.Prelude.{◌≡◌, ℕ, List, IfOk};
ghost use Rattle.osq_outside.specs.Causes.{FaultHasCause};
ghost use Rattle.osq_outside.specs.declared.files.FilesError.{FilesError};
ghost use Rattle.collector_ledger.specs.Files.{IsOpened, has_rest};

use crate::file::ledger_of;
use collector_core::Ledger;
use osq_outside::{Files, FilesError};
use osq_value::Bytes;
use std::alloc::Global;

/// The ledger of a file that new lines are added to.
#[derive(Drop)]
pub struct OpenedLedger {
    /// Which frames the file's lines record.
    pub ledger: Ledger,
    /// The file ends without a line feed, so one has to stand before the first new line.
    pub has_rest: bool,
}

/// Something stands behind the last line feed.
fn has_rest(file: &[u8]) -> bool
    ensures { result ≡ has_rest file.now }
{
    match file.last() {
        Some(byte) => *byte != b'\n',
        None => false,
    }
}

/// The ledger of the file of this path. Where there is no such file, it is that without frames.
pub fn open_ledger<F: Files>(
    alloc: Global,
    files: &mut F,
    path: &str,
) -> Result<OpenedLedger, FilesError>
    ensures opened { F.tells → IfOk result (IsOpened (F.file files.old path.now)) }
    ensures same { F.tells → (path : List ℕ) → F.file files.new path ≡ F.file files.old path }
    ensures cause { FaultHasCause FilesError.Fault (F.faults files.old) (F.faults files.new) result }
{
    let file = files.read(alloc, path)?.unwrap_or(Bytes::new(alloc));
    Ok(OpenedLedger {
        ledger: ledger_of(alloc, file.as_slice())?,
        has_rest: has_rest(file.as_slice()),
    })
}
