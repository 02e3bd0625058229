//! The laws of what hosts send and of what a collector records of it, which speak of the definitions alone.

ghost use Rattle.world_laws.specs.Laws.{FileIsPrefix, HostsArePrefixes, LedgerIsPrefix, LinesArePrefix, LinesIsolate, MarksAreRecorded, NoneBegins, StillPrefix, TextsTell, Torn};

/// Whatever frames a collector receives, in any order, some lost and some more than once: where those of a host are frames of batches of its legal
/// list, the digests that are recorded of it are those of the first of its batches, in order. No batch is recorded twice, and none before one that
/// stands before it. Frames of other hosts are whatever they are, and no two digests are assumed to differ.
pub fn ledger_is_prefix()
    ensures { LedgerIsPrefix }
{}

/// The same of lines, of which each that is the text of a frame of the host was sent by it.
pub fn lines_are_prefix()
    ensures { LinesArePrefix }
{}

/// It stays so when the host's list grows and more lines come, from this run of the host or from one before: over runs of the host and of the
/// collector the digests are those of the first batches of the list as it is at last.
pub fn still_prefix()
    ensures { StillPrefix }
{}

/// The same of the file that a collector opens, where each of its lines that is the text of a frame of the host was sent by it.
pub fn file_is_prefix()
    ensures { FileIsPrefix }
{}

/// The text of a frame tells its host, its number and its digest: no line is the text of two frames that differ in one of them.
pub fn texts_tell()
    ensures { TextsTell }
{}

/// So, where each line was sent by some host, or is the text of no frame, a prefix of its own batches is recorded of every host: no host can have
/// sent what is recorded of another.
pub fn hosts_are_prefixes()
    ensures { HostsArePrefixes }
{}

/// Where each answer that a host polled was given by the collector while these lines came, no acknowledgement of the host passes what is recorded
/// of it.
pub fn marks_are_recorded()
    ensures { MarksAreRecorded }
{}

/// No text of a frame begins another: so a line that was cut is the text of no frame.
pub fn none_begins()
    ensures { NoneBegins }
{}

/// A ledger's file that was cut anywhere gives of each host the first of the digests that it gave before, in their order: a torn line is passed over, and
/// nothing else is lost but what stood behind it.
pub fn torn()
    ensures { Torn }
{}

/// What is recorded of a host and answered to it hangs on what was recorded of it before and on the lines that are texts of its frames: whatever else comes
/// between them, malicious lines too, changes neither.
pub fn lines_isolate()
    ensures { LinesIsolate }
{}
