//! Streams of frames, and what a collector makes of them.

use crate::lines::bytes_of_parts;
use crate::rows::push_bytes;
use case_text::fails_of;
use collect_rounds::{CollectError, collect};
use collector_ledger::{OpenedLedger, open_ledger};
use osq_outside::{FilesError, MemoryFiles, MemorySink, MemorySource, NamedFile, NamedFileList};
use osq_value::{Bytes, Copied, NoMemory, Str};
use serde_json::Value as Json;
use std::alloc::Global;

/// The path of the ledger's file.
const PATH: &str = "ledger";

/// The ledger's file of a row, where it has one.
fn file_of(alloc: Global, row: &Json) -> Result<Option<Bytes>, NoMemory> {
    match row.get("file") {
        Some(parts) => Ok(Some(bytes_of_parts(alloc, Some(parts))?)),
        None => Ok(None),
    }
}

fn files_of(alloc: Global, row: &Json, file: Option<Bytes>) -> Result<MemoryFiles, NoMemory> {
    let mut files = NamedFileList::new(alloc);
    if let Some(text) = file {
        files.push(NamedFile {
            path: Str::of(alloc, PATH)?,
            text,
        })?;
    }
    Ok(MemoryFiles::new(files, fails_of(alloc, row.get("files"))?))
}

/// How a collector ends.
fn end_name(ended: Result<bool, CollectError>) -> Result<&'static str, NoMemory> {
    match ended {
        Ok(true) => Ok("end"),
        Ok(false) => Ok("rounds are spent"),
        Err(CollectError::SourceFault) => Ok("SourceFault"),
        Err(CollectError::SinkFault) => Ok("SinkFault"),
        Err(CollectError::NoMemory) => Err(NoMemory),
    }
}

/// Adds a label and what was written.
fn push_written(text: &mut String, label: &str, sink: &MemorySink) -> Result<(), NoMemory> {
    writeln!(text, "{label} {}", sink.written().len())?;
    if sink.written().len() == 0 {
        return Ok(());
    }
    push_bytes(text, sink.written().as_slice())
}

/// Collects a stream from this ledger on.
fn push_run(
    alloc: Global,
    text: &mut String,
    row: &Json,
    opened: OpenedLedger,
    stream: Bytes,
) -> Result<(), NoMemory> {
    let rounds = row.get("rounds").and_then(Json::as_u64).unwrap_or(1);
    let mut source = MemorySource::new(stream, fails_of(alloc, row.get("source"))?);
    let mut ledger = MemorySink::new(alloc, fails_of(alloc, row.get("ledger"))?);
    let mut answers = MemorySink::new(alloc, fails_of(alloc, row.get("answers"))?);
    let ended = collect(
        alloc,
        opened,
        &mut source,
        rounds,
        &mut ledger,
        &mut answers,
    );
    writeln!(text, "{}", end_name(ended)?)?;
    push_written(text, "ledger", &ledger)?;
    push_written(text, "answers", &answers)
}

/// Opens the ledger of a file, where there is one, and collects a stream.
fn push_opened(
    alloc: Global,
    text: &mut String,
    row: &Json,
    file: Option<Bytes>,
    stream: Bytes,
) -> Result<(), NoMemory> {
    let mut files = files_of(alloc, row, file)?;
    match open_ledger(alloc, &mut files, PATH) {
        Ok(opened) => push_run(alloc, text, row, opened, stream),
        Err(FilesError::Fault) => Ok(text.push_str("FilesFault\n")?),
        Err(FilesError::NoMemory) => Err(NoMemory),
    }
}

/// Opens the ledger of a row and collects its stream.
pub(crate) fn push_collected(alloc: Global, text: &mut String, row: &Json) -> Result<(), NoMemory> {
    let file = file_of(alloc, row)?;
    let stream = bytes_of_parts(alloc, row.get("collect"))?;
    push_opened(alloc, text, row, file, stream)
}

/// What a collector of a stream gives whose ledger's file has so many of the stream's first bytes.
fn torn_at(alloc: Global, row: &Json, stream: &Bytes, kept: usize) -> Result<String, NoMemory> {
    let (front, _) = stream.as_slice().split_at(kept.min(stream.len()));
    let mut file = Bytes::new(alloc);
    file.extend(front)?;
    let mut text = String::new(alloc);
    push_opened(alloc, &mut text, row, Some(file), stream.copy(alloc)?)?;
    Ok(text)
}

/// Adds what the collector of a stream gives behind a file that has more and more of it, each with the number of bytes from which on it gives that.
pub(crate) fn push_torn(alloc: Global, text: &mut String, row: &Json) -> Result<(), NoMemory> {
    let stream = bytes_of_parts(alloc, row.get("torn"))?;
    let mut last = String::new(alloc);
    for kept in 0..stream.len().saturating_add(1) {
        let found = torn_at(alloc, row, &stream, kept)?;
        if found.as_str() != last.as_str() {
            writeln!(text, "from {kept} bytes on")?;
            text.push_str(found.as_str())?;
        }
        last = found;
    }
    Ok(())
}
