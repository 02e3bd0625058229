//! Adapters over the machine.

use crate::{
    Clock, FileSink, FileSource, Files, FilesError, Gate, HostClock, HostFiles, OpenGate, Point,
    Source, write_all,
};
use osq_value::Bytes;
use std::cell::Cell;
use std::io::{self, ErrorKind, Write};
use std::test::Fail as Failed;
use std::time::Duration;
use std::{env, fs};

/// A writer that takes at most so many bytes at a time.
#[derive(Drop)]
struct Narrow {
    width: usize,
    taken: Bytes,
}

impl Write for Narrow {
    fn write(&mut self, buf: &[u8]) -> io::Result<usize> {
        let count = buf.len().min(self.width);
        let (front, _) = buf.split_at(count);
        match self.taken.extend(front) {
            Ok(()) => Ok(count),
            Err(_) => Err(io::Error::from(ErrorKind::OutOfMemory)),
        }
    }

    fn flush(&mut self) -> io::Result<()> {
        Ok(())
    }
}

#[test]
fn streams_of_the_machine(rt: HostRuntime) -> Result<(), Failed> {
    let alloc = rt.alloc();
    for (width, is_whole, written) in [(1, true, "abc"), (0, false, "")] {
        let mut narrow = Narrow {
            width,
            taken: Bytes::new(alloc),
        };
        let mut sink = FileSink::new(&mut narrow);
        let is_written = write_all(&mut sink, b"abc").is_ok();
        assert_eq!(rt; is_written, is_whole, "at width {width}");
        assert_eq!(rt;
            narrow.taken.as_slice(),
            written.as_bytes(),
            "at width {width}"
        );
    }

    let mut source = FileSource::new(b"abcde".as_slice());
    let mut room = [0u8; 3];
    assert!(rt; matches!(source.read(&mut room), Ok(3)));
    assert_eq!(rt; room, *b"abc");
    assert!(rt; matches!(source.read(&mut room), Ok(2)));
    assert!(rt; matches!(source.read(&mut room), Ok(0)));
    Ok(())
}

#[test]
fn files_of_the_machine(rt: HostRuntime) -> Result<(), Failed> {
    let alloc = rt.alloc();
    let folder = env::temp_dir(&rt)?;
    let path = folder.join(alloc, "osq_outside_files_of_the_machine")?;
    let Some(path) = path.to_str() else {
        return Ok(());
    };
    fs::write(&rt, path, "text")?;
    let mut files = HostFiles::new(&rt);
    let found = files.read(alloc, path);
    fs::remove_file(&rt, path)?;
    assert!(rt; matches!(&found, Ok(Some(bytes)) if bytes.as_slice() == "text".as_bytes()));
    assert!(rt; matches!(files.read(alloc, path), Ok(None)));
    assert!(rt; matches!(files.read(alloc, "."), Err(FilesError::Fault)));
    Ok(())
}

/// A clock that gives each of these moments once, and then none.
#[derive(Drop)]
struct Script {
    moments: [u64; 2],
    next: Cell<usize>,
}

impl std::rt::Clock for Script {
    fn monotonic(&self) -> io::Result<Duration> {
        Ok(Duration::ZERO)
    }

    fn since_1970(&self) -> io::Result<Duration> {
        let at = self.next.get();
        match self.moments.get(at) {
            Some(moment) => {
                self.next.set(at + 1);
                Ok(Duration::from_secs(*moment))
            }
            None => Err(io::Error::from(ErrorKind::Other)),
        }
    }
}

#[test]
fn clocks_and_gates(rt: HostRuntime) {
    let script = Script {
        moments: [7, 5],
        next: Cell::new(0),
    };
    let mut clock = HostClock::new(&script);
    for moment in [7, 5, 5] {
        assert_eq!(rt; clock.now(), moment);
    }
    let silent = Script {
        moments: [7, 5],
        next: Cell::new(2),
    };
    assert_eq!(rt; HostClock::new(&silent).now(), 0);
    OpenGate.at(0, Point::AfterCut);
}
